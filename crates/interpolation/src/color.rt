//! The colour before texturing.
ghost use Rattle.std.specs.Prelude.{◌≡◌, ℤ, ◌+◌, ◌*◌, ◌/◌, ◌<◌, ◌≤◌, ◌^◌, unsigned_abs};
ghost use Rattle.gl_records.specs.Interpolation.{interpolated_color as color_of_corners};
ghost use Rattle.interpolation.specs.Mean.{weighted_mean};
ghost use Rattle.interpolation.specs.Shares.{AreShares, ArePositive};

use crate::shares::Shares;
use gl_records::Prim;

/// The mean of the corners' colours, where each counts by its share (OpenGL 1.5, 3.5.1).
pub fn interpolated_color(prim: &Prim, shares: &Shares) -> [u8; 4]
    requires { ArePositive shares.now }
    ensures { (x y : ℤ) → AreShares shares.now prim.now x y → result ≡ color_of_corners prim.now x y }
{
    let [a, b, c] = &prim.verts;
    [
        mean(shares, a.rgba[0], b.rgba[0], c.rgba[0]),
        mean(shares, a.rgba[1], b.rgba[1], c.rgba[1]),
        mean(shares, a.rgba[2], b.rgba[2], c.rgba[2]),
        mean(shares, a.rgba[3], b.rgba[3], c.rgba[3]),
    ]
}

/// The mean of three bytes, rounded down.
fn mean(shares: &Shares, a: u8, b: u8, c: u8) -> u8
    requires { ArePositive shares.now }
    ensures { result ≡ weighted_mean (unsigned_abs shares.now.first) (unsigned_abs shares.now.second) (unsigned_abs shares.now.third) a b c }
{
    mean_of(
        shares.first.unsigned_abs(),
        shares.second.unsigned_abs(),
        shares.third.unsigned_abs(),
        a,
        b,
        c,
    )
}

fn mean_of(first: u128, second: u128, third: u128, a: u8, b: u8, c: u8) -> u8
    requires first { first ≤ 2 ^ 69 }
    requires second { second ≤ 2 ^ 69 }
    requires third { third ≤ 2 ^ 69 }
    requires some { 0 < first + second + third }
    ensures { result ≡ weighted_mean first second third a b c }
{
    if a == b && b == c {
        return a;
    }
    let sum = first * u128::from(a) + second * u128::from(b) + third * u128::from(c);
    quotient(sum, first + second + third)
}

/// The quotient rounded down, on 64 bits where they are enough.
fn quotient(sum: u128, total: u128) -> u8
    requires some { 0 < total }
    requires byte { sum ≤ 255 * total }
    ensures { result ≡ sum / total }
{
    if total < 1 << 56 {
        (sum as u64 / total as u64) as u8
    } else {
        (sum / total) as u8
    }
}
