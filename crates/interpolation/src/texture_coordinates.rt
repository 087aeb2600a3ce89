//! A unit's coordinates by the corners' shares.
ghost use Rattle.std.specs.Prelude.{◌≡◌, ℤ, pos, ◌<◌, ◌≤◌, ◌*◌, ◌^◌, ◌<ℤ◌, unsigned_abs};
ghost use Rattle.fx_arith.specs.Number.{div as quotient_of};
ghost use Rattle.interpolation.specs.Coordinates.{AreCoordinates};
ghost use Rattle.interpolation.specs.Shares.{AreShares, shared_coordinate};

use crate::coordinates::Coordinates;
use crate::shares::Shares;
use crate::sharing::sum;
use fx_arith::{Fx, floor_quotient_128, saturate_wide};
use gl_records::Prim;

/// The coordinates of a unit where the corners have these shares: the sums of s and t over that of the third texture
/// coordinate.
pub fn coordinates_at(prim: &Prim, unit: usize, shares: &Shares) -> Coordinates
    requires { unit < 2 }
    ensures { (x y : ℤ) → AreShares shares.now prim.now x y → AreCoordinates result prim.now unit x y }
{
    let divisor = coordinate_sum(prim, unit, 2, shares);
    if divisor <= 0 {
        return Coordinates {
            s: Fx(0),
            t: Fx(0),
            known: false,
        };
    }
    Coordinates {
        s: ratio(coordinate_sum(prim, unit, 0, shares), divisor),
        t: ratio(coordinate_sum(prim, unit, 1, shares), divisor),
        known: true,
    }
}

/// The sum of texture coordinate `k` over the corners.
fn coordinate_sum(prim: &Prim, unit: usize, k: usize, shares: &Shares) -> i128
    requires unit { unit < 2 }
    requires k { k < 3 }
    ensures value { result ≡ shared_coordinate shares.now prim.now unit k }
    ensures bound { unsigned_abs result ≤ 3 * 2 ^ 101 }
{
    let [a, b, c] = &prim.verts;
    sum(shares, a.tex[unit][k], b.tex[unit][k], c.tex[unit][k])
}

/// The quotient as a GLfixed, rounded down and saturated.
fn ratio(sum: i128, divisor: i128) -> Fx
    requires sum { unsigned_abs sum ≤ 3 * 2 ^ 101 }
    requires divisor { pos 0 <ℤ divisor }
    ensures { result.0 ≡ quotient_of sum divisor }
{
    saturate_wide(floor_quotient_128(65536 * sum, divisor))
}
