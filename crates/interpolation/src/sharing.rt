//! The corners' shares at a pixel and at the next ones, and sums by them.
ghost use Rattle.std.specs.Prelude.{◌≡◌, ℤ, pos, ◌≤◌, ◌*◌, ◌^◌, ◌+ℤ◌, ◌-ℤ◌, ◌*ℤ◌, unsigned_abs};
ghost use Rattle.gl_records.specs.Valid.{IsInRange};
ghost use Rattle.interpolation.specs.Shares.{AreShares, AreSmall, HasSmallWeights, shared};

use crate::shares::Shares;
use coverage::weights;
use gl_records::Prim;

/// The shares at pixel (x, y).
pub fn shares_at(prim: &Prim, x: i32, y: i32) -> Shares
    requires in_range { IsInRange prim.now }
    requires small { HasSmallWeights prim.now x y }
    ensures shares { AreShares result prim.now x y }
    ensures small { AreSmall result }
{
    let [u, v, w] = weights(prim, x, y);
    let [a, b, c] = &prim.verts;
    weighted(u, v, w, a.q, b.q, c.q)
}

pub fn weighted(u: i64, v: i64, w: i64, a: u32, b: u32, c: u32) -> Shares
    requires u_to { unsigned_abs u ≤ 2 ^ 36 }
    requires v_to { unsigned_abs v ≤ 2 ^ 36 }
    requires w_to { unsigned_abs w ≤ 2 ^ 36 }
    requires a_to { a ≤ 2 ^ 31 }
    requires b_to { b ≤ 2 ^ 31 }
    requires c_to { c ≤ 2 ^ 31 }
    ensures first { result.first ≡ u *ℤ pos a }
    ensures second { result.second ≡ v *ℤ pos b }
    ensures third { result.third ≡ w *ℤ pos c }
    ensures small { AreSmall result }
{
    Shares {
        first: share(u, a),
        second: share(v, b),
        third: share(w, c),
    }
}

fn share(weight: i64, q: u32) -> i128
    requires weight_to { unsigned_abs weight ≤ 2 ^ 36 }
    requires q_to { q ≤ 2 ^ 31 }
    ensures value { result ≡ weight *ℤ pos q }
    ensures small { unsigned_abs result ≤ 2 ^ 67 }
{
    i128::from(weight) * i128::from(q)
}

/// The shares as far beyond `here` as `next` lies beyond `origin`.
pub fn beyond(here: &Shares, origin: &Shares, next: &Shares) -> Shares
    requires here { AreSmall here.now }
    requires origin { AreSmall origin.now }
    requires next { AreSmall next.now }
    ensures first { result.first ≡ here.now.first +ℤ (next.now.first -ℤ origin.now.first) }
    ensures second { result.second ≡ here.now.second +ℤ (next.now.second -ℤ origin.now.second) }
    ensures third { result.third ≡ here.now.third +ℤ (next.now.third -ℤ origin.now.third) }
{
    Shares {
        first: stepped(here.first, origin.first, next.first),
        second: stepped(here.second, origin.second, next.second),
        third: stepped(here.third, origin.third, next.third),
    }
}

pub fn stepped(here: i128, origin: i128, next: i128) -> i128
    requires here { unsigned_abs here ≤ 2 ^ 67 }
    requires origin { unsigned_abs origin ≤ 2 ^ 67 }
    requires next { unsigned_abs next ≤ 2 ^ 67 }
    ensures value { result ≡ here +ℤ (next -ℤ origin) }
    ensures small { unsigned_abs result ≤ 2 ^ 69 }
{
    here + (next - origin)
}

/// The sum of three values, each as often as its corner's share says.
pub fn sum(shares: &Shares, a: i32, b: i32, c: i32) -> i128
    ensures value { result ≡ shared shares.now a b c }
    ensures bound { unsigned_abs result ≤ 3 * 2 ^ 101 }
{
    added(
        times(shares.first, a),
        times(shares.second, b),
        times(shares.third, c),
    )
}

fn added(a: i128, b: i128, c: i128) -> i128
    requires a { unsigned_abs a ≤ 2 ^ 101 }
    requires b { unsigned_abs b ≤ 2 ^ 101 }
    requires c { unsigned_abs c ≤ 2 ^ 101 }
    ensures value { result ≡ a +ℤ b +ℤ c }
    ensures bound { unsigned_abs result ≤ 3 * 2 ^ 101 }
{
    a + b + c
}

fn times(share: i128, value: i32) -> i128
    requires { unsigned_abs share ≤ 2 ^ 69 }
    ensures value { result ≡ share *ℤ value }
    ensures bound { unsigned_abs result ≤ 2 ^ 101 }
{
    share * i128::from(value)
}

/// The sum of the shares.
pub fn total(shares: &Shares) -> i128
    ensures value { result ≡ shares.now.first +ℤ shares.now.second +ℤ shares.now.third }
    ensures bound { unsigned_abs result ≤ 3 * 2 ^ 69 }
{
    shares.first + shares.second + shares.third
}
