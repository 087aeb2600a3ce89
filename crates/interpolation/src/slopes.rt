//! How much the corners of a primitive count at a pixel, and how much more at the next ones.
ghost use Rattle.std.specs.Prelude.{◌≡◌, ◌-ℤ◌, if◌then◌else◌};
ghost use Rattle.gl_records.specs.Valid.{IsInRange};
ghost use Rattle.interpolation.specs.Factors.{has_one_q};
ghost use Rattle.interpolation.specs.Frames.{AreScaled, AreSlopes};
ghost use Rattle.interpolation.specs.Shares.{AreSmall, HasSmallWeights};

use crate::shares::Shares;
use crate::sharing::{stepped, weighted};
use coverage::weights;
use gl_records::Prim;

/// How much more the corners count at the next pixel to the right, and at the next above.
#[derive(Clone, Copy)]
pub struct Slopes {
    pub right: Shares,
    pub up: Shares,
}

/// The slopes of a primitive.
pub fn slopes_of(prim: &Prim) -> Slopes
    requires { IsInRange prim.now }
    ensures { AreSlopes result prim.now }
{
    let first = scaled_shares_at(prim, 0, 0);
    let right = scaled_shares_at(prim, 1, 0);
    let above = scaled_shares_at(prim, 0, 1);
    Slopes {
        right: change(&first, &right),
        up: change(&first, &above),
    }
}

/// What the corners count at pixel (x, y): their weight times their q, and the weight alone where all have the same q.
pub fn scaled_shares_at(prim: &Prim, x: i32, y: i32) -> Shares
    requires in_range { IsInRange prim.now }
    requires small { HasSmallWeights prim.now x y }
    ensures shares { AreScaled result prim.now x y }
    ensures small { AreSmall result }
{
    let [u, v, w] = weights(prim, x, y);
    let [a, b, c] = &prim.verts;
    weighted(
        u,
        v,
        w,
        factor(prim, a.q),
        factor(prim, b.q),
        factor(prim, c.q),
    )
}

/// What is left of a corner's q without the factor that all three have.
fn factor(prim: &Prim, q: u32) -> u32
    ensures { result ≡ (if has_one_q prim.now then 1 else q) }
{
    let [a, b, c] = &prim.verts;
    if a.q == b.q && a.q == c.q { 1 } else { q }
}

fn change(from: &Shares, to: &Shares) -> Shares
    requires from { AreSmall from.now }
    requires to { AreSmall to.now }
    ensures first { result.first ≡ to.now.first -ℤ from.now.first }
    ensures second { result.second ≡ to.now.second -ℤ from.now.second }
    ensures third { result.third ≡ to.now.third -ℤ from.now.third }
{
    Shares {
        first: stepped(0, from.first, to.first),
        second: stepped(0, from.second, to.second),
        third: stepped(0, from.third, to.third),
    }
}
