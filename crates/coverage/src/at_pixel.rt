ghost use Rattle.std.specs.Prelude.{◌≡◌, pos, ◌+ℤ◌, ◌*ℤ◌, ◌-ℤ◌, ◌≤ℤ◌, ◌<ℤ◌, ◌≤◌, ◌^◌, IsTrue, unsigned_abs};
ghost use Rattle.fx_arith.specs.Number.{clamp, floor_div};
ghost use Rattle.gl_records.specs.Coverage.{covers};
ghost use Rattle.gl_records.specs.Depth.{depth};
ghost use Rattle.gl_records.specs.Valid.{IsInRange};
ghost use Rattle.gl_records.specs.Weights.{AreWeights, weight, weights as weights_of};

use crate::edges::edge;
use crate::line_weights::line_weights;
use gl_records::{GREATEST_DEPTH, Prim, PrimKind};

/// How much each corner counts at the centre of pixel (x, y). At a triangle it is the edge function of the edge
/// across from the corner, which is twice the area between this edge and the centre, in units of 1/256 pixel
/// (OpenGL 1.5, 3.5.1). At a line an end counts by how far the centre is from the other end, along the axis that the
/// line is longer on, in units of 1/16 pixel. At a point the first corner alone counts, by 1. Where the primitive
/// covers the pixel, none is below 0 and their sum lies within 1 and 2^36.
pub fn weights(p: &Prim, x: i32, y: i32) -> [i64; 3]
    requires { IsInRange p.now }
    ensures value { result ≡ weights_of p.now x y }
    ensures where_covered { IsTrue (covers p.now x y)
        → AreWeights (weight p.now 0 x y) (weight p.now 1 x y) (weight p.now 2 x y) }
{
    let [a, b, c] = &p.verts;
    match p.kind {
        PrimKind::Triangle => [edge(b, c, x, y), edge(c, a, x, y), edge(a, b, x, y)],
        PrimKind::Line => line_weights(a, b, x, y),
        PrimKind::Point => [1, 0, 0],
    }
}

/// The depth at the centre of pixel (x, y), 0 to the greatest that there is.
pub fn depth_at(p: &Prim, x: i32, y: i32) -> u32
    requires in_range { IsInRange p.now }
    requires covered { IsTrue (covers p.now x y) }
    ensures value { result ≡ depth p.now x y }
    ensures to_greatest { result ≤ GREATEST_DEPTH }
{
    let [u, v, w] = weights(p, x, y);
    let [a, b, c] = &p.verts;
    clamped_quotient(depth_sum(u, v, w, a.z, b.z, c.z), total(u, v, w))
}

fn total(u: i64, v: i64, w: i64) -> i64
    requires { AreWeights u v w }
    ensures { result ≡ u +ℤ v +ℤ w }
{
    u + v + w
}

/// The sum of the corners' depths, each as often as its corner's weight says.
fn depth_sum(u: i64, v: i64, w: i64, a: i32, b: i32, c: i32) -> i64
    requires weights { AreWeights u v w }
    requires first { unsigned_abs a ≤ 2 ^ 26 }
    requires second { unsigned_abs b ≤ 2 ^ 26 }
    requires third { unsigned_abs c ≤ 2 ^ 26 }
    ensures { result ≡ (u *ℤ a) +ℤ (v *ℤ b) +ℤ (w *ℤ c) }
{
    share(u, a) + share(v, b) + share(w, c)
}

/// What a corner of depth `z` gives to the sum of the depths.
fn share(weight: i64, z: i32) -> i64
    requires weight_from { pos 0 ≤ℤ weight }
    requires weight_to { weight ≤ℤ pos (2 ^ 36) }
    requires z_in_range { unsigned_abs z ≤ 2 ^ 26 }
    ensures value { result ≡ weight *ℤ z }
    ensures from { (pos 0 -ℤ (pos (2 ^ 26) *ℤ weight)) ≤ℤ result }
    ensures to { result ≤ℤ (pos (2 ^ 26) *ℤ weight) }
{
    weight * i64::from(z)
}

/// The floor of the quotient, clamped to the depths that there are.
fn clamped_quotient(sum: i64, total: i64) -> u32
    requires { pos 0 <ℤ total }
    ensures value { result
        ≡ unsigned_abs (clamp (pos 0) (pos GREATEST_DEPTH) (floor_div sum (unsigned_abs total))) }
    ensures to_greatest { result ≤ GREATEST_DEPTH }
{
    if sum < 0 {
        0
    } else {
        (sum / total).min(i64::from(GREATEST_DEPTH)) as u32
    }
}
