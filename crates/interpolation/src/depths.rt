//! The depths of a primitive, tile by tile.
ghost use Rattle.std.specs.Prelude.{◌≡◌, ℕ, ℤ, pos, ◌<◌, ◌≤◌, ◌*ℤ◌, ◌+ℤ◌, ◌*◌, ◌^◌, IfSome, IsTrue, unsigned_abs};
ghost use Rattle.fx_arith.specs.Number.{clamp};
ghost use Rattle.plane_equations.specs.Planes.{plane_at};
ghost use Rattle.gl_records.specs.Coverage.{corner, covers};
ghost use Rattle.gl_records.specs.Depth.{depth as depth_of};
ghost use Rattle.gl_records.specs.Valid.{IsInRange};
ghost use Rattle.interpolation.specs.Depths.{AreDepthsOf, IsLevel, depth_sum as depth_sum_of, weight_total as weight_total_of};
ghost use Rattle.interpolation.specs.Shares.{HasSmallWeights};
ghost use Rattle.interpolation.specs.TileValues.{OnTile, x_of, y_of};

use coverage::{depth_at, weights};
use gl_records::{GREATEST_DEPTH, GREATEST_SIDE, Prim, TileRect};
use plane_equations::{Plane, Reciprocal, narrowed};
use std::marker::Model;

/// How the depths go over a tile.
#[derive(Clone, Copy)]
pub enum Slope {
    /// All are this one.
    Level(u32),
    /// Each is the sum of the corners' depths over the sum of the weights, which is the same at all pixels.
    Straight { sum: Plane, by: Reciprocal },
    /// Each is found at its pixel.
    Plain,
}

/// A primitive's depths on one tile.
#[derive(Drop)]
pub struct TileDepths<'a> {
    prim: &'a Prim,
    rect: TileRect,
    slope: Slope,
}

impl<'a> Model for TileDepths<'a> {
    ghost use Rattle.interpolation.specs.Depths.{AreDepthsOf};
    ghost use Rattle.interpolation.specs.TileValues.{IsOnTile, OnTile};

    ghost Value = { OnTile };

    ghost view = { λ d. record { prim = d.prim.now; rect = d.rect } };

    ghost invariant = { λ d. IsOnTile (record { prim = d.prim.now; rect = d.rect })
        × AreDepthsOf (record { prim = d.prim.now; rect = d.rect }) d.slope };
}

impl<'a> TileDepths<'a> {
    /// The primitive on the tile with this lower left pixel.
    pub fn new(prim: &'a Prim, rect: TileRect) -> TileDepths<'a>
        requires in_range { IsInRange prim.now }
        requires column { rect.x0 ≤ GREATEST_SIDE }
        requires band { rect.y0 ≤ GREATEST_SIDE }
        ensures { result ≡ record { prim = prim.now; rect = rect } }
    {
        TileDepths {
            prim,
            rect,
            slope: slope_of(prim, rect),
        }
    }

    /// The depth of all pixels, where the corners have the same one.
    pub fn level(&self) -> Option<u32>
        ensures { IfSome result (IsLevel self.now.prim) }
    {
        match &self.slope {
            Slope::Level(z) => Some(*z),
            _ => None,
        }
    }

    /// The depth at the pixel in this column and row of the tile, which the primitive covers (OpenGL 1.5, 3.5.1).
    pub fn depth(&self, column: u16, row: u16) -> u32
        requires column { column < 16 }
        requires row { row < 16 }
        requires covered { IsTrue (covers self.now.prim (x_of self.now column) (y_of self.now row)) }
        ensures { result ≡ depth_of self.now.prim (x_of self.now column) (y_of self.now row) }
    {
        match &self.slope {
            Slope::Level(z) => *z,
            Slope::Straight { sum, by } => clamped(by.floor_quotient(sum.at(column, row))),
            Slope::Plain => self.plain_depth(column, row),
        }
    }

    pub(crate) fn plain_depth(&self, column: u16, row: u16) -> u32
        requires column { column < 16 }
        requires row { row < 16 }
        requires covered { IsTrue (covers self.now.prim (x_of self.now column) (y_of self.now row)) }
        ensures { result ≡ depth_of self.now.prim (x_of self.now column) (y_of self.now row) }
    {
        let x = self.rect.x0 + column;
        let y = self.rect.y0 + row;
        depth_at(self.prim, i32::from(x), i32::from(y))
    }
}

fn slope_of(prim: &Prim, rect: TileRect) -> Slope
    requires in_range { IsInRange prim.now }
    requires column { rect.x0 ≤ GREATEST_SIDE }
    requires band { rect.y0 ≤ GREATEST_SIDE }
    ensures { AreDepthsOf (record { prim = prim.now; rect = rect }) result }
{
    if is_level(prim) {
        Slope::Level(clamped(i64::from(prim.verts[0].z)))
    } else {
        straight(prim, rect)
    }
}

fn is_level(prim: &Prim) -> bool
    ensures { IsTrue result → ((corner prim.now 0).z ≡ (corner prim.now 1).z) × ((corner prim.now 0).z ≡ (corner prim.now 2).z) }
{
    let [a, b, c] = &prim.verts;
    a.z <= b.z && b.z <= a.z && a.z <= c.z && c.z <= a.z
}

/// The sums at the tile's first pixel and their steps to the next, where they are narrow enough.
fn straight(prim: &Prim, rect: TileRect) -> Slope
    requires in_range { IsInRange prim.now }
    requires column { rect.x0 ≤ GREATEST_SIDE }
    requires band { rect.y0 ≤ GREATEST_SIDE }
    ensures { AreDepthsOf (record { prim = prim.now; rect = rect }) result }
{
    let (x, y) = (i32::from(rect.x0), i32::from(rect.y0));
    let origin = depth_sum(prim, x, y);
    let right = depth_sum(prim, x + 1, y);
    let above = depth_sum(prim, x, y + 1);
    match narrowed(origin, right - origin, above - origin) {
        Some(sum) => divided(sum, weight_total(prim, x, y)),
        None => Slope::Plain,
    }
}

fn divided(sum: Plane, total: i64) -> Slope
    requires { unsigned_abs total ≤ 2 ^ 61 }
    ensures { (on : OnTile) (x y : ℤ) → ((i j : ℕ) → i ≤ 16 → j ≤ 16 → plane_at sum i j ≡ depth_sum_of on.prim (x_of on i) (y_of on j))
        → total ≡ weight_total_of on.prim x y → AreDepthsOf on result }
{
    if total > 0 {
        Slope::Straight {
            sum,
            by: Reciprocal::new(total),
        }
    } else {
        Slope::Plain
    }
}

/// The sum of the corners' depths at pixel (x, y), each as often as its corner's weight says.
fn depth_sum(prim: &Prim, x: i32, y: i32) -> i128
    requires in_range { IsInRange prim.now }
    requires small { HasSmallWeights prim.now x y }
    ensures value { result ≡ depth_sum_of prim.now x y }
    ensures bound { unsigned_abs result ≤ 3 * 2 ^ 68 }
{
    let [u, v, w] = weights(prim, x, y);
    let [a, b, c] = &prim.verts;
    added(part(u, a.z), part(v, b.z), part(w, c.z))
}

fn added(a: i128, b: i128, c: i128) -> i128
    requires a { unsigned_abs a ≤ 2 ^ 68 }
    requires b { unsigned_abs b ≤ 2 ^ 68 }
    requires c { unsigned_abs c ≤ 2 ^ 68 }
    ensures value { result ≡ a +ℤ b +ℤ c }
    ensures bound { unsigned_abs result ≤ 3 * 2 ^ 68 }
{
    a + b + c
}

fn part(weight: i64, z: i32) -> i128
    requires { unsigned_abs weight ≤ 2 ^ 36 }
    ensures value { result ≡ weight *ℤ z }
    ensures bound { unsigned_abs result ≤ 2 ^ 68 }
{
    i128::from(weight) * i128::from(z)
}

/// The sum of the weights at pixel (x, y).
fn weight_total(prim: &Prim, x: i32, y: i32) -> i64
    requires in_range { IsInRange prim.now }
    requires small { HasSmallWeights prim.now x y }
    ensures value { result ≡ weight_total_of prim.now x y }
    ensures bound { unsigned_abs result ≤ 3 * 2 ^ 36 }
{
    let [u, v, w] = weights(prim, x, y);
    total(u, v, w)
}

fn total(u: i64, v: i64, w: i64) -> i64
    requires u { unsigned_abs u ≤ 2 ^ 36 }
    requires v { unsigned_abs v ≤ 2 ^ 36 }
    requires w { unsigned_abs w ≤ 2 ^ 36 }
    ensures value { result ≡ u +ℤ v +ℤ w }
    ensures bound { unsigned_abs result ≤ 3 * 2 ^ 36 }
{
    u + v + w
}

/// The depth that is nearest among those that there are.
fn clamped(z: i64) -> u32
    ensures { result ≡ unsigned_abs (clamp (pos 0) (pos GREATEST_DEPTH) z) }
{
    z.clamp(0, i64::from(GREATEST_DEPTH)) as u32
}
