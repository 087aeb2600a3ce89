//! Values of a primitive over a tile are prepared: sums over the corners as planes.
ghost use Rattle.std.specs.Prelude.{◌≡◌, ℕ, ℤ, IfSome, IsTrue, pos, ◌<◌, ◌≤◌, ◌<ℤ◌, slice_index, unsigned_abs};
ghost use Rattle.fx_arith.specs.Number.{floor_div};
ghost use Rattle.plane_equations.specs.FixedPlanes.{fixed_at};
ghost use Rattle.plane_equations.specs.Planes.{plane_at};
ghost use Rattle.gl_records.specs.declared.prim.VertexOut.{VertexOut};
ghost use Rattle.gl_records.specs.Coverage.{corner};
ghost use Rattle.gl_records.specs.TextureCoordinate.{corner_coordinate};
ghost use Rattle.gl_records.specs.Valid.{IsInRange};
ghost use Rattle.interpolation.specs.Factors.{scaled_total};
ghost use Rattle.interpolation.specs.Frames.{AreSlopes, IsSumPlane};
ghost use Rattle.interpolation.specs.TileValues.{AreThirdsOne, AreUnitRatiosOf, IsChannelOf, IsColorOf, IsDivisorOf, IsFogOf, IsRatioOf, OnTile, x_of, y_of};

use crate::channels::{Channels, Color};
use crate::divisor::Divisor;
use crate::flat::flat_color;
use crate::ratio::Ratio;
use crate::shares::Shares;
use crate::sharing::sum;
use crate::slopes::{Slopes, scaled_shares_at};
use crate::unit_ratios::UnitRatios;
use gl_records::{GREATEST_SIDE, Prim, TileRect};
use plane_equations::{FixedPlane, Plane, Reciprocal, fixed_quotient_by, narrowed};
use std::marker::Model;

/// A primitive on a tile, by what its corners count there.
#[derive(Drop)]
pub struct Frame<'a> {
    prim: &'a Prim,
    rect: TileRect,
    origin: Shares,
    slopes: Slopes,
}

impl<'a> Model for Frame<'a> {
    ghost use Rattle.std.specs.Prelude.{◌≤◌};
    ghost use Rattle.gl_records.specs.declared.size.TheConstants.{GREATEST_SIDE};
    ghost use Rattle.interpolation.specs.Frames.{IsFrameOf};
    ghost use Rattle.interpolation.specs.TileValues.{IsOnTile, OnTile};

    ghost Value = { OnTile };

    ghost view = { λ f. record { prim = f.prim.now; rect = f.rect } };

    ghost invariant = { λ f. IsOnTile (record { prim = f.prim.now; rect = f.rect }) × IsFrameOf f.prim.now f.rect f.origin f.slopes };
}

impl<'a> Frame<'a> {
    pub fn new(prim: &'a Prim, rect: TileRect, slopes: &Slopes) -> Frame<'a>
        requires in_range { IsInRange prim.now }
        requires column { rect.x0 ≤ GREATEST_SIDE }
        requires band { rect.y0 ≤ GREATEST_SIDE }
        requires slopes { AreSlopes slopes.now prim.now }
        ensures { result ≡ record { prim = prim.now; rect = rect } }
    {
        Frame {
            prim,
            rect,
            origin: scaled_shares_at(prim, i32::from(rect.x0), i32::from(rect.y0)),
            slopes: *slopes,
        }
    }

    /// The sum of a value of the corners, where it is narrow enough.
    fn plane(&self, a: i32, b: i32, c: i32) -> Option<Plane>
        ensures { (value : VertexOut → ℤ) → value (corner self.now.prim 0) ≡ a → value (corner self.now.prim 1) ≡ b → value (corner self.now.prim 2) ≡ c
            → IfSome result (IsSumPlane self.now.prim self.now.rect value) }
    {
        narrowed(
            sum(&self.origin, a, b, c),
            sum(&self.slopes.right, a, b, c),
            sum(&self.slopes.up, a, b, c),
        )
    }

    /// A value of the corners, where its sum is narrow enough.
    fn ratio(&self, divisor: &Option<Divisor>, a: i32, b: i32, c: i32) -> Option<Ratio>
        requires { IfSome divisor.now (IsDivisorOf self.now) }
        ensures { (value : VertexOut → ℤ) → value (corner self.now.prim 0) ≡ a → value (corner self.now.prim 1) ≡ b → value (corner self.now.prim 2) ≡ c
            → IfSome result (IsRatioOf self.now value) }
    {
        if are_same(a, b, c) {
            return Some(Ratio::Flat(a));
        }
        match self.plane(a, b, c) {
            Some(plane) => Some(self.ratio_of(divisor, plane)),
            None => None,
        }
    }

    fn ratio_of(&self, divisor: &Option<Divisor>, plane: Plane) -> Ratio
        requires { IfSome divisor.now (IsDivisorOf self.now) }
        ensures { (value : VertexOut → ℤ) → IsSumPlane self.now.prim self.now.rect value plane → IsRatioOf self.now value result }
    {
        match fixed_by(divisor, &plane) {
            Some(fixed) => Ratio::Fixed(fixed),
            None => Ratio::Divided(plane),
        }
    }

    /// What the sums are divided by, where it is above 0 all over the tile.
    pub fn divisor(&self) -> Option<Divisor>
        ensures { IfSome result (IsDivisorOf self.now) }
    {
        match self.plane(1, 1, 1) {
            Some(plane) => divisor_by(plane),
            None => None,
        }
    }

    /// The colour before texturing.
    pub fn color(&self, divisor: &Option<Divisor>) -> Color
        requires { IfSome divisor.now (IsDivisorOf self.now) }
        ensures { IsColorOf self.now result }
    {
        match flat_color(self.prim) {
            Some(color) => Color::One(color),
            None => self.smooth_color(divisor),
        }
    }

    fn smooth_color(&self, divisor: &Option<Divisor>) -> Color
        requires { IfSome divisor.now (IsDivisorOf self.now) }
        ensures { IsColorOf self.now result }
    {
        match (
            self.channel(divisor, 0),
            self.channel(divisor, 1),
            self.channel(divisor, 2),
            self.channel(divisor, 3),
        ) {
            (Some(red), Some(green), Some(blue), Some(alpha)) => Color::Smooth(Channels {
                red,
                green,
                blue,
                alpha,
            }),
            _ => Color::Plain,
        }
    }

    fn channel(&self, divisor: &Option<Divisor>, k: usize) -> Option<Ratio>
        requires divisor { IfSome divisor.now (IsDivisorOf self.now) }
        requires component { k < 4 }
        ensures { IfSome result (IsChannelOf self.now k) }
    {
        let [a, b, c] = &self.prim.verts;
        self.channel_of(divisor, k, a.rgba[k], b.rgba[k], c.rgba[k])
    }

    fn channel_of(&self, divisor: &Option<Divisor>, _k: usize, a: u8, b: u8, c: u8) -> Option<Ratio>
        requires divisor { IfSome divisor.now (IsDivisorOf self.now) }
        requires first { a ≡ slice_index (corner self.now.prim 0).rgba _k }
        requires second { b ≡ slice_index (corner self.now.prim 1).rgba _k }
        requires third { c ≡ slice_index (corner self.now.prim 2).rgba _k }
        ensures { IfSome result (IsChannelOf self.now _k) }
    {
        self.ratio(divisor, i32::from(a), i32::from(b), i32::from(c))
    }

    /// The fog factor.
    pub fn fog(&self, divisor: &Option<Divisor>) -> Option<Ratio>
        requires { IfSome divisor.now (IsDivisorOf self.now) }
        ensures { IfSome result (IsFogOf self.now) }
    {
        let [a, b, c] = &self.prim.verts;
        self.fog_of(divisor, a.fog, b.fog, c.fog)
    }

    fn fog_of(&self, divisor: &Option<Divisor>, a: i32, b: i32, c: i32) -> Option<Ratio>
        requires divisor { IfSome divisor.now (IsDivisorOf self.now) }
        requires first { a ≡ (corner self.now.prim 0).fog }
        requires second { b ≡ (corner self.now.prim 1).fog }
        requires third { c ≡ (corner self.now.prim 2).fog }
        ensures { IfSome result (IsFogOf self.now) }
    {
        self.ratio(divisor, a, b, c)
    }

    /// The texture coordinates of a unit, where the third is 1 at each corner.
    pub fn unit(&self, divisor: &Option<Divisor>, unit: usize) -> Option<UnitRatios>
        requires divisor { IfSome divisor.now (IsDivisorOf self.now) }
        requires unit { unit < 2 }
        ensures { IfSome result (AreUnitRatiosOf self.now unit) }
    {
        if self.has_unit_thirds(unit) {
            self.ratios_of_unit(divisor, unit)
        } else {
            None
        }
    }

    fn has_unit_thirds(&self, unit: usize) -> bool
        requires { unit < 2 }
        ensures { IsTrue result → AreThirdsOne self.now.prim unit }
    {
        let [a, b, c] = &self.prim.verts;
        a.tex[unit][2] == 65536 && b.tex[unit][2] == 65536 && c.tex[unit][2] == 65536
    }

    fn ratios_of_unit(&self, divisor: &Option<Divisor>, unit: usize) -> Option<UnitRatios>
        requires divisor { IfSome divisor.now (IsDivisorOf self.now) }
        requires unit { unit < 2 }
        requires thirds { AreThirdsOne self.now.prim unit }
        ensures { IfSome result (AreUnitRatiosOf self.now unit) }
    {
        match (
            self.coordinate(divisor, unit, 0),
            self.coordinate(divisor, unit, 1),
        ) {
            (Some(s), Some(t)) => Some(UnitRatios { s, t }),
            _ => None,
        }
    }

    fn coordinate(&self, divisor: &Option<Divisor>, unit: usize, k: usize) -> Option<Ratio>
        requires divisor { IfSome divisor.now (IsDivisorOf self.now) }
        requires unit { unit < 2 }
        requires k { k < 3 }
        ensures { IfSome result (IsRatioOf self.now (corner_coordinate unit k)) }
    {
        let [a, b, c] = &self.prim.verts;
        self.coordinate_of(
            divisor,
            unit,
            k,
            a.tex[unit][k],
            b.tex[unit][k],
            c.tex[unit][k],
        )
    }

    fn coordinate_of(
        &self,
        divisor: &Option<Divisor>,
        _unit: usize,
        _k: usize,
        a: i32,
        b: i32,
        c: i32,
    ) -> Option<Ratio>
        requires divisor { IfSome divisor.now (IsDivisorOf self.now) }
        requires first { a ≡ corner_coordinate _unit _k (corner self.now.prim 0) }
        requires second { b ≡ corner_coordinate _unit _k (corner self.now.prim 1) }
        requires third { c ≡ corner_coordinate _unit _k (corner self.now.prim 2) }
        ensures { IfSome result (IsRatioOf self.now (corner_coordinate _unit _k)) }
    {
        self.ratio(divisor, a, b, c)
    }
}

/// The quotient of a plane by what is the same at all places, in fixed point.
fn fixed_by(divisor: &Option<Divisor>, plane: &Plane) -> Option<FixedPlane>
    ensures { (on : OnTile) → IfSome divisor.now (IsDivisorOf on)
        → IfSome result (λ fixed. (i j : ℕ) → i ≤ 16 → j ≤ 16 → fixed_at fixed i j
        ≡ floor_div (plane_at plane.now i j) (unsigned_abs (scaled_total on.prim (x_of on i) (y_of on j)))) }
{
    match divisor {
        Some(
            Divisor {
                steady: Some(by),
                ..
            },
        ) => fixed_quotient_by(plane, by),
        _ => None,
    }
}

fn are_same(a: i32, b: i32, c: i32) -> bool
    ensures { IsTrue result → (a ≡ b) × (a ≡ c) }
{
    a == b && a == c
}

fn divisor_by(plane: Plane) -> Option<Divisor>
    ensures plane { IfSome result (λ divisor. divisor.plane ≡ plane) }
    ensures positive { IfSome result (λ divisor. (i j : ℕ) → i ≤ 16 → j ≤ 16 → pos 0 <ℤ plane_at divisor.plane i j) }
    ensures steady { IfSome result (λ divisor. IfSome divisor.steady (λ by. (i j : ℕ) → by.divisor ≡ plane_at divisor.plane i j)) }
{
    if plane.is_positive() {
        Some(Divisor {
            plane,
            steady: steady(&plane),
        })
    } else {
        None
    }
}

/// The reciprocal of a plane that is the same at all places.
fn steady(plane: &Plane) -> Option<Reciprocal>
    requires { (i j : ℕ) → i ≤ 16 → j ≤ 16 → pos 0 <ℤ plane_at plane.now i j }
    ensures { IfSome result (λ by. (i j : ℕ) → by.divisor ≡ plane_at plane.now i j) }
{
    if plane.is_constant() {
        Some(Reciprocal::new(plane.at(0, 0)))
    } else {
        None
    }
}
