//! The values of a primitive, tile by tile.
ghost use Rattle.std.specs.Int.{bit_at};
ghost use Rattle.std.specs.Prelude.{◌≡◌, [], get_or, ℕ, ℤ, pos, ◌+◌, ◌<◌, ◌≤◌, ◌≤ℤ◌, ◌<ℤ◌, IfSome, IsTrue, true, unsigned_abs};
ghost use Rattle.plane_equations.specs.Planes.{plane_at};
ghost use Rattle.gl_records.specs.declared.prim.VertexOut.{VertexOut};
ghost use Rattle.gl_records.specs.Coverage.{covers};
ghost use Rattle.gl_records.specs.FogColor.{fog_byte as fog_byte_of};
ghost use Rattle.gl_records.specs.Interpolation.{component as component_of, interpolated_color as color_of_corners};
ghost use Rattle.gl_records.specs.Valid.{IsInRange};
ghost use Rattle.interpolation.specs.Coordinates.{AreCoordinates};
ghost use Rattle.interpolation.specs.Factors.{scaled_total};
ghost use Rattle.interpolation.specs.Rows.{AreRowCoordinates, AreRowValues, AreSpotsOf};
ghost use Rattle.interpolation.specs.Shares.{AreShares};
ghost use Rattle.interpolation.specs.TileValues.{AreChannelsOf, AreUnitRatiosOf, IsChannelOf, IsDivisorOf, IsFogOf, IsRatioOf, IsSpotOf, OnTile, value_at, x_of, y_of};

use crate::channels::{Channels, Color};
use crate::color::interpolated_color;
use crate::color_rows::{ChannelRows, joined_row};
use crate::coordinate_rows::{divided_row, fixed_row, flat_row};
use crate::coordinates::Coordinates;
use crate::divisor::Divisor;
use crate::fog::fog_byte as shared_fog_byte;
use crate::frame::Frame;
use crate::ratio::Ratio;
use crate::shares::Shares;
use crate::sharing::shares_at;
use crate::slopes::{Slopes, slopes_of};
use crate::spot::Spot;
use crate::texture_coordinates::coordinates_at;
use crate::unit_ratios::UnitRatios;
use fx_arith::{Fx, c8, saturate};
use gl_records::{GREATEST_SIDE, Prim, TileRect};
use plane_equations::Reciprocal;
use std::marker::Model;

/// Which values of a primitive are asked for beside its colour.
#[derive(Clone, Copy)]
pub struct Asked {
    pub fog: bool,
    /// The texture coordinates of each unit.
    pub first: bool,
    pub second: bool,
}

/// A primitive, with what it fixes for its values at all pixels.
#[derive(Drop)]
pub struct PrimitiveValues<'a> {
    prim: &'a Prim,
    asked: Asked,
    slopes: Slopes,
}

impl<'a> Model for PrimitiveValues<'a> {
    ghost use Rattle.gl_records.specs.declared.prim.Primitive.{Primitive};
    ghost use Rattle.gl_records.specs.Valid.{IsInRange};
    ghost use Rattle.interpolation.specs.Frames.{AreSlopes};

    ghost Value = { Primitive };

    ghost view = { λ v. v.prim.now };

    ghost invariant = { λ v. IsInRange v.prim.now × AreSlopes v.slopes v.prim.now };
}

impl<'a> PrimitiveValues<'a> {
    /// The primitive. What isn't asked for here is found all the same, but not as fast.
    pub fn new(prim: &'a Prim, asked: Asked) -> PrimitiveValues<'a>
        requires { IsInRange prim.now }
        ensures { result ≡ prim.now }
    {
        PrimitiveValues {
            prim,
            asked,
            slopes: slopes_of(prim),
        }
    }

    /// The same on the tile with this lower left pixel, and what the tile fixes.
    pub fn on_tile(&self, rect: TileRect) -> TileValues<'a>
        requires column { rect.x0 ≤ GREATEST_SIDE }
        requires band { rect.y0 ≤ GREATEST_SIDE }
        ensures { result ≡ record { prim = self.now; rect = rect } }
    {
        let frame = Frame::new(self.prim, rect, &self.slopes);
        let divisor = frame.divisor();
        TileValues {
            prim: self.prim,
            rect,
            color: frame.color(&divisor),
            fog: asked_fog(&frame, &divisor, self.asked.fog),
            first: asked_unit(&frame, &divisor, self.asked.first, 0),
            second: asked_unit(&frame, &divisor, self.asked.second, 1),
            divisor,
        }
    }
}

/// A primitive's values on one tile.
#[derive(Drop)]
pub struct TileValues<'a> {
    prim: &'a Prim,
    rect: TileRect,
    divisor: Option<Divisor>,
    color: Color,
    fog: Option<Ratio>,
    first: Option<UnitRatios>,
    second: Option<UnitRatios>,
}

impl<'a> Model for TileValues<'a> {
    ghost use Rattle.interpolation.specs.TileValues.{AreValuesOf, OnTile};

    ghost Value = { OnTile };

    ghost view = { λ v. record { prim = v.prim.now; rect = v.rect } };

    ghost invariant = { λ v. AreValuesOf (record { prim = v.prim.now; rect = v.rect }) v.divisor v.color v.fog v.first v.second };
}

impl<'a> TileValues<'a> {
    /// The primitive.
    pub fn prim(&self) -> &Prim
        ensures { result.now ≡ self.now.prim }
    {
        self.prim
    }

    /// The pixel in this column and row of the tile, or of the column and row beyond.
    pub fn spot(&self, column: u16, row: u16) -> Spot
        requires column { column ≤ 16 }
        requires row { row ≤ 16 }
        ensures column { result.column ≡ column }
        ensures row { result.row ≡ row }
        ensures spot { IsSpotOf self.now result }
    {
        match &self.divisor {
            Some(divisor) => Spot {
                column,
                row,
                by: Some(reciprocal(divisor, column, row)),
            },
            None => Spot {
                column,
                row,
                by: None,
            },
        }
    }

    /// The colour before texturing at a pixel that the primitive covers, R G B A (OpenGL 1.5, 3.5.1).
    pub fn color(&self, spot: &Spot) -> [u8; 4]
        requires spot { IsSpotOf self.now spot.now }
        requires covered { IsTrue (covers self.now.prim (x_of self.now spot.now.column) (y_of self.now spot.now.row)) }
        ensures { result ≡ color_of_corners self.now.prim (x_of self.now spot.now.column) (y_of self.now spot.now.row) }
    {
        match (&self.color, &spot.by) {
            (Color::One(color), _) => *color,
            (Color::Smooth(channels), Some(by)) => self.color_by(channels, by, spot),
            _ => self.plain_color(spot),
        }
    }

    fn color_by(&self, channels: &Channels, by: &Reciprocal, spot: &Spot) -> [u8; 4]
        requires spot { IsSpotOf self.now spot.now }
        requires channels { AreChannelsOf self.now channels.now }
        requires by { by.now.divisor ≡ scaled_total self.now.prim (x_of self.now spot.now.column) (y_of self.now spot.now.row) }
        requires covered { IsTrue (covers self.now.prim (x_of self.now spot.now.column) (y_of self.now spot.now.row)) }
        ensures { result ≡ color_of_corners self.now.prim (x_of self.now spot.now.column) (y_of self.now spot.now.row) }
    {
        [
            self.component(0, &channels.red, by, spot),
            self.component(1, &channels.green, by, spot),
            self.component(2, &channels.blue, by, spot),
            self.component(3, &channels.alpha, by, spot),
        ]
    }

    /// A prepared value at a pixel, rounded down.
    fn quotient(&self, ratio: &Ratio, by: &Reciprocal, spot: &Spot) -> i64
        requires column { spot.now.column ≤ 16 }
        requires row { spot.now.row ≤ 16 }
        requires by { by.now.divisor ≡ scaled_total self.now.prim (x_of self.now spot.now.column) (y_of self.now spot.now.row) }
        ensures { (value : VertexOut → ℤ) → IsRatioOf self.now value ratio.now → result ≡ value_at self.now value spot.now.column spot.now.row }
    {
        match ratio {
            Ratio::Flat(value) => i64::from(*value),
            Ratio::Fixed(fixed) => fixed.at(spot.column, spot.row),
            Ratio::Divided(plane) => by.floor_quotient(plane.at(spot.column, spot.row)),
        }
    }

    fn component(&self, _k: usize, ratio: &Ratio, by: &Reciprocal, spot: &Spot) -> u8
        requires spot { IsSpotOf self.now spot.now }
        requires channel { IsChannelOf self.now _k ratio.now }
        requires by { by.now.divisor ≡ scaled_total self.now.prim (x_of self.now spot.now.column) (y_of self.now spot.now.row) }
        requires covered { IsTrue (covers self.now.prim (x_of self.now spot.now.column) (y_of self.now spot.now.row)) }
        ensures { result ≡ component_of self.now.prim _k (x_of self.now spot.now.column) (y_of self.now spot.now.row) }
    {
        let _ = &self.prim;
        byte(self.quotient(ratio, by, spot))
    }

    pub(crate) fn plain_color(&self, spot: &Spot) -> [u8; 4]
        requires spot { IsSpotOf self.now spot.now }
        requires covered { IsTrue (covers self.now.prim (x_of self.now spot.now.column) (y_of self.now spot.now.row)) }
        ensures { result ≡ color_of_corners self.now.prim (x_of self.now spot.now.column) (y_of self.now spot.now.row) }
    {
        let shares = self.shares(spot);
        interpolated_color(self.prim, &shares)
    }

    pub(crate) fn shares(&self, spot: &Spot) -> Shares
        requires spot { IsSpotOf self.now spot.now }
        ensures { AreShares result self.now.prim (x_of self.now spot.now.column) (y_of self.now spot.now.row) }
    {
        let x = self.rect.x0 + spot.column;
        let y = self.rect.y0 + spot.row;
        shares_at(self.prim, i32::from(x), i32::from(y))
    }

    /// The fog factor at a pixel that the primitive covers, 0 to 255.
    pub fn fog_byte(&self, spot: &Spot) -> u8
        requires spot { IsSpotOf self.now spot.now }
        requires covered { IsTrue (covers self.now.prim (x_of self.now spot.now.column) (y_of self.now spot.now.row)) }
        ensures { result ≡ fog_byte_of self.now.prim (x_of self.now spot.now.column) (y_of self.now spot.now.row) }
    {
        match (&self.fog, &spot.by) {
            (Some(ratio), Some(by)) => self.fog_byte_by(ratio, by, spot),
            _ => self.plain_fog_byte(spot),
        }
    }

    pub(crate) fn plain_fog_byte(&self, spot: &Spot) -> u8
        requires spot { IsSpotOf self.now spot.now }
        requires covered { IsTrue (covers self.now.prim (x_of self.now spot.now.column) (y_of self.now spot.now.row)) }
        ensures { result ≡ fog_byte_of self.now.prim (x_of self.now spot.now.column) (y_of self.now spot.now.row) }
    {
        let shares = self.shares(spot);
        shared_fog_byte(self.prim, &shares)
    }

    fn fog_byte_by(&self, ratio: &Ratio, by: &Reciprocal, spot: &Spot) -> u8
        requires spot { IsSpotOf self.now spot.now }
        requires fog { IsFogOf self.now ratio.now }
        requires by { by.now.divisor ≡ scaled_total self.now.prim (x_of self.now spot.now.column) (y_of self.now spot.now.row) }
        ensures { result ≡ fog_byte_of self.now.prim (x_of self.now spot.now.column) (y_of self.now spot.now.row) }
    {
        let _ = &self.prim;
        c8(saturate(self.quotient(ratio, by, spot)))
    }

    /// The texture coordinates of a unit (OpenGL ES 1.1.12, 3.7).
    #[inline(always)]
    pub fn coordinates(&self, unit: usize, spot: &Spot) -> Coordinates
        requires unit { unit < 2 }
        requires spot { IsSpotOf self.now spot.now }
        ensures { AreCoordinates result self.now.prim unit (x_of self.now spot.now.column) (y_of self.now spot.now.row) }
    {
        match (self.ratios_of(unit), &spot.by) {
            (Some(ratios), Some(by)) => self.coordinates_by(unit, ratios, by, spot),
            _ => coordinates_at(self.prim, unit, &self.shares(spot)),
        }
    }

    fn coordinates_by(
        &self,
        _unit: usize,
        ratios: &UnitRatios,
        by: &Reciprocal,
        spot: &Spot,
    ) -> Coordinates
        requires spot { IsSpotOf self.now spot.now }
        requires ratios { AreUnitRatiosOf self.now _unit ratios.now }
        requires by { by.now.divisor ≡ scaled_total self.now.prim (x_of self.now spot.now.column) (y_of self.now spot.now.row) }
        ensures { AreCoordinates result self.now.prim _unit (x_of self.now spot.now.column) (y_of self.now spot.now.row) }
    {
        let _ = &self.prim;
        Coordinates {
            s: saturate(self.quotient(&ratios.s, by, spot)),
            t: saturate(self.quotient(&ratios.t, by, spot)),
            known: true,
        }
    }

    /// The pixels of a row of the tile, or of the one beyond, in the columns from `from` up to but not including `to`.
    pub fn spot_row(&self, row: u16, from: usize, to: usize, spots: &mut [Spot; 17])
        requires row { row ≤ 16 }
        requires to { to ≤ 17 }
        ensures { AreSpotsOf self.now row from to spots.new }
    {
        for i in from..to {
            spots[i] = self.spot(i as u16, row);
        }
    }

    /// The texture coordinates of a unit at these pixels of a row. Where they can't be found by what is prepared the
    /// answer is no.
    pub fn coordinate_row(
        &self,
        unit: usize,
        spots: &[Spot; 17],
        row: u16,
        from: usize,
        to: usize,
        s: &mut [Fx; 17],
        t: &mut [Fx; 17],
    ) -> bool
        requires unit { unit < 2 }
        requires row { row ≤ 16 }
        requires to { to ≤ 17 }
        requires spots { AreSpotsOf self.now row from to spots.now }
        ensures { result ≡ true → AreRowCoordinates self.now unit row from to s.new t.new }
    {
        match (self.ratios_of(unit), &self.divisor) {
            (Some(ratios), Some(_)) => {
                self.ratio_row(&ratios.s, spots, row, from, to, s)
                    && self.ratio_row(&ratios.t, spots, row, from, to, t)
            }
            _ => false,
        }
    }

    /// The colours before texturing at the pixels of a row whose bits are set, all of which the primitive covers and are
    /// among these. Where they can't be found by what is prepared the answer is no.
    pub fn color_row(
        &self,
        spots: &[Spot; 17],
        _bits: u16,
        row: u16,
        from: usize,
        to: usize,
        colors: &mut [[u8; 4]; 16],
    ) -> bool
        requires row { row ≤ 16 }
        requires to { to ≤ 17 }
        requires spots { AreSpotsOf self.now row from to spots.now }
        requires among { (i : ℕ) → i < 16 → bit_at _bits i ≡ 1 → (from ≤ i) × (i < to) }
        requires covered { (i : ℕ) → i < 16 → bit_at _bits i ≡ 1 → IsTrue (covers self.now.prim (x_of self.now i) (y_of self.now row)) }
        ensures { result ≡ true → (i : ℕ) → i < 16 → bit_at _bits i ≡ 1
            → get_or colors.new i [] ≡ color_of_corners self.now.prim (x_of self.now i) (y_of self.now row) }
    {
        match (&self.color, &self.divisor) {
            (Color::Smooth(channels), Some(_)) => {
                self.smooth_row(channels, spots, row, from, to, colors)
            }
            _ => false,
        }
    }

    fn smooth_row(
        &self,
        channels: &Channels,
        spots: &[Spot; 17],
        row: u16,
        from: usize,
        to: usize,
        colors: &mut [[u8; 4]; 16],
    ) -> bool
        requires row { row ≤ 16 }
        requires to { to ≤ 17 }
        requires spots { AreSpotsOf self.now row from to spots.now }
        requires channels { AreChannelsOf self.now channels.now }
        requires positive { (i : ℕ) → i ≤ 16 → pos 0 <ℤ scaled_total self.now.prim (x_of self.now i) (y_of self.now row) }
        ensures { result ≡ true → (i : ℕ) → from ≤ i → i < to → i < 16 → IsTrue (covers self.now.prim (x_of self.now i) (y_of self.now row))
            → get_or colors.new i [] ≡ color_of_corners self.now.prim (x_of self.now i) (y_of self.now row) }
    {
        let _ = &self.prim;
        let mut rows = ChannelRows::new();
        if !self.ratio_row(&channels.red, spots, row, from, to, &mut rows.red) {
            return false;
        }
        if !self.ratio_row(&channels.green, spots, row, from, to, &mut rows.green) {
            return false;
        }
        if !self.ratio_row(&channels.blue, spots, row, from, to, &mut rows.blue) {
            return false;
        }
        if !self.ratio_row(&channels.alpha, spots, row, from, to, &mut rows.alpha) {
            return false;
        }
        joined_row(&rows, colors);
        true
    }

    /// A prepared value at these pixels, as a GLfixed.
    fn ratio_row(
        &self,
        ratio: &Ratio,
        spots: &[Spot; 17],
        row: u16,
        from: usize,
        to: usize,
        values: &mut [Fx; 17],
    ) -> bool
        requires row { row ≤ 16 }
        requires to { to ≤ 17 }
        requires spots { AreSpotsOf self.now row from to spots.now }
        requires positive { (i : ℕ) → i ≤ 16 → pos 0 <ℤ scaled_total self.now.prim (x_of self.now i) (y_of self.now row) }
        ensures { (value : VertexOut → ℤ) → IsRatioOf self.now value ratio.now → result ≡ true → AreRowValues self.now value row from to values.new }
    {
        match ratio {
            Ratio::Flat(value) => {
                flat_row(*value, from, to, values);
                true
            }
            Ratio::Fixed(plane) => {
                fixed_row(*plane, row, from, to, values);
                true
            }
            Ratio::Divided(plane) => divided_row(*plane, spots, row, from, to, values),
        }
    }

    fn ratios_of(&self, unit: usize) -> &Option<UnitRatios>
        requires { unit < 2 }
        ensures { IfSome result.now (AreUnitRatiosOf self.now unit) }
    {
        if unit == 0 { &self.first } else { &self.second }
    }
}

fn asked_fog(frame: &Frame<'_>, divisor: &Option<Divisor>, asked: bool) -> Option<Ratio>
    requires { IfSome divisor.now (IsDivisorOf frame.now) }
    ensures { IfSome result (IsFogOf frame.now) }
{
    if asked { frame.fog(divisor) } else { None }
}

fn asked_unit(
    frame: &Frame<'_>,
    divisor: &Option<Divisor>,
    asked: bool,
    unit: usize,
) -> Option<UnitRatios>
    requires divisor { IfSome divisor.now (IsDivisorOf frame.now) }
    requires unit { unit < 2 }
    ensures { IfSome result (AreUnitRatiosOf frame.now unit) }
{
    if asked {
        frame.unit(divisor, unit)
    } else {
        None
    }
}

/// The reciprocal of the divisor at a pixel.
fn reciprocal(divisor: &Divisor, column: u16, row: u16) -> Reciprocal
    requires column { column ≤ 16 }
    requires row { row ≤ 16 }
    requires positive { (i j : ℕ) → i ≤ 16 → j ≤ 16 → pos 0 <ℤ plane_at divisor.now.plane i j }
    ensures { (on : OnTile) → IsDivisorOf on divisor.now → result.divisor ≡ scaled_total on.prim (x_of on column) (y_of on row) }
{
    match divisor.steady {
        Some(by) => by,
        None => Reciprocal::new(divisor.plane.at(column, row)),
    }
}

fn byte(z: i64) -> u8
    requires from { pos 0 ≤ℤ z }
    requires to { z ≤ℤ pos 255 }
    ensures { result ≡ unsigned_abs z }
{
    z as u8
}
