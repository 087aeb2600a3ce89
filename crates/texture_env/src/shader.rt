//! The colours of a primitive, tile by tile.
ghost use Rattle.std.specs.Prelude.{◌≡◌, pos, ◌+◌, ◌<◌, ◌≤◌, IsTrue};
ghost use Rattle.std.specs.Option.{option_copied};
ghost use Rattle.gl_records.specs.Coverage.{covers};
ghost use Rattle.gl_records.specs.Shading.{AreReadable};
ghost use Rattle.gl_records.specs.Valid.{IsInRange};
ghost use Rattle.texture_env.specs.Lines.{AreLinesOf, IsLineOf};
ghost use Rattle.texture_env.specs.Rows.{AreCovered, AreCoveredOn, HaveColors};
ghost use Rattle.texture_env.specs.Shaders.{color_of, primitive_on};

use crate::bits::one_bit;
use crate::line::{AskedUnits, Line};
use crate::lines::Lines;
use crate::row_values::RowValues;
use crate::rows::{fogged_row, primary_row};
use crate::tile_unit::{TileUnit, asks_for_next, textured_row, tile_unit};
use gl_records::{FragState, GREATEST_SIDE, ImageSet, Prim, TileRect};
use interpolation::{Asked, PrimitiveValues, TileValues};
use std::marker::Model;
use texel_sampler::run_of;

/// A primitive in a state of fragments with the images of both units, and what these fix for the colours of all of its
/// pixels.
#[derive(Drop)]
pub struct Shader<'a> {
    state: &'a FragState,
    first: Option<&'a ImageSet>,
    second: Option<&'a ImageSet>,
    values: PrimitiveValues<'a>,
}

impl<'a> Model for Shader<'a> {
    ghost use Rattle.std.specs.Option.{option_copied};
    ghost use Rattle.texture_env.specs.Shaders.{IsSubject, Subject};

    ghost Value = { Subject };

    ghost view = { λ s. record { state = s.state.now; first = option_copied s.first; second = option_copied s.second; prim = s.values } };

    ghost invariant = { λ s. IsSubject (record { state = s.state.now; first = option_copied s.first; second = option_copied s.second; prim = s.values }) };
}

impl<'a> Shader<'a> {
    pub fn new(
        state: &'a FragState,
        first: Option<&'a ImageSet>,
        second: Option<&'a ImageSet>,
        prim: &'a Prim,
    ) -> Shader<'a>
        requires in_range { IsInRange prim.now }
        requires images { AreReadable state.now (option_copied first) (option_copied second) }
        ensures { result ≡ record { state = state.now; first = option_copied first.entry; second = option_copied second.entry; prim = prim.now } }
    {
        Shader {
            state,
            first,
            second,
            values: PrimitiveValues::new(prim, asked(state)),
        }
    }

    /// The same on the tile with this lower left pixel, and what the tile fixes.
    pub fn on_tile(&self, rect: TileRect) -> TileShader<'a>
        requires column { rect.x0 ≤ GREATEST_SIDE }
        requires band { rect.y0 ≤ GREATEST_SIDE }
        ensures { result ≡ record { subject = self.now; rect = rect } }
    {
        let state = self.state;
        let values = self.values.on_tile(rect);
        let first_unit = tile_unit(&state.units[0], self.first);
        let second_unit = tile_unit(&state.units[1], self.second);
        TileShader {
            state,
            first: self.first,
            second: self.second,
            asks_for_next: asks_for_next(&first_unit) || asks_for_next(&second_unit),
            asked: AskedUnits {
                first: first_unit.is_some(),
                second: second_unit.is_some(),
            },
            first_unit,
            second_unit,
            values,
        }
    }
}

/// Which values the state makes use of.
fn asked(state: &FragState) -> Asked {
    Asked {
        fog: state.fog.is_some(),
        first: state.units[0].is_some(),
        second: state.units[1].is_some(),
    }
}

/// A primitive's colours on one tile.
#[derive(Drop)]
pub struct TileShader<'a> {
    state: &'a FragState,
    first: Option<&'a ImageSet>,
    second: Option<&'a ImageSet>,
    /// Whether a unit asks for the coordinates at the next pixels too.
    asks_for_next: bool,
    asked: AskedUnits,
    first_unit: Option<TileUnit<'a>>,
    second_unit: Option<TileUnit<'a>>,
    values: TileValues<'a>,
}

impl<'a> Model for TileShader<'a> {
    ghost use Rattle.std.specs.Option.{option_copied};
    ghost use Rattle.gl_records.specs.Shading.{unit_at};
    ghost use Rattle.texture_env.specs.Shaders.{IsSubject, OnTile, Subject};
    ghost use Rattle.texture_env.specs.TextureUnits.{IsUnitOf};

    ghost Value = { OnTile };

    ghost view = { λ t. record {
      subject = record { state = t.state.now; first = option_copied t.first; second = option_copied t.second; prim = t.values.prim };
      rect = t.values.rect;
    } };

    ghost invariant = { λ t. IsSubject (record { state = t.state.now; first = option_copied t.first; second = option_copied t.second; prim = t.values.prim })
        × IsUnitOf t.first_unit (unit_at t.state.now 0) (option_copied t.first) × IsUnitOf t.second_unit (unit_at t.state.now 1) (option_copied t.second) };
}

impl<'a> TileShader<'a> {
    /// The colour at the pixel in this column and row of the tile, which the primitive covers, R G B A: interpolated,
    /// textured and in fog (OpenGL ES 1.1.12, 3.7 and 3.8).
    pub fn color(&self, column: u16, row: u16) -> [u8; 4]
        requires column { column < 16 }
        requires row { row < 16 }
        requires covered { IsTrue (covers self.now.subject.prim (pos (self.now.rect.x0 + column)) (pos (self.now.rect.y0 + row))) }
        ensures { result ≡ color_of self.now.subject (self.now.rect.x0 + column) (self.now.rect.y0 + row) }
    {
        let mut lines = Lines::new();
        lines.forget();
        let mut colors = [[0; 4]; 16];
        self.colors(one_bit(column), row, &mut lines, &mut colors);
        colors[usize::from(column)]
    }

    /// The same at the pixels of a row of the tile whose bits are set, all of which the primitive covers. The other
    /// colours are anything. What is found on the way is left in `lines` for the next row.
    #[tactic(auto, unfolding(crate::specs::Lines::AreLinesOf))]
    pub fn colors(&self, bits: u16, row: u16, lines: &mut Lines, colors: &mut [[u8; 4]; 16])
        requires row { row < 16 }
        requires covered { AreCovered self.now bits row }
        requires lines { AreLinesOf (primitive_on self.now) lines.old }
        ensures colors { HaveColors bits (λ i. color_of self.now.subject (self.now.rect.x0 + i) (self.now.rect.y0 + row)) colors.new }
        ensures lines { AreLinesOf (primitive_on self.now) lines.new }
    {
        if row % 2 == 0 {
            self.colors_by(bits, row, &mut lines.even, &mut lines.odd, colors);
        } else {
            self.colors_by(bits, row, &mut lines.odd, &mut lines.even, colors);
        }
    }

    /// The same by the line of the row and that of the next.
    fn colors_by(
        &self,
        bits: u16,
        row: u16,
        here: &mut Line,
        above: &mut Line,
        colors: &mut [[u8; 4]; 16],
    )
        requires row { row < 16 }
        requires covered { AreCovered self.now bits row }
        requires here { IsLineOf (primitive_on self.now) here.old }
        requires above { IsLineOf (primitive_on self.now) above.old }
        ensures colors { HaveColors bits (λ i. color_of self.now.subject (self.now.rect.x0 + i) (self.now.rect.y0 + row)) colors.new }
        ensures here { IsLineOf (primitive_on self.now) here.new }
        ensures above { IsLineOf (primitive_on self.now) above.new }
    {
        self.find(bits, row, here, above);
        let at = RowValues::new(&self.values, here, above, row);
        self.color_row(&at, bits, colors);
    }

    /// Finds the pixels of a row whose bits are set, and the next ones where a unit asks for them.
    fn find(&self, bits: u16, row: u16, here: &mut Line, above: &mut Line)
        requires row { row < 16 }
        requires here { IsLineOf (primitive_on self.now) here.old }
        requires above { IsLineOf (primitive_on self.now) above.old }
        ensures here { IsLineOf (primitive_on self.now) here.new }
        ensures above { IsLineOf (primitive_on self.now) above.new }
    {
        let (first, end) = run_of(bits);
        if self.asks_for_next {
            here.find(&self.values, self.asked, row, first, end + 1);
            above.find(&self.values, self.asked, row + 1, first, end + 1);
        } else {
            here.find(&self.values, self.asked, row, first, end);
        }
    }

    fn color_row(&self, at: &RowValues<'_>, bits: u16, colors: &mut [[u8; 4]; 16])
        requires at { at.now.on ≡ primitive_on self.now }
        requires covered { AreCoveredOn at.now bits }
        ensures { HaveColors bits (λ i. color_of self.now.subject (self.now.rect.x0 + i) (self.now.rect.y0 + at.now.row)) colors.new }
    {
        primary_row(at, bits, colors);
        let primary = *colors;
        textured_row(&self.first_unit, at, 0, bits, &primary, colors);
        textured_row(&self.second_unit, at, 1, bits, &primary, colors);
        let state = self.state;
        fogged_row(at, state.fog, bits, colors);
    }
}
