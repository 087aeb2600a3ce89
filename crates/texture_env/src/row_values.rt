//! The values of a primitive along a row of a tile.
ghost use Rattle.std.specs.Prelude.{◌≡◌, ℕ, ◌<◌, ◌+◌, IsTrue, slice_index, true};
ghost use Rattle.std.specs.Int.{bit_at};
ghost use Rattle.fx_arith.specs.Number.{component};
ghost use Rattle.gl_records.specs.Coverage.{covers};
ghost use Rattle.gl_records.specs.FogColor.{fog_byte as fog_byte_of};
ghost use Rattle.gl_records.specs.Interpolation.{interpolated_color as color_of_corners};
ghost use Rattle.gl_records.specs.LevelOfDetail.{rho as rho_of};
ghost use Rattle.gl_records.specs.TextureCoordinate.{s_at, t_at};
ghost use Rattle.interpolation.specs.Coordinates.{AreCoordinates};
ghost use Rattle.interpolation.specs.TileValues.{x_of, y_of};
ghost use Rattle.texture_env.specs.Lines.{IsLineOf};
ghost use Rattle.texture_env.specs.Rows.{AreCoveredOn, HaveColors};

use crate::known_rows::{known_coordinate_row, known_move_row};
use crate::line::Line;
use crate::moves::greatest_move;
use fx_arith::Fx;
use gl_records::PrimKind;
use interpolation::{Coordinates, TileValues};
use std::marker::Model;
use texel_sampler::run_of;

/// A row of a tile, with the pixels that were found of it and of the next one.
#[derive(Drop)]
pub struct RowValues<'a> {
    values: &'a TileValues<'a>,
    here: &'a Line,
    above: &'a Line,
    row: u16,
}

impl<'a> Model for RowValues<'a> {
    ghost use Rattle.std.specs.Prelude.{◌<◌};
    ghost use Rattle.texture_env.specs.Lines.{IsLineOf};
    ghost use Rattle.texture_env.specs.Rows.{OnRow};

    ghost Value = { OnRow };

    ghost view = { λ r. record { on = r.values.now; row = r.row } };

    ghost invariant = { λ r. (r.row < 16) × IsLineOf r.values.now r.here.now × IsLineOf r.values.now r.above.now };
}

impl<'a> RowValues<'a> {
    pub fn new(
        values: &'a TileValues<'a>,
        here: &'a Line,
        above: &'a Line,
        row: u16,
    ) -> RowValues<'a>
        requires row { row < 16 }
        requires here { IsLineOf values.now here.now }
        requires above { IsLineOf values.now above.now }
        ensures { result ≡ record { on = values.now; row = row } }
    {
        RowValues {
            values,
            here,
            above,
            row,
        }
    }

    /// The colours before texturing at the pixels whose bits are set, where what is prepared gives them.
    pub fn colors(&self, bits: u16, colors: &mut [[u8; 4]; 16]) -> bool
        requires { AreCoveredOn self.now bits }
        ensures { result ≡ true → HaveColors bits (λ i. color_of_corners self.now.on.prim (x_of self.now.on i) (y_of self.now.on self.now.row)) colors.new }
    {
        let here = self.here;
        here.colors(self.values, bits, self.row, colors)
    }

    /// The colour before texturing at a pixel that the primitive covers.
    #[inline(always)]
    pub fn color(&self, column: u16) -> [u8; 4]
        requires column { column < 16 }
        requires covered { IsTrue (covers self.now.on.prim (x_of self.now.on column) (y_of self.now.on self.now.row)) }
        ensures { result ≡ color_of_corners self.now.on.prim (x_of self.now.on column) (y_of self.now.on self.now.row) }
    {
        let values = self.values;
        let here = self.here;
        values.color(&here.spot(values, column, self.row))
    }

    /// The fog factor at a pixel that the primitive covers, 0 to 255.
    pub fn fog_byte(&self, column: u16) -> u8
        requires column { column < 16 }
        requires covered { IsTrue (covers self.now.on.prim (x_of self.now.on column) (y_of self.now.on self.now.row)) }
        ensures { result ≡ fog_byte_of self.now.on.prim (x_of self.now.on column) (y_of self.now.on self.now.row) }
    {
        let values = self.values;
        let here = self.here;
        values.fog_byte(&here.spot(values, column, self.row))
    }

    /// The coordinates of unit `k`.
    #[inline(always)]
    pub fn coordinates(&self, k: usize, column: u16) -> Coordinates
        requires unit { k < 2 }
        requires column { column < 16 }
        ensures { AreCoordinates result self.now.on.prim k (x_of self.now.on column) (y_of self.now.on self.now.row) }
    {
        let here = self.here;
        here.coordinates(self.values, k, column, self.row)
    }

    /// The coordinates of unit `k` at the pixels whose bits are set, where they are known at all of these.
    pub fn known_coordinates(&self, k: usize, bits: u16, s: &mut [Fx; 16], t: &mut [Fx; 16]) -> bool
        requires { k < 2 }
        ensures s { result ≡ true → (i : ℕ) → i < 16 → bit_at bits i ≡ 1
            → component s.new i ≡ s_at self.now.on.prim k (x_of self.now.on i) (y_of self.now.on self.now.row) }
        ensures t { result ≡ true → (i : ℕ) → i < 16 → bit_at bits i ≡ 1
            → component t.new i ≡ t_at self.now.on.prim k (x_of self.now.on i) (y_of self.now.on self.now.row) }
    {
        let (first, end) = run_of(bits);
        let here = self.here;
        match here.known(k, self.row, first, end) {
            Some(line) => {
                known_coordinate_row(line, s, t);
                true
            }
            None => false,
        }
    }

    /// Each rho of unit `k` at the pixels whose bits are set, in 1/65536 texel of a level 0 of `w` by `h` texels, where
    /// the coordinates are known at all of these and at the next ones.
    pub fn known_rhos(&self, k: usize, w: u16, h: u16, bits: u16, rhos: &mut [u64; 16]) -> bool
        requires { k < 2 }
        ensures { result ≡ true → (i : ℕ) → i < 16 → bit_at bits i ≡ 1
            → slice_index rhos.new i ≡ rho_of self.now.on.prim k w h (x_of self.now.on i) (y_of self.now.on self.now.row) }
    {
        let values = self.values;
        let prim = values.prim();
        if let PrimKind::Point = prim.kind {
            return false;
        }
        let (first, end) = run_of(bits);
        let here = self.here;
        let above = self.above;
        match (
            here.known(k, self.row, first, end + 1),
            above.known(k, self.row + 1, first, end),
        ) {
            (Some(here), Some(above)) => {
                known_move_row(here, above, w, h, rhos);
                true
            }
            _ => false,
        }
    }

    /// Rho of unit `k`, in 1/65536 texel of a level 0 of `w` by `h` texels.
    #[inline(always)]
    pub fn rho(&self, k: usize, w: u16, h: u16, column: u16) -> u64
        requires unit { k < 2 }
        requires column { column < 16 }
        ensures { result ≡ rho_of self.now.on.prim k w h (x_of self.now.on column) (y_of self.now.on self.now.row) }
    {
        let values = self.values;
        let prim = values.prim();
        if let PrimKind::Point = prim.kind {
            return 0;
        }
        let here = self.here;
        let above = self.above;
        greatest_move(
            w,
            h,
            here.coordinates(values, k, column, self.row),
            here.coordinates(values, k, column + 1, self.row),
            above.coordinates(values, k, column, self.row + 1),
        )
    }
}
