//! The coordinates of a unit along a row of a tile, and how far they are from those of the next pixels.
ghost use Rattle.std.specs.Prelude.{◌≡◌, ℕ, ◌<◌, slice_index, true};
ghost use Rattle.std.specs.Int.{bit_at};
ghost use Rattle.fx_arith.specs.Number.{component};
ghost use Rattle.gl_records.specs.LevelOfDetail.{rho as rho_of};
ghost use Rattle.gl_records.specs.TextureCoordinate.{s_at, t_at};
ghost use Rattle.interpolation.specs.Coordinates.{AreCoordinates};
ghost use Rattle.interpolation.specs.TileValues.{x_of, y_of};

use crate::row_values::RowValues;
use fx_arith::Fx;
use interpolation::Coordinates;
use texel_sampler::is_set;

/// The coordinates of unit `k` at the pixels whose bits are set.
pub fn coordinate_row(at: &RowValues<'_>, k: usize, bits: u16, s: &mut [Fx; 16], t: &mut [Fx; 16])
    requires { k < 2 }
    ensures s { (i : ℕ) → i < 16 → bit_at bits i ≡ 1 → component s.new i ≡ s_at at.now.on.prim k (x_of at.now.on i) (y_of at.now.on at.now.row) }
    ensures t { (i : ℕ) → i < 16 → bit_at bits i ≡ 1 → component t.new i ≡ t_at at.now.on.prim k (x_of at.now.on i) (y_of at.now.on at.now.row) }
{
    if at.known_coordinates(k, bits, s, t) {
        return;
    }
    for i in 0..16 {
        let set = is_set(bits, i);
        let found = coordinates_where(set, at, k, i as u16);
        s[i] = found.s;
        t[i] = found.t;
    }
}

#[inline(always)]
fn coordinates_where(set: bool, at: &RowValues<'_>, k: usize, column: u16) -> Coordinates
    requires unit { k < 2 }
    requires column { column < 16 }
    ensures { set ≡ true → AreCoordinates result at.now.on.prim k (x_of at.now.on column) (y_of at.now.on at.now.row) }
{
    if set {
        at.coordinates(k, column)
    } else {
        Coordinates {
            s: Fx(0),
            t: Fx(0),
            known: false,
        }
    }
}

/// Each rho of unit `k` at the pixels whose bits are set, in 1/65536 texel of a level 0 of `w` by `h` texels.
pub fn rho_row(at: &RowValues<'_>, k: usize, w: u16, h: u16, bits: u16, rhos: &mut [u64; 16])
    requires { k < 2 }
    ensures { (i : ℕ) → i < 16 → bit_at bits i ≡ 1
        → slice_index rhos.new i ≡ rho_of at.now.on.prim k w h (x_of at.now.on i) (y_of at.now.on at.now.row) }
{
    if at.known_rhos(k, w, h, bits, rhos) {
        return;
    }
    for i in 0..16 {
        let set = is_set(bits, i);
        rhos[i] = rho_where(set, at, k, w, h, i as u16);
    }
}

#[inline(always)]
fn rho_where(set: bool, at: &RowValues<'_>, k: usize, w: u16, h: u16, column: u16) -> u64
    requires unit { k < 2 }
    requires column { column < 16 }
    ensures { set ≡ true → result ≡ rho_of at.now.on.prim k w h (x_of at.now.on column) (y_of at.now.on at.now.row) }
{
    if set { at.rho(k, w, h, column) } else { 0 }
}
