//! NEAREST: the texel in which the coordinates lie.
ghost use Rattle.std.specs.Prelude.{◌≡◌, pos, ◌≤◌, ◌<◌, ◌^◌, ◌*◌, ◌*ℤ◌, ◌+◌, false, slice_index, unsigned_abs};
ghost use Rattle.fx_arith.specs.Number.{floor_div};
ghost use Rattle.gl_records.specs.Complete.{is_empty_level};
ghost use Rattle.gl_records.specs.Texel.{nearest_place as nearest_along, nearest_texel as nearest_of, texel_about as texel_around, texel_at as texel_of_level};
ghost use Rattle.texel_sampler.specs.Wraps.{wrapping};

use crate::wrapping::Wrapping;
use fx_arith::Fx;
use gl_records::Level;

#[inline(always)]
pub fn nearest_texel<S: Wrapping, T: Wrapping>(level: &Level, s: Fx, t: Fx) -> [u8; 4]
    requires { is_empty_level level.now ≡ false }
    ensures { result ≡ nearest_of (wrapping S.wrap T.wrap) level.now s.0 t.0 }
{
    texel_about::<S, T>(level, nearest_place(s, level.w), nearest_place(t, level.h))
}

/// The place along a side of `side` texels in which the coordinate lies.
fn nearest_place(coordinate: Fx, side: u16) -> i64
    ensures { result ≡ nearest_along coordinate.0 side }
{
    along(i64::from(coordinate.0), side)
}

/// The place along a side of `side` units for a coordinate in 1/65536 side, rounded down.
pub fn along(coordinate: i64, side: u16) -> i64
    requires { unsigned_abs coordinate ≤ 2 ^ 39 }
    ensures value { result ≡ floor_div (coordinate *ℤ pos side) 65536 }
    ensures bound { unsigned_abs result ≤ 2 ^ 55 }
{
    (coordinate * i64::from(side)) >> 16
}

/// The texel at a place, which may lie outside of the level, R G B A.
#[inline(always)]
fn texel_about<S: Wrapping, T: Wrapping>(level: &Level, i: i64, j: i64) -> [u8; 4]
    requires { is_empty_level level.now ≡ false }
    ensures { result ≡ texel_around (wrapping S.wrap T.wrap) level.now i j }
{
    texel_at(level, S::place(level.w, i), T::place(level.h, j))
}

/// The texel in a column and a row, R G B A.
fn texel_at(level: &Level, column: u16, row: u16) -> [u8; 4]
    requires texels { is_empty_level level.now ≡ false }
    requires column { column < level.now.w }
    requires row { row < level.now.h }
    ensures { result ≡ texel_of_level level.now column row }
{
    texel_in(level, column, row).to_le_bytes()
}

/// The texel in a column and a row as a word, R lowest.
pub fn texel_in(level: &Level, column: u16, row: u16) -> u32
    requires texels { is_empty_level level.now ≡ false }
    requires column { column < level.now.w }
    requires row { row < level.now.h }
    ensures { result ≡ slice_index level.now.texels (row * level.now.w + column) }
{
    let texels = level.texels.as_slice();
    texels[usize::from(row) * usize::from(level.w) + usize::from(column)]
}
