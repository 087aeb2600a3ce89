//! LINEAR: the four texels about the coordinates, each by how near it is.
ghost use Rattle.std.specs.Prelude.{◌≡◌, ◌≤◌, ◌^◌, false, unsigned_abs};
ghost use Rattle.gl_records.specs.Complete.{is_empty_level};
ghost use Rattle.gl_records.specs.Texel.{fraction as fraction_of, linear_about as linear_around, linear_place as linear_along, linear_texel as linear_of, lower as lower_of};
ghost use Rattle.texel_sampler.specs.Wraps.{wrapping};

use crate::lanes::weighted;
use crate::nearest::{along, texel_in};
use crate::wrapping::{Wrapping, masked};
use fx_arith::Fx;
use gl_records::Level;

#[inline(always)]
pub fn linear_texel<S: Wrapping, T: Wrapping>(level: &Level, s: Fx, t: Fx) -> [u8; 4]
    requires { is_empty_level level.now ≡ false }
    ensures { result ≡ linear_of (wrapping S.wrap T.wrap) level.now s.0 t.0 }
{
    linear_about::<S, T>(level, linear_place(s, level.w), linear_place(t, level.h))
}

/// The coordinate along a side of `side` texels, in 1/256 texel from the centre of the first.
fn linear_place(coordinate: Fx, side: u16) -> i64
    ensures value { result ≡ linear_along coordinate.0 side }
    ensures bound { unsigned_abs result ≤ 2 ^ 56 }
{
    along(256 * i64::from(coordinate.0), side) - 128
}

/// The colour about a place of the level, in 1/256 texel along both sides.
#[inline(always)]
fn linear_about<S: Wrapping, T: Wrapping>(level: &Level, u: i64, v: i64) -> [u8; 4]
    requires texels { is_empty_level level.now ≡ false }
    requires u { unsigned_abs u ≤ 2 ^ 56 }
    requires v { unsigned_abs v ≤ 2 ^ 56 }
    ensures { result ≡ linear_around (wrapping S.wrap T.wrap) level.now u v }
{
    let (i, j) = (lower(u), lower(v));
    let (left, right) = S::pair(level.w, i);
    let (under, over) = T::pair(level.h, j);
    weighted(
        fraction(u),
        fraction(v),
        texel_in(level, left, under),
        texel_in(level, right, under),
        texel_in(level, left, over),
        texel_in(level, right, over),
    )
}

/// The lower of the two texels about a place.
fn lower(place: i64) -> i64
    requires { unsigned_abs place ≤ 2 ^ 56 }
    ensures value { result ≡ lower_of place }
    ensures bound { unsigned_abs result ≤ 2 ^ 56 }
{
    place >> 8
}

/// How much the higher of the two texels about a place counts, in 1/256.
fn fraction(place: i64) -> u8
    ensures { result ≡ fraction_of place }
{
    masked(256, place) as u8
}
