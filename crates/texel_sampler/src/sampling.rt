//! The texel of an image at coordinates S and T.
ghost use Rattle.std.specs.Prelude.{◌≡◌, true};
ghost use Rattle.gl_records.specs.Complete.{is_complete};
ghost use Rattle.gl_records.specs.Sampling.{HasLevels, filtered, texel_of};
ghost use Rattle.texel_sampler.specs.Wraps.{wrapping};

use crate::blending::blended;
use crate::choice::choose;
use crate::filtering::{EitherFilter, Filtering};
use crate::level_texel::level_color;
use crate::wrapping::{Clamping, Repeating, Wrapping};
use fx_arith::Fx;
use gl_records::{ImageSet, LevelChoice, Sampler, last_level};
use gl_tokens::Wrap;

/// The texel of a complete image at S and T, R G B A, for a rho in 1/65536 texel of level 0 (OpenGL ES 1.1.12, 3.7,
/// "Texture Minification" and "Texture Magnification"): what [`filter`] takes of the levels that [`choose`] names.
pub fn texel(set: &ImageSet, sampler: Sampler, s: Fx, t: Fx, rho: u64) -> [u8; 4]
    requires { is_complete set.now sampler ≡ true }
    ensures { result ≡ texel_of set.now sampler s.0 t.0 rho }
{
    filter(set, sampler, choose(sampler, last_level(set), rho), s, t)
}

/// What the levels of a choice give at S and T, R G B A: four texels weighted or the nearest of each, and where the
/// choice has two levels, their blend.
pub fn filter(set: &ImageSet, sampler: Sampler, choice: LevelChoice, s: Fx, t: Fx) -> [u8; 4]
    requires { HasLevels set.now choice }
    ensures { result ≡ filtered set.now sampler choice s.0 t.0 }
{
    match (sampler.wrap_s, sampler.wrap_t) {
        (Wrap::Repeat, Wrap::Repeat) => {
            filter_by::<EitherFilter, Repeating, Repeating>(set, choice, s, t)
        }
        (Wrap::Repeat, Wrap::ClampToEdge) => {
            filter_by::<EitherFilter, Repeating, Clamping>(set, choice, s, t)
        }
        (Wrap::ClampToEdge, Wrap::Repeat) => {
            filter_by::<EitherFilter, Clamping, Repeating>(set, choice, s, t)
        }
        (Wrap::ClampToEdge, Wrap::ClampToEdge) => {
            filter_by::<EitherFilter, Clamping, Clamping>(set, choice, s, t)
        }
    }
}

/// The same under wrap modes and a filter that are chosen before.
#[inline(always)]
pub fn filter_by<F: Filtering, S: Wrapping, T: Wrapping>(
    set: &ImageSet,
    choice: LevelChoice,
    s: Fx,
    t: Fx,
) -> [u8; 4]
    requires levels { HasLevels set.now choice }
    requires filter { F.of choice.linear }
    ensures { result ≡ filtered set.now (wrapping S.wrap T.wrap) choice s.0 t.0 }
{
    let level = usize::from(choice.level);
    let first = level_color::<F, S, T>(set, choice.linear, level, s, t);
    if choice.weight == 0 {
        first
    } else {
        blended(
            choice.weight,
            first,
            level_color::<F, S, T>(set, choice.linear, level + 1, s, t),
        )
    }
}
