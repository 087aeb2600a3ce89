//! What one level gives.
ghost use Rattle.std.specs.Prelude.{◌≡◌, false};
ghost use Rattle.gl_records.specs.Complete.{is_empty, is_empty_level, level_at};
ghost use Rattle.gl_records.specs.Sampling.{level_color as color_of_level};
ghost use Rattle.gl_records.specs.Texel.{level_texel as texel_of_level};
ghost use Rattle.texel_sampler.specs.Wraps.{wrapping};

use crate::filtering::Filtering;
use crate::linear::linear_texel;
use crate::nearest::nearest_texel;
use crate::wrapping::Wrapping;
use fx_arith::Fx;
use gl_records::{ImageSet, Level};

/// The colour of level `k` at S and T, R G B A.
#[inline(always)]
pub fn level_color<F: Filtering, S: Wrapping, T: Wrapping>(
    set: &ImageSet,
    linear: bool,
    k: usize,
    s: Fx,
    t: Fx,
) -> [u8; 4]
    requires texels { is_empty (level_at set.now k) ≡ false }
    requires filter { F.of linear }
    ensures { result ≡ color_of_level linear (wrapping S.wrap T.wrap) (level_at set.now k) s.0 t.0 }
{
    match set.levels.get(k) {
        Some(Some(level)) => level_texel::<F, S, T>(level, linear, s, t),
        _ => [0; 4],
    }
}

/// The same of a level that is there.
#[inline(always)]
#[tactic(auto, unfolding(gl_records::specs::Texel::level_texel))]
pub fn level_texel<F: Filtering, S: Wrapping, T: Wrapping>(
    level: &Level,
    linear: bool,
    s: Fx,
    t: Fx,
) -> [u8; 4]
    requires texels { is_empty_level level.now ≡ false }
    requires filter { F.of linear }
    ensures { result ≡ texel_of_level linear (wrapping S.wrap T.wrap) level.now s.0 t.0 }
{
    if F::is_linear(linear) {
        linear_texel::<S, T>(level, s, t)
    } else {
        nearest_texel::<S, T>(level, s, t)
    }
}
