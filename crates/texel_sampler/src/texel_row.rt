//! The texels of a row of pixels, under wrap modes and a filter that are chosen before.
ghost use Rattle.std.specs.Prelude.{◌≡◌, ℕ, ◌<◌, false, [], get_or};
ghost use Rattle.std.specs.Int.{bit_at};
ghost use Rattle.fx_arith.specs.Number.{component};
ghost use Rattle.gl_records.specs.Complete.{is_empty, is_empty_level, level_at};
ghost use Rattle.gl_records.specs.LevelChoice.{single};
ghost use Rattle.gl_records.specs.Sampling.{HasLevels, filtered};
ghost use Rattle.gl_records.specs.Texel.{level_texel as texel_of_level};
ghost use Rattle.texel_sampler.specs.Choosings.{choice_at};
ghost use Rattle.texel_sampler.specs.Wraps.{wrapping};

use crate::bits::{is_set, run_of};
use crate::filtering::{Filtering, NearestTexel, WeightedTexels};
use crate::level_texel::level_texel;
use crate::sampling::filter_by;
use crate::wrapping::Wrapping;
use fx_arith::Fx;
use gl_records::{ImageSet, Level, LevelChoice};

/// What one level gives at the pixels whose bits are set. The others are as they were.
pub fn level_row<F: Filtering, S: Wrapping, T: Wrapping>(
    level: &Level,
    linear: bool,
    bits: u16,
    s: &[Fx; 16],
    t: &[Fx; 16],
    texels: &mut [[u8; 4]; 16],
)
    requires texels { is_empty_level level.now ≡ false }
    requires filter { F.of linear }
    ensures { (i : ℕ) → i < 16 → bit_at bits i ≡ 1
        → get_or texels.new i [] ≡ texel_of_level linear (wrapping S.wrap T.wrap) level.now (component s.now i) (component t.now i) }
{
    let (first, end) = run_of(bits);
    for i in first..end {
        if is_set(bits, i) {
            texels[i] = level_texel::<F, S, T>(level, linear, s[i], t[i]);
        }
    }
}

/// What level 0 gives at the pixels whose bits are set: four texels weighted, or the nearest. The others are as they were.
pub fn first_row<S: Wrapping, T: Wrapping>(
    set: &ImageSet,
    linear: bool,
    bits: u16,
    s: &[Fx; 16],
    t: &[Fx; 16],
    texels: &mut [[u8; 4]; 16],
)
    requires { is_empty (level_at set.now 0) ≡ false }
    ensures { (i : ℕ) → i < 16 → bit_at bits i ≡ 1
        → get_or texels.new i [] ≡ filtered set.now (wrapping S.wrap T.wrap) (single linear 0) (component s.now i) (component t.now i) }
{
    if let Some(Some(level)) = set.levels.get(0) {
        if linear {
            level_row::<WeightedTexels, S, T>(level, true, bits, s, t, texels)
        } else {
            level_row::<NearestTexel, S, T>(level, false, bits, s, t, texels)
        }
    }
}

/// What the levels of each pixel's own choice give at the pixels whose bits are set. The others are as they were.
pub fn filter_row<F: Filtering, S: Wrapping, T: Wrapping>(
    set: &ImageSet,
    choices: &[LevelChoice; 16],
    bits: u16,
    s: &[Fx; 16],
    t: &[Fx; 16],
    texels: &mut [[u8; 4]; 16],
)
    requires levels { (i : ℕ) → i < 16 → bit_at bits i ≡ 1 → HasLevels set.now (choice_at choices.now i) }
    requires filter { (i : ℕ) → i < 16 → bit_at bits i ≡ 1 → F.of (choice_at choices.now i).linear }
    ensures { (i : ℕ) → i < 16 → bit_at bits i ≡ 1
        → get_or texels.new i [] ≡ filtered set.now (wrapping S.wrap T.wrap) (choice_at choices.now i) (component s.now i) (component t.now i) }
{
    let (first, end) = run_of(bits);
    for i in first..end {
        if is_set(bits, i) {
            texels[i] = filter_by::<F, S, T>(set, choices[i], s[i], t[i]);
        }
    }
}
