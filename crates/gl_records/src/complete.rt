//! Which levels an image has, and whether it is complete (OpenGL ES 1.1.12, 3.7, "Texture Completeness").
ghost use Rattle.std.specs.Prelude.{◌≡◌, ◌<◌, ◌≤◌, ◌^◌};
ghost use Rattle.gl_records.specs.Complete.{continues as continues_first, halved as halved_side, has_chain as has_whole_chain, is_complete as is_complete_for, is_continued as is_continued_at, is_empty as has_no_texels, is_empty_level, is_mipmap as is_mipmap_filter, last_level as last_of_image, last_of as last_from, level_at};

use crate::level::{ImageSet, Level};
use crate::logarithm::top_bit;
use crate::sampler::Sampler;
use gl_tokens::Filter;

/// Whether the level holds no texels: it was never given, a side of it is 0, or its texels aren't as many as its
/// sides say.
pub fn is_empty(level: &Option<Level>) -> bool
    ensures { result ≡ has_no_texels level.now }
{
    match level {
        Some(level) => lacks_texels(level),
        None => true,
    }
}

fn lacks_texels(level: &Level) -> bool
    ensures { result ≡ is_empty_level level.now }
{
    let texels = level.texels.as_slice();
    level.w == 0 || level.h == 0 || texels.len() != usize::from(level.w) * usize::from(level.h)
}

/// The number of the image's last level, of 1 by 1 texels, by the sides of level 0; 0 where there is no level 0.
#[tactic(auto, unfolding(crate::specs::Complete::last_level))]
pub fn last_level(set: &ImageSet) -> u8
    ensures value { result ≡ last_of_image set.now }
    ensures bound { result < 16 }
{
    match &set.levels[0] {
        Some(first) => last_of(first),
        None => 0,
    }
}

fn last_of(first: &Level) -> u8
    ensures value { result ≡ last_from first.now }
    ensures bound { result < 16 }
{
    top_bit(u64::from(first.w.max(first.h))) as u8
}

/// Whether the image is complete for the filters of the sampler: level 0 has texels, the filter that magnifies reads
/// one level, and where the one that minifies reads several, all levels to 1 by 1 have texels, halved sides and the
/// format of level 0.
#[tactic(auto, unfolding(crate::specs::Complete::is_complete))]
pub fn is_complete(set: &ImageSet, sampler: Sampler) -> bool
    ensures { result ≡ is_complete_for set.now sampler }
{
    match &set.levels[0] {
        Some(first) => {
            !lacks_texels(first)
                && !is_mipmap(sampler.mag)
                && (!is_mipmap(sampler.min) || has_chain(set, first))
        }
        None => false,
    }
}

fn is_mipmap(filter: Filter) -> bool
    ensures { result ≡ is_mipmap_filter filter }
{
    !matches!(filter, Filter::Nearest | Filter::Linear)
}

/// Whether levels 1 to the last continue level 0, which is `first`.
fn has_chain(set: &ImageSet, first: &Level) -> bool
    ensures { result ≡ has_whole_chain set.now first.now }
{
    for k in 0..last_of(first) {
        if !has_level(set, first, k + 1) {
            return false;
        }
    }
    true
}

fn has_level(set: &ImageSet, first: &Level, k: u8) -> bool
    requires { k < 16 }
    ensures { result ≡ is_continued_at first.now k (level_at set.now k) }
{
    match set.levels.get(usize::from(k)) {
        Some(Some(level)) => continues(first, k, level),
        _ => false,
    }
}

fn continues(first: &Level, k: u8, level: &Level) -> bool
    requires { k < 16 }
    ensures { result ≡ continues_first first.now k level.now }
{
    !lacks_texels(level)
        && level.w == halved(first.w, k)
        && level.h == halved(first.h, k)
        && level.format.code() == first.format.code()
}

/// A side of level `k`, where the same side of level 0 is `side`.
fn halved(side: u16, k: u8) -> u16
    requires { k < 16 }
    ensures { result ≡ halved_side side k }
{
    (side >> k).max(1)
}
