//! The levels that GENERATE_MIPMAP makes of level 0.
ghost use Rattle.std.specs.Prelude.{◌≡◌, ◌+◌, ◌-◌, ◌<◌, ◌≤◌, ◌^◌, IfOk, None, Some, replicate, slice_index_or, slice_set};
ghost use Rattle.gl_records.specs.Complete.{halved as halved_side, level_at};
ghost use Rattle.gl_records.specs.ImageBytes.{image_bytes};
ghost use Rattle.image_levels.specs.Mipmaps.{AreFor, HasSource, blank_level, blank_levels, bytes_behind, bytes_of_level, bytes_remade, bytes_then, last_number, mipmap_bytes, remade, remade_from, smaller_of};

use crate::smaller::{halved, put_smaller_level};
use gl_records::{ImageSet, Level, Texels, top_bit};
use gl_tokens::BaseFormat;
use std::alloc::{AllocError, Global};

/// The number of the last level, of 1 by 1 texels, of an image whose level 0 is `w` by `h`.
fn last_number(w: u16, h: u16) -> u8
    ensures value { result ≡ last_number w h }
    ensures most { result < 16 }
{
    top_bit(u64::from(w.max(h))) as u8
}

/// Level `k` without contents.
fn blank_level(
    alloc: Global,
    w: u16,
    h: u16,
    format: BaseFormat,
    k: u8,
) -> Result<Level, AllocError>
    requires { k < 16 }
    ensures { IfOk result (λ level. level ≡ blank_level format (halved_side w k) (halved_side h k)) }
{
    let (w, h) = (halved(w, k), halved(h, k));
    let texels = vec![in alloc; 0; usize::from(w) * usize::from(h)]?;
    Ok(Level {
        w,
        h,
        format,
        texels: Texels::new(texels),
    })
}

/// Levels 1 to the last, of 1 by 1 texels, of an image whose level 0 is `w` by `h`. They have no contents yet:
/// `remake` gives them theirs, and takes no memory.
pub fn blank_levels(
    alloc: Global,
    w: u16,
    h: u16,
    format: BaseFormat,
) -> Result<Vec<Level>, AllocError>
    ensures { IfOk result (λ all. all.items ≡ blank_levels w h format) }
{
    let last = last_number(w, h);
    let mut all = Vec::with_capacity(alloc, usize::from(last))?;
    for before in 0..last {
        all.push(blank_level(alloc, w, h, format, before + 1)?)?;
    }
    Ok(all)
}

/// The bytes that level `k` counts.
fn bytes_of_level(w: u16, h: u16, k: u8) -> u64
    requires { k < 16 }
    ensures value { result ≡ bytes_of_level w h k }
    ensures most { result < 2 ^ 34 }
{
    4 * u64::from(halved(w, k)) * u64::from(halved(h, k))
}

/// The bytes that these levels count for limits: 4 for each texel.
pub fn mipmap_bytes(w: u16, h: u16) -> u64
    ensures { result ≡ mipmap_bytes w h }
{
    let mut bytes = 0;
    for before in 0..last_number(w, h) {
        bytes += bytes_of_level(w, h, before + 1);
    }
    bytes
}

/// The bytes that level `k` counts once the levels behind level 0 are made.
fn bytes_then(set: &ImageSet, w: u16, h: u16, k: u8) -> u128
    requires { k < 11 }
    ensures value { result ≡ bytes_then set.now.levels w h k }
    ensures most { result < 2 ^ 66 }
{
    if 1 <= k && k <= last_number(w, h) {
        return u128::from(bytes_of_level(w, h, k));
    }
    match set.levels.get(usize::from(k)) {
        Some(Some(level)) => 4 * level.texels.as_slice().len() as u128,
        _ => 0,
    }
}

/// The bytes that the levels behind level 0 count for limits once they are made, where level 0 is `w` by `h`: those
/// that are made, and those behind them that stay.
pub fn bytes_behind(set: &ImageSet, w: u16, h: u16) -> u128
    ensures value { result ≡ bytes_behind set.now w h }
    ensures most { result < 2 ^ 70 }
{
    let mut bytes = 0;
    for before in 0..10 {
        bytes += bytes_then(set, w, h, before + 1);
    }
    bytes
}

/// Makes the level behind level `before`, in the places of one that has its sides and its format.
fn make_level(levels: &mut [Option<Level>; 11], before: usize, blank: Level)
    requires inside { before < 10 }
    requires source { HasSource (slice_index_or levels.old before None) blank }
    ensures { levels.new ≡ slice_set levels.old (before + 1) (smaller_of (slice_index_or levels.old before None)) }
{
    let mut made = blank;
    match &levels[before] {
        Some(source) => put_smaller_level(source, &mut made),
        None => unreachable!(),
    }
    levels[before + 1] = Some(made);
}

/// Makes the levels behind level 0.
fn remake_levels(levels: &mut [Option<Level>; 11], blanks: Vec<Level>)
    requires { AreFor (slice_index_or levels.old 0 None) blanks.items }
    ensures { levels.new ≡ remade_from (slice_index_or levels.old 0 None) levels.old }
{
    let mut before = 0;
    for blank in blanks {
        make_level(levels, before, blank);
        before += 1;
    }
}

/// Puts the levels behind level 0, to the one of 1 by 1 texels, into an image, each made of the one before it; levels
/// behind that one stay (OpenGL ES 1.1.12, 3.7.7). They come from `blank_levels` by the sides and the format of level
/// 0, which has texels. No memory is taken.
pub fn remake(set: &mut ImageSet, blanks: Vec<Level>)
    requires { AreFor (level_at set.old 0) blanks.items }
    ensures value { set.new ≡ remade set.old }
    ensures bytes { image_bytes set.new ≡ bytes_remade (level_at set.old 0) set.old }
{
    remake_levels(&mut set.levels, blanks)
}
