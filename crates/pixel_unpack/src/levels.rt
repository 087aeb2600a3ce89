//! The levels of an image with a palette.
ghost use Rattle.std.specs.Prelude.{◌≡◌, ℕ, ◌+◌, ◌*◌, ◌<◌, ◌≤◌, ◌^◌, ◌++◌, length, vec_len, All, IfOk, OnOk};
ghost use Rattle.pixel_unpack.specs.Palette.{index_bits, entries, level_texels, level_at, level_side, level_bytes, palette_size, palette_levels};

use crate::palette::{
    entries, entries_bytes, entry_format, index_bits, push_by_bytes, push_by_nibbles,
};
use gl_records::{Level, Texels};
use gl_tokens::PaletteFormat;
use std::alloc::{AllocError, Global};

/// A side of a level with a palette: that of level 0 halved so many times, but never from something to nothing.
pub fn level_side(side: u16, level: u8) -> u16
    ensures { result ≡ level_side side level }
{
    let halved = if level < 16 { side >> level } else { 0 };
    side.min(halved.max(1))
}

/// The bytes that a level takes.
fn level_bytes(format: PaletteFormat, w: u16, h: u16, level: u8) -> usize
    ensures value { result ≡ level_bytes format w h level }
    ensures most { result ≤ 2 ^ 32 }
{
    let count = usize::from(level_side(w, level)) * usize::from(level_side(h, level));
    (usize::from(index_bits(format)) * count + 7) / 8
}

/// The bytes of the palette and of `levels` levels, of which level 0 is `w` by `h`. The indices of a level run on
/// over its rows, and each level begins on a byte (OES_compressed_paletted_texture).
pub fn palette_size(format: PaletteFormat, w: u16, h: u16, levels: u8) -> u64
    ensures { result ≡ palette_size format w h levels }
{
    let mut size = entries_bytes(format);
    for level in 0..levels {
        size += level_bytes(format, w, h, level);
    }
    size as u64
}

/// Appends the entries that `count` indices name, of which the first begins at this byte.
fn push_level(
    format: PaletteFormat,
    palette: &[u32],
    piece: &[u8],
    start: usize,
    count: usize,
    texels: &mut Vec<u32>,
) -> Result<(), AllocError>
    requires all { palette.now ≡ entries format piece.now }
    requires small { start + count < 2 ^ 63 }
    ensures { OnOk result (texels.new.items ≡ texels.old.items ++ level_texels format piece.now start count) }
{
    if index_bits(format) == 4 {
        push_by_nibbles(palette, piece, start, count, texels)
    } else {
        push_by_bytes(palette, piece, start, count, texels)
    }
}

/// The level of `w` by `h` whose indices begin at this byte.
fn unpack_level(
    alloc: Global,
    format: PaletteFormat,
    palette: &[u32],
    w: u16,
    h: u16,
    piece: &[u8],
    start: usize,
) -> Result<Level, AllocError>
    requires all { palette.now ≡ entries format piece.now }
    requires small { start < 2 ^ 60 }
    ensures { IfOk result (λ level. level ≡ level_at format w h piece.now start) }
{
    let count = usize::from(w) * usize::from(h);
    let mut texels = Vec::with_capacity(alloc, count)?;
    push_level(format, palette, piece, start, count, &mut texels)?;
    Ok(Level {
        w,
        h,
        format: entry_format(format),
        texels: Texels::new(texels),
    })
}

/// The levels 0 to `levels - 1` of an image with a palette, as CompressedTexImage2D takes them; level 0 is `w` by
/// `h` (OES_compressed_paletted_texture). They are plain images, RGB or RGBA; bytes that the piece lacks are zeros.
pub fn unpack_palette(
    alloc: Global,
    format: PaletteFormat,
    w: u16,
    h: u16,
    levels: u8,
    piece: &[u8],
) -> Result<Vec<Level>, AllocError>
    ensures value { IfOk result (λ all. all.items ≡ palette_levels format w h levels piece.now) }
    ensures count { IfOk result (λ all. vec_len all ≡ levels) }
    ensures filled { IfOk result (λ all. All (λ level. length level.texels ≡ level.w * level.h) all.items) }
{
    let palette = entries(alloc, format, piece)?;
    let mut all = Vec::with_capacity(alloc, usize::from(levels))?;
    let mut start = entries_bytes(format);
    for i in 0..levels {
        let (w_i, h_i) = (level_side(w, i), level_side(h, i));
        all.push(unpack_level(alloc, format, &palette, w_i, h_i, piece, start)?)?;
        start += level_bytes(format, w, h, i);
    }
    Ok(all)
}
