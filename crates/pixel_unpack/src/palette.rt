//! Palettes: their entries, and the indices of a level into them.
ghost use Rattle.std.specs.Prelude.{◌≡◌, ℕ, ◌+◌, ◌*◌, ◌<◌, ◌≤◌, ◌^◌, ◌++◌, ◌⊎◌, length, IfOk, OnOk};
ghost use Rattle.pixel_unpack.specs.Palette.{index_bits, entry_format, entry_kind, entries, entries_bytes, index_at, named_texels};

use crate::image::{push_texels, texel_bytes};
use gl_records::byte_at;
use gl_tokens::{BaseFormat, PaletteFormat, TexelType};
use std::alloc::{AllocError, Global};

/// The bits of an index: 4 or 8.
pub fn index_bits(format: PaletteFormat) -> u8
    ensures value { result ≡ index_bits format }
    ensures either { (result ≡ 4) ⊎ (result ≡ 8) }
{
    match format {
        PaletteFormat::Palette4Rgb8
        | PaletteFormat::Palette4Rgba8
        | PaletteFormat::Palette4R5G6B5
        | PaletteFormat::Palette4Rgba4
        | PaletteFormat::Palette4Rgb5A1 => 4,
        PaletteFormat::Palette8Rgb8
        | PaletteFormat::Palette8Rgba8
        | PaletteFormat::Palette8R5G6B5
        | PaletteFormat::Palette8Rgba4
        | PaletteFormat::Palette8Rgb5A1 => 8,
    }
}

/// The format of an entry, which the image has too.
pub fn entry_format(format: PaletteFormat) -> BaseFormat
    ensures { result ≡ entry_format format }
{
    match format {
        PaletteFormat::Palette4Rgb8 | PaletteFormat::Palette8Rgb8 => BaseFormat::Rgb,
        PaletteFormat::Palette4R5G6B5 | PaletteFormat::Palette8R5G6B5 => BaseFormat::Rgb,
        PaletteFormat::Palette4Rgba8 | PaletteFormat::Palette8Rgba8 => BaseFormat::Rgba,
        PaletteFormat::Palette4Rgba4 | PaletteFormat::Palette8Rgba4 => BaseFormat::Rgba,
        PaletteFormat::Palette4Rgb5A1 | PaletteFormat::Palette8Rgb5A1 => BaseFormat::Rgba,
    }
}

fn entry_kind(format: PaletteFormat) -> TexelType
    ensures { result ≡ entry_kind format }
{
    match format {
        PaletteFormat::Palette4Rgb8 | PaletteFormat::Palette8Rgb8 => TexelType::UnsignedByte,
        PaletteFormat::Palette4Rgba8 | PaletteFormat::Palette8Rgba8 => TexelType::UnsignedByte,
        PaletteFormat::Palette4R5G6B5 | PaletteFormat::Palette8R5G6B5 =>
            TexelType::UnsignedShort565,
        PaletteFormat::Palette4Rgba4 | PaletteFormat::Palette8Rgba4 => TexelType::UnsignedShort4444,
        PaletteFormat::Palette4Rgb5A1 | PaletteFormat::Palette8Rgb5A1 =>
            TexelType::UnsignedShort5551,
    }
}

/// How many entries there are: 16 or 256.
fn entry_count(format: PaletteFormat) -> u16
    ensures { result ≡ 2 ^ index_bits format }
{
    1 << index_bits(format)
}

/// The bytes that the entries take.
pub fn entries_bytes(format: PaletteFormat) -> usize
    ensures value { result ≡ entries_bytes format }
    ensures most { result ≤ 1024 }
{
    usize::from(entry_count(format)) * texel_bytes(entry_format(format), entry_kind(format))
}

/// The entries, in their order: texels one behind the other at the front of the piece.
pub fn entries(alloc: Global, format: PaletteFormat, piece: &[u8]) -> Result<Vec<u32>, AllocError>
    ensures { IfOk result (λ palette. palette.items ≡ entries format piece.now) }
{
    let count = entry_count(format);
    let mut palette = Vec::with_capacity(alloc, usize::from(count))?;
    push_texels(
        entry_format(format),
        entry_kind(format),
        count,
        piece,
        0,
        &mut palette,
    )?;
    Ok(palette)
}

/// Index `k` of those of 4 bits that begin at this byte.
fn nibble_at(piece: &[u8], start: usize, k: usize) -> u8
    requires { start + k < 2 ^ 63 }
    ensures value { result ≡ index_at 4 piece.now start k }
    ensures few { result < 16 }
{
    let byte = byte_at(piece, start + k / 2);
    if k % 2 == 0 { byte / 16 } else { byte % 16 }
}

/// Appends the entries that indices of 4 bits name.
pub fn push_by_nibbles(
    palette: &[u32],
    piece: &[u8],
    start: usize,
    count: usize,
    texels: &mut Vec<u32>,
) -> Result<(), AllocError>
    requires small { start + count < 2 ^ 63 }
    requires sixteen { length palette.now ≡ 16 }
    ensures { OnOk result (texels.new.items ≡ texels.old.items ++ named_texels palette.now 4 piece.now start count) }
{
    for k in 0..count {
        let index = nibble_at(piece, start, k);
        texels.push(palette[usize::from(index)])?;
    }
    Ok(())
}

/// Appends the entries that indices of a byte name.
pub fn push_by_bytes(
    palette: &[u32],
    piece: &[u8],
    start: usize,
    count: usize,
    texels: &mut Vec<u32>,
) -> Result<(), AllocError>
    requires small { start + count < 2 ^ 63 }
    requires all { length palette.now ≡ 256 }
    ensures { OnOk result (texels.new.items ≡ texels.old.items ++ named_texels palette.now 8 piece.now start count) }
{
    for k in 0..count {
        let index = byte_at(piece, start + k);
        texels.push(palette[usize::from(index)])?;
    }
    Ok(())
}
