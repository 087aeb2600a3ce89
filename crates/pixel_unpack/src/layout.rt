//! How the bytes of a texel are laid out, one type for each way.
ghost use Rattle.std.specs.Prelude.{◌≡◌, ℕ, List, ◌+◌, ◌*◌, ◌<◌, ◌^◌, map, slice_index, OnOk, ◌++◌};
ghost use Rattle.std.specs.List.{range_with_len};
ghost use Rattle.gl_records.specs.BytesAt.{short_at};
ghost use Rattle.pixel_unpack.specs.Texel.{rgba, texel_4444, texel_5551, texel_565, byte_texel};
ghost use Rattle.gl_tokens.specs.declared.base_format.BaseFormat.TheVariants as base;

use crate::component::{five_bits, four_bits, one_bit, six_bits};
use gl_records::{byte_at, four_at, short_at, three_at, two_at};
use std::alloc::AllocError;

/// How the bytes of a texel are laid out.
pub trait Layout {
    // texel x of the row that begins at this byte of the piece
    ghost texel: { List ℕ → ℕ → ℕ → ℕ };

    /// Texel `x` of the row that begins at this byte of the piece, R G B A.
    fn read(piece: &[u8], start: usize, x: usize) -> u32
        requires small { start < 2 ^ 60 }
        requires short { x < 2 ^ 16 }
        ensures { result ≡ texel piece.now start x };
}

/// A byte A.
pub struct Alphas;

impl Layout for Alphas {
    ghost texel = { λ piece start x. byte_texel base.Alpha piece (start + x) };

    fn read(piece: &[u8], start: usize, x: usize) -> u32 {
        u32::from_le_bytes([0, 0, 0, byte_at(piece, start + x)])
    }
}

/// A byte L.
pub struct Luminances;

impl Layout for Luminances {
    ghost texel = { λ piece start x. byte_texel base.Luminance piece (start + x) };

    fn read(piece: &[u8], start: usize, x: usize) -> u32 {
        let l = byte_at(piece, start + x);
        u32::from_le_bytes([l, l, l, 255])
    }
}

/// Bytes L A.
pub struct LuminanceAlphas;

impl Layout for LuminanceAlphas {
    ghost texel = { λ piece start x. byte_texel base.LuminanceAlpha piece (start + x * 2) };

    fn read(piece: &[u8], start: usize, x: usize) -> u32 {
        let [l, a] = two_at(piece, start + x * 2);
        u32::from_le_bytes([l, l, l, a])
    }
}

/// Bytes R G B.
pub struct Rgbs;

impl Layout for Rgbs {
    ghost texel = { λ piece start x. byte_texel base.Rgb piece (start + x * 3) };

    fn read(piece: &[u8], start: usize, x: usize) -> u32 {
        let [r, g, b] = three_at(piece, start + x * 3);
        u32::from_le_bytes([r, g, b, 255])
    }
}

/// Bytes R G B A.
pub struct Rgbas;

impl Layout for Rgbas {
    ghost texel = { λ piece start x. byte_texel base.Rgba piece (start + x * 4) };

    fn read(piece: &[u8], start: usize, x: usize) -> u32 {
        u32::from_le_bytes(four_at(piece, start + x * 4))
    }
}

/// Two bytes: R G B A of 4 bits each, R in the high bits.
pub struct Packed4444;

impl Layout for Packed4444 {
    ghost texel = { λ piece start x. texel_4444 (short_at piece (start + x * 2)) };

    fn read(piece: &[u8], start: usize, x: usize) -> u32 {
        let number = short_at(piece, start + x * 2);
        u32::from_le_bytes([
            four_bits(number, 12),
            four_bits(number, 8),
            four_bits(number, 4),
            four_bits(number, 0),
        ])
    }
}

/// Two bytes: R G B of 5 bits each and a bit A, R in the high bits.
pub struct Packed5551;

impl Layout for Packed5551 {
    ghost texel = { λ piece start x. texel_5551 (short_at piece (start + x * 2)) };

    fn read(piece: &[u8], start: usize, x: usize) -> u32 {
        let number = short_at(piece, start + x * 2);
        u32::from_le_bytes([
            five_bits(number, 11),
            five_bits(number, 6),
            five_bits(number, 1),
            one_bit(number, 0),
        ])
    }
}

/// Two bytes: R of 5 bits, G of 6 and B of 5, R in the high bits.
pub struct Packed565;

impl Layout for Packed565 {
    ghost texel = { λ piece start x. texel_565 (short_at piece (start + x * 2)) };

    fn read(piece: &[u8], start: usize, x: usize) -> u32 {
        let number = short_at(piece, start + x * 2);
        u32::from_le_bytes([
            five_bits(number, 11),
            six_bits(number, 5),
            five_bits(number, 0),
            255,
        ])
    }
}

/// Appends the texels of the row that begins at this byte of the piece, from the left.
pub fn push_row<L: Layout>(
    piece: &[u8],
    start: usize,
    w: u16,
    texels: &mut Vec<u32>,
) -> Result<(), AllocError>
    requires { start < 2 ^ 60 }
    ensures { OnOk result (texels.new.items ≡ texels.old.items
        ++ map (λ x. L.texel piece.now start x) (range_with_len 0 w)) }
{
    for x in 0..usize::from(w) {
        texels.push(L::read(piece, start, x))?;
    }
    Ok(())
}
