//! Images without a palette.
ghost use Rattle.std.specs.Prelude.{◌≡◌, ◌+◌, ◌*◌, ◌<◌, ◌^◌, ◌++◌, ℕ, length, slice_index, IsTrue, IfOk, OnOk};
ghost use Rattle.pixel_unpack.specs.Image.{is_alignment, aligned, row_start, texel_row, image};
ghost use Rattle.pixel_unpack.specs.Texel.{is_pair, texel_bytes, texel_at};

use crate::layout::{
    Alphas, LuminanceAlphas, Luminances, Packed565, Packed4444, Packed5551, Rgbas, Rgbs, push_row,
};
use gl_records::Texels;
use gl_tokens::{BaseFormat, TexelType};
use std::alloc::{AllocError, Global};

/// The bytes that a texel takes.
pub fn texel_bytes(format: BaseFormat, kind: TexelType) -> usize
    ensures value { result ≡ texel_bytes format kind }
    ensures few { result < 5 }
{
    match kind {
        TexelType::UnsignedByte => match format {
            BaseFormat::Alpha | BaseFormat::Luminance => 1,
            BaseFormat::LuminanceAlpha => 2,
            BaseFormat::Rgb => 3,
            BaseFormat::Rgba => 4,
        },
        _ => 2,
    }
}

/// The bytes from the beginning of a row to that of the next.
fn row_stride(format: BaseFormat, kind: TexelType, align: u8, w: u16) -> usize
    requires { IsTrue (is_alignment align) }
    ensures value { result ≡ aligned align (w * texel_bytes format kind) }
    ensures small { result < 2 ^ 19 }
{
    let bytes = usize::from(w) * texel_bytes(format, kind);
    let align = usize::from(align);
    (bytes + (align - 1)) / align * align
}

/// Appends the texels of the row that begins at this byte of the piece, from the left.
pub fn push_texels(
    format: BaseFormat,
    kind: TexelType,
    w: u16,
    piece: &[u8],
    start: usize,
    texels: &mut Vec<u32>,
) -> Result<(), AllocError>
    requires { start < 2 ^ 60 }
    ensures { OnOk result (texels.new.items ≡ texels.old.items ++ texel_row format kind w piece.now start) }
{
    match kind {
        TexelType::UnsignedByte => match format {
            BaseFormat::Alpha => push_row::<Alphas>(piece, start, w, texels),
            BaseFormat::Luminance => push_row::<Luminances>(piece, start, w, texels),
            BaseFormat::LuminanceAlpha => push_row::<LuminanceAlphas>(piece, start, w, texels),
            BaseFormat::Rgb => push_row::<Rgbs>(piece, start, w, texels),
            BaseFormat::Rgba => push_row::<Rgbas>(piece, start, w, texels),
        },
        TexelType::UnsignedShort4444 => push_row::<Packed4444>(piece, start, w, texels),
        TexelType::UnsignedShort5551 => push_row::<Packed5551>(piece, start, w, texels),
        TexelType::UnsignedShort565 => push_row::<Packed565>(piece, start, w, texels),
    }
}

/// The texels of an image of `w` by `h`, by rows from the bottom, as TexImage2D takes them (OpenGL ES 1.1.12, 3.6.1
/// and 3.6.2). Each row begins on a multiple of `align` bytes, 1, 2, 4 or 8; bytes that the piece lacks are zeros.
/// The pair of format and type is one that there is. Memory is taken once, for all of the texels.
pub fn unpack(
    alloc: Global,
    format: BaseFormat,
    kind: TexelType,
    align: u8,
    w: u16,
    h: u16,
    piece: &[u8],
) -> Result<Texels, AllocError>
    requires pair { IsTrue (is_pair format kind) }
    requires aligned { IsTrue (is_alignment align) }
    ensures value { IfOk result (λ texels. texels ≡ image format kind align w h piece.now) }
    ensures count { IfOk result (λ texels. length texels ≡ w * h) }

    // texel x of row y
    ensures placed { IfOk result (λ texels. (x y : ℕ) → x < w → y < h → slice_index texels (y * w + x)
        ≡ texel_at format kind piece.now (row_start format kind align w y + x * texel_bytes format kind)) }
{
    let stride = row_stride(format, kind, align, w);
    let mut texels = Vec::with_capacity(alloc, usize::from(w) * usize::from(h))?;
    for y in 0..usize::from(h) {
        push_texels(format, kind, w, piece, y * stride, &mut texels)?;
    }
    Ok(Texels::new(texels))
}
