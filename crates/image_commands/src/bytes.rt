//! What an image counts for limits after a write.
ghost use Rattle.std.specs.Prelude.{◌≡◌, ◌+◌, ◌*◌, ◌<◌, ◌≤◌, ◌^◌, ◌||◌, ◌&&◌, ◌==◌, not, ℕ, List};
ghost use Rattle.gl_tokens.specs.declared.base_format.BaseFormat.{BaseFormat};
ghost use Rattle.gl_tokens.specs.declared.texel_type.TexelType.{TexelType};
ghost use Rattle.gl_records.specs.Complete.{level_at};
ghost use Rattle.gl_records.specs.ImageBytes.{image_bytes, level_bytes};
ghost use Rattle.image_levels.specs.Mipmaps.{bytes_behind as bytes_behind_of};
ghost use Rattle.image_levels.specs.declared.texel_box.TexelBox.{TexelBox};
ghost use Rattle.image_commands.specs.Bytes.{palette_bytes as palette_bytes_of, palette_level_bytes as palette_level_bytes_of};
ghost use Rattle.image_commands.specs.Written.{IsGood, IsPossible, written};

use crate::image_write::ImageWrite;
use crate::levels::{level_in, makes_levels};
use gl_records::{ImageSet, Level};
use image_levels::bytes_behind;
use pixel_unpack::level_side;

/// The bytes of a level.
fn level_bytes(level: &Option<Level>) -> u128
    ensures value { result ≡ level_bytes level.now }
    ensures most { result < 2 ^ 66 }
{
    match level {
        Some(level) => 4 * level.texels.as_slice().len() as u128,
        None => 0,
    }
}

/// The bytes of the image with a level of these sides.
fn bytes_with_level(image: &ImageSet, k: u8, w: u16, h: u16) -> u128
    requires good { IsGood image.now }
    requires number { k < 11 }
    ensures { result + level_bytes (level_at image.now k) ≡ image_bytes image.now + 4 * (w * h) }
{
    image.bytes() - level_bytes(level_in(image, k)) + 4 * (u128::from(w) * u128::from(h))
}

/// The bytes of the image where level 0 has these sides and the levels behind it are made of it.
fn bytes_with_made(image: &ImageSet, w: u16, h: u16) -> u128
    ensures { result ≡ 4 * (w * h) + bytes_behind_of image.now w h }
{
    4 * (u128::from(w) * u128::from(h)) + bytes_behind(image, w, h)
}

/// The bytes of level `k` of the image with levels that a palette gives.
fn palette_level_bytes(image: &ImageSet, w: u16, h: u16, levels: u8, k: u8) -> u128
    requires { k < 11 }
    ensures value { result ≡ palette_level_bytes_of image.now w h levels k }
    ensures most { result < 2 ^ 66 }
{
    if k < levels {
        return 4 * (u128::from(level_side(w, k)) * u128::from(level_side(h, k)));
    }
    level_bytes(level_in(image, k))
}

/// The bytes of the image with levels that a palette gives.
fn palette_bytes(image: &ImageSet, w: u16, h: u16, levels: u8) -> u128
    ensures { result ≡ palette_bytes_of image.now w h levels }
{
    let mut bytes = 0;
    for k in 0..11 {
        bytes += palette_level_bytes(image, w, h, levels, k);
    }
    bytes
}

/// Whether levels are made of a level `k` of these sides.
fn makes_levels_behind(remakes: bool, k: u8, w: u16, h: u16) -> bool
    ensures { result ≡ (remakes && (k == 0) && not ((w == 0) || (h == 0))) }
{
    remakes && k == 0 && !(w == 0 || h == 0)
}

/// The bytes of the image after TexImage2D.
fn bytes_after_level(image: &ImageSet, k: u8, w: u16, h: u16, remakes: bool) -> u128
    requires good { IsGood image.now }
    requires number { k < 11 }
    requires w { w ≤ 1024 }
    requires h { h ≤ 1024 }
    ensures { (format : BaseFormat) → (kind : TexelType) → (align : ℕ) → (piece : List ℕ)
        → result ≡ image_bytes (written image.now (ImageWrite.Level k format kind w h) remakes align piece) }
{
    if makes_levels_behind(remakes, k, w, h) {
        return bytes_with_made(image, w, h);
    }
    bytes_with_level(image, k, w, h)
}

/// The bytes of the image after TexSubImage2D.
fn bytes_after_area(image: &ImageSet, k: u8, remakes: bool) -> u128
    requires good { IsGood image.now }
    requires number { k < 11 }
    ensures { (area : TexelBox) → (format : BaseFormat) → (kind : TexelType) → (align : ℕ) → (piece : List ℕ)
        → result ≡ image_bytes (written image.now (ImageWrite.Area k area format kind) remakes align piece) }
{
    if !makes_levels(remakes, k) {
        return image.bytes();
    }
    match level_in(image, 0) {
        Some(first) => bytes_with_made(image, first.w, first.h),
        None => image.bytes(),
    }
}

/// The bytes of the image after a write.
fn all_bytes(image: &ImageSet, write: ImageWrite, remakes: bool) -> u128
    requires good { IsGood image.now }
    requires possible { IsPossible image.now write }
    ensures { (align : ℕ) → (piece : List ℕ) → result ≡ image_bytes (written image.now write remakes align piece) }
{
    match write {
        ImageWrite::Level { level: k, w, h, .. } => bytes_after_level(image, k, w, h, remakes),
        ImageWrite::Area { level: k, .. } => bytes_after_area(image, k, remakes),
        ImageWrite::Palette { w, h, levels, .. } => palette_bytes(image, w, h, levels),
    }
}

/// The bytes that the image would count for limits after a write, levels that are made of level 0 among them;
/// `remakes` is GENERATE_MIPMAP.
pub fn bytes_after(image: &ImageSet, write: ImageWrite, remakes: bool) -> u64
    requires good { IsGood image.now }
    requires possible { IsPossible image.now write }
    ensures value { (align : ℕ) → (piece : List ℕ) → result ≡ image_bytes (written image.now write remakes align piece) }
    ensures few { result < 2 ^ 26 }
{
    all_bytes(image, write, remakes) as u64
}
