//! The errors of the commands but for memory, in their order.
ghost use Rattle.std.specs.Prelude.{◌≡◌, ◌<◌, ◌≤◌, IfOk};
ghost use Rattle.gl_records.specs.Complete.{level_at};
ghost use Rattle.pixel_unpack.specs.Texel.{is_pair as is_pair_of};
ghost use Rattle.gl_records.specs.declared.level.ImageSet.{ImageSet};
ghost use Rattle.image_levels.specs.SubImage.{IsInside};
ghost use Rattle.image_commands.specs.Asked.{level_asked as level_asked_of, box_in as box_in_of, area_asked as area_asked_of, area_of, level_of, palette_asked as palette_asked_of, palette_of, asked_of, piece_of as record_piece};
ghost use Rattle.image_commands.specs.Written.{IsPossible};

use crate::image_write::ImageWrite;
use crate::levels::level_in;
use crate::words::{is_number, is_outside, level_number, level_side, palette_side};
use gl_records::{ImageSet, Level, Rec, is_empty, top_bit};
use gl_tokens::{BaseFormat, GlError, PaletteFormat, TexelType, TextureTarget};
use image_levels::TexelBox;
use pixel_unpack::palette_size;

/// Whether there is this pair of format and type.
fn is_pair(format: BaseFormat, kind: TexelType) -> bool
    ensures { result ≡ is_pair_of format kind }
{
    match kind {
        TexelType::UnsignedByte => true,
        TexelType::UnsignedShort4444 | TexelType::UnsignedShort5551 => {
            matches!(format, BaseFormat::Rgba)
        }
        TexelType::UnsignedShort565 => matches!(format, BaseFormat::Rgb),
    }
}

/// The level of these sides, where there is this pair of format and type.
#[tactic(auto, unfolding(crate::specs::Asked::level_of))]
fn level_of(
    level: u8,
    format: BaseFormat,
    kind: TexelType,
    w: i32,
    h: i32,
    border: i32,
) -> Result<ImageWrite, GlError>
    requires { level < 11 }
    ensures value { result ≡ level_of level format kind w h border }
    ensures possible { (image : ImageSet) → IfOk result (λ write. IsPossible image write) }
{
    let w = level_side(w)?;
    let h = level_side(h)?;
    if !is_number(border, 0) {
        return Err(GlError::InvalidValue);
    }
    if !is_pair(format, kind) {
        return Err(GlError::InvalidOperation);
    }
    Ok(ImageWrite::Level {
        level,
        format,
        kind,
        w,
        h,
    })
}

/// What TexImage2D asks for, or its first error.
#[tactic(auto, unfolding(crate::specs::Asked::level_asked))]
fn level_asked(
    target: u32,
    level: i32,
    internal: u32,
    w: i32,
    h: i32,
    border: i32,
    format_code: u32,
    type_code: u32,
) -> Result<ImageWrite, GlError>
    ensures value { result ≡ level_asked_of target level internal w h border format_code type_code }
    ensures possible { (image : ImageSet) → IfOk result (λ write. IsPossible image write) }
{
    let Some(_) = TextureTarget::from_code(target) else {
        return Err(GlError::InvalidEnum);
    };
    let level = level_number(level)?;
    let Some(_) = BaseFormat::from_code(internal) else {
        return Err(GlError::InvalidValue);
    };
    let Some(format) = BaseFormat::from_code(format_code) else {
        return Err(GlError::InvalidEnum);
    };
    let Some(kind) = TexelType::from_code(type_code) else {
        return Err(GlError::InvalidEnum);
    };
    if internal != format_code {
        return Err(GlError::InvalidOperation);
    }
    level_of(level, format, kind, w, h, border)
}

/// The texels of a level from these columns and rows on.
#[tactic(auto, unfolding(crate::specs::Asked::box_in))]
fn box_in(level: &Level, x: i32, y: i32, w: i32, h: i32) -> Result<TexelBox, GlError>
    ensures value { result ≡ box_in_of level.now x y w h }
    ensures inside { IfOk result (λ area. IsInside area level.now.w level.now.h) }
{
    if is_outside(level.w, x, w) || is_outside(level.h, y, h) {
        return Err(GlError::InvalidValue);
    }
    Ok(TexelBox {
        x: x.unsigned_abs() as u16,
        y: y.unsigned_abs() as u16,
        w: w.unsigned_abs() as u16,
        h: h.unsigned_abs() as u16,
    })
}

/// The texels of a level that is there, where it has this format and there is this pair of format and type.
#[tactic(auto, unfolding(crate::specs::Asked::area_of))]
fn area_of(
    found: &Option<Level>,
    level: u8,
    x: i32,
    y: i32,
    w: i32,
    h: i32,
    format: BaseFormat,
    kind: TexelType,
) -> Result<ImageWrite, GlError>
    requires { level < 11 }
    ensures value { result ≡ area_of found.now level x y w h format kind }
    ensures possible { (image : ImageSet) → level_at image level ≡ found.now → IfOk result (λ write. IsPossible image write) }
{
    if is_empty(found) {
        return Err(GlError::InvalidOperation);
    }
    let Some(old) = found else {
        return Err(GlError::InvalidOperation);
    };
    let area = box_in(old, x, y, w, h)?;
    if old.format.code() != format.code() {
        return Err(GlError::InvalidOperation);
    }
    if !is_pair(format, kind) {
        return Err(GlError::InvalidOperation);
    }
    Ok(ImageWrite::Area {
        level,
        area,
        format,
        kind,
    })
}

/// What TexSubImage2D asks for, or its first error.
#[tactic(auto, unfolding(crate::specs::Asked::area_asked))]
fn area_asked(
    image: &ImageSet,
    target: u32,
    level: i32,
    x: i32,
    y: i32,
    w: i32,
    h: i32,
    format_code: u32,
    type_code: u32,
) -> Result<ImageWrite, GlError>
    ensures value { result ≡ area_asked_of image.now target level x y w h format_code type_code }
    ensures possible { IfOk result (λ write. IsPossible image.now write) }
{
    let Some(_) = TextureTarget::from_code(target) else {
        return Err(GlError::InvalidEnum);
    };
    let level = level_number(level)?;
    let Some(format) = BaseFormat::from_code(format_code) else {
        return Err(GlError::InvalidEnum);
    };
    let Some(kind) = TexelType::from_code(type_code) else {
        return Err(GlError::InvalidEnum);
    };
    area_of(level_in(image, level), level, x, y, w, h, format, kind)
}

/// The levels from 0 to the last, where there may be so many and they are of this size.
#[tactic(auto, unfolding(crate::specs::Asked::palette_of))]
fn palette_levels(
    format: PaletteFormat,
    w: u16,
    h: u16,
    last: u32,
    border: i32,
    size: i32,
) -> Result<ImageWrite, GlError>
    requires w { 1 ≤ w × (w ≤ 1024) }
    requires h { 1 ≤ h × (h ≤ 1024) }
    ensures value { result ≡ palette_of format w h last border size }
    ensures possible { (image : ImageSet) → IfOk result (λ write. IsPossible image write) }
{
    if last > top_bit(u64::from(w.max(h))) {
        return Err(GlError::InvalidValue);
    }
    let levels = last as u8 + 1;
    if !is_number(border, 0) || !is_number(size, palette_size(format, w, h, levels)) {
        return Err(GlError::InvalidValue);
    }
    Ok(ImageWrite::Palette {
        format,
        w,
        h,
        levels,
    })
}

/// What CompressedTexImage2D asks for, or its first error.
#[tactic(auto, unfolding(crate::specs::Asked::palette_asked))]
fn palette_asked(
    target: u32,
    level: i32,
    internal: u32,
    w: i32,
    h: i32,
    border: i32,
    size: i32,
) -> Result<ImageWrite, GlError>
    ensures value { result ≡ palette_asked_of target level internal w h border size }
    ensures possible { (image : ImageSet) → IfOk result (λ write. IsPossible image write) }
{
    let Some(_) = TextureTarget::from_code(target) else {
        return Err(GlError::InvalidEnum);
    };
    let Some(format) = PaletteFormat::from_code(internal) else {
        return Err(GlError::InvalidEnum);
    };
    if level > 0 {
        return Err(GlError::InvalidValue);
    }
    let w = palette_side(w)?;
    let h = palette_side(h)?;
    palette_levels(format, w, h, level.unsigned_abs(), border, size)
}

/// What a command of images asks of the image, or its first error but for memory, as TexImage2D, TexSubImage2D and
/// CompressedTexImage2D make them (OpenGL ES 1.1.12, 3.7.1 to 3.7.3). For another record it is InvalidEnum.
#[tactic(auto, unfolding(crate::specs::Asked::asked_of))]
pub fn asked(image: &ImageSet, rec: &Rec) -> Result<ImageWrite, GlError>
    ensures value { result ≡ asked_of image.now rec.now }
    ensures possible { IfOk result (λ write. IsPossible image.now write) }
{
    match rec {
        Rec::TexImage2D {
            target,
            level,
            internal,
            width,
            height,
            border,
            format,
            kind,
            ..
        } => level_asked(
            *target, *level, *internal, *width, *height, *border, *format, *kind,
        ),
        Rec::TexSubImage2D {
            target,
            level,
            x,
            y,
            width,
            height,
            format,
            kind,
            ..
        } => area_asked(
            image, *target, *level, *x, *y, *width, *height, *format, *kind,
        ),
        Rec::CompressedTexImage2D {
            target,
            level,
            internal,
            width,
            height,
            border,
            size,
            ..
        } => palette_asked(*target, *level, *internal, *width, *height, *border, *size),
        _ => Err(GlError::InvalidEnum),
    }
}

/// The bytes that the command brings; a command that isn't one of images brings none.
pub fn piece_of(rec: &Rec) -> &[u8]
    ensures { result.now ≡ record_piece rec.now }
{
    match rec {
        Rec::TexImage2D { piece, .. }
        | Rec::TexSubImage2D { piece, .. }
        | Rec::CompressedTexImage2D { piece, .. } => piece.as_slice(),
        _ => &[],
    }
}
