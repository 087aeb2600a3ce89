//! The memory that a write needs, and the change that takes none.
ghost use Rattle.std.specs.Prelude.{◌≡◌, ◌<◌, IfOk, IfSome, IsTrue};
ghost use Rattle.pixel_unpack.specs.Image.{is_alignment};
ghost use Rattle.pixel_unpack.specs.Texel.{is_pair};
ghost use Rattle.image_levels.specs.Mipmaps.{IsFirst};
ghost use Rattle.image_commands.specs.Written.{IsArea, IsGood, IsLevel, IsPalette, IsPossible, new_level as new_level_of, with_level_or_none};
ghost use Rattle.image_commands.specs.Prepared.{AreTaken, Fits, IsPrepared, IsReady, put_of, with_part};

use crate::image_write::ImageWrite;
use crate::levels::{level_in, makes_levels};
use gl_records::{ImageSet, Level, Texels};
use gl_tokens::{BaseFormat, PaletteFormat, TexelType};
use image_levels::{TexelBox, blank_levels, put_levels, put_sub_image, remake};
use pixel_unpack::{unpack, unpack_palette};
use std::alloc::{AllocError, Global};

/// What takes the place of levels or of texels.
#[derive(Drop)]
pub enum Part {
    /// A level, or none.
    Whole {
        k: u8,
        level: Option<Level>,
    },
    /// Texels of a level.
    Texels {
        k: u8,
        area: TexelBox,
        texels: Texels,
    },
    /// Levels from 0 on.
    Levels {
        all: Vec<Level>,
    },
}

/// What a write puts into an image, with all the memory that it needs: the levels or the texels that are given, and,
/// where levels are made of level 0, the places for them.
#[derive(Drop)]
pub struct Prepared {
    part: Part,
    blanks: Option<Vec<Level>>,
}

/// The level that TexImage2D gives: none where a side is 0.
fn new_level(
    alloc: Global,
    format: BaseFormat,
    kind: TexelType,
    w: u16,
    h: u16,
    align: u8,
    piece: &[u8],
) -> Result<Option<Level>, AllocError>
    requires pair { IsTrue (is_pair format kind) }
    requires aligned { IsTrue (is_alignment align) }
    ensures { IfOk result (λ level. level ≡ new_level_of format kind w h align piece.now) }
{
    if w == 0 || h == 0 {
        return Ok(None);
    }
    let texels = unpack(alloc, format, kind, align, w, h, piece)?;
    Ok(Some(Level {
        w,
        h,
        format,
        texels,
    }))
}

/// The places for the levels that are made of this one, where any are made and it is there.
fn blanks_behind(
    alloc: Global,
    first: &Option<Level>,
    made: bool,
) -> Result<Option<Vec<Level>>, AllocError>
    requires { IfSome first.now IsFirst }
    ensures { IfOk result (λ blanks. AreTaken made first.now blanks) }
{
    if !made {
        return Ok(None);
    }
    match first {
        Some(first) => Ok(Some(blank_levels(alloc, first.w, first.h, first.format)?)),
        None => Ok(None),
    }
}

fn prepare_level(
    alloc: Global,
    image: &ImageSet,
    k: u8,
    format: BaseFormat,
    kind: TexelType,
    w: u16,
    h: u16,
    remakes: bool,
    align: u8,
    piece: &[u8],
) -> Result<Prepared, AllocError>
    requires good { IsGood image.now }
    requires possible { IsLevel k format kind w h }
    requires aligned { IsTrue (is_alignment align) }
    ensures { IfOk result (λ prepared. IsPrepared image.now (ImageWrite.Level k format kind w h) remakes align piece.now prepared) }
{
    let level = new_level(alloc, format, kind, w, h, align, piece)?;
    let blanks = blanks_behind(alloc, &level, makes_levels(remakes, k))?;
    Ok(Prepared {
        part: Part::Whole { k, level },
        blanks,
    })
}

fn prepare_area(
    alloc: Global,
    image: &ImageSet,
    k: u8,
    area: TexelBox,
    format: BaseFormat,
    kind: TexelType,
    remakes: bool,
    align: u8,
    piece: &[u8],
) -> Result<Prepared, AllocError>
    requires good { IsGood image.now }
    requires possible { IsArea image.now k area format kind }
    requires aligned { IsTrue (is_alignment align) }
    ensures { IfOk result (λ prepared. IsPrepared image.now (ImageWrite.Area k area format kind) remakes align piece.now prepared) }
{
    let texels = unpack(alloc, format, kind, align, area.w, area.h, piece)?;
    let blanks = blanks_behind(alloc, level_in(image, 0), makes_levels(remakes, k))?;
    Ok(Prepared {
        part: Part::Texels { k, area, texels },
        blanks,
    })
}

fn prepare_palette(
    alloc: Global,
    image: &ImageSet,
    format: PaletteFormat,
    w: u16,
    h: u16,
    levels: u8,
    remakes: bool,
    align: u8,
    piece: &[u8],
) -> Result<Prepared, AllocError>
    requires good { IsGood image.now }
    requires possible { IsPalette w h levels }
    ensures { IfOk result (λ prepared. IsPrepared image.now (ImageWrite.Palette format w h levels) remakes align piece.now prepared) }
{
    let all = unpack_palette(alloc, format, w, h, levels, piece)?;
    Ok(Prepared {
        part: Part::Levels { all },
        blanks: None,
    })
}

/// Takes all the memory that a write needs. Nothing of the image is changed or copied. `remakes` is GENERATE_MIPMAP,
/// `align` the alignment of the rows of the piece: 1, 2, 4 or 8.
pub fn prepare(
    alloc: Global,
    image: &ImageSet,
    write: ImageWrite,
    remakes: bool,
    align: u8,
    piece: &[u8],
) -> Result<Prepared, AllocError>
    requires good { IsGood image.now }
    requires possible { IsPossible image.now write }
    requires aligned { IsTrue (is_alignment align) }
    ensures { IfOk result (λ prepared. IsPrepared image.now write remakes align piece.now prepared) }
{
    match write {
        ImageWrite::Level {
            level,
            format,
            kind,
            w,
            h,
        } => prepare_level(
            alloc, image, level, format, kind, w, h, remakes, align, piece,
        ),
        ImageWrite::Area {
            level,
            area,
            format,
            kind,
        } => prepare_area(
            alloc, image, level, area, format, kind, remakes, align, piece,
        ),
        ImageWrite::Palette {
            format,
            w,
            h,
            levels,
        } => prepare_palette(alloc, image, format, w, h, levels, remakes, align, piece),
    }
}

/// Gives level `k` anew, or empties it.
fn put_level_or_none(image: &mut ImageSet, k: u8, level: Option<Level>)
    requires { k < 11 }
    ensures { image.new ≡ with_level_or_none image.old k level }
{
    image.levels[usize::from(k)] = level;
}

/// Puts levels or texels into an image.
#[tactic(auto, unfolding(crate::specs::Prepared::with_part))]
fn put_part(image: &mut ImageSet, part: Part)
    requires { Fits image.old part }
    ensures { image.new ≡ with_part image.old part }
{
    match part {
        Part::Whole { k, level } => put_level_or_none(image, k, level),
        Part::Texels { k, area, texels } => put_sub_image(image, k, area, texels.as_slice()),
        Part::Levels { all } => put_levels(image, all),
    }
}

/// Does to an image what was prepared for it. No memory is taken, and none of the image is copied.
#[tactic(auto, unfolding(crate::specs::Prepared::put_of))]
pub fn put(image: &mut ImageSet, prepared: Prepared)
    requires { IsReady image.old prepared }
    ensures { image.new ≡ put_of image.old prepared }
{
    put_part(image, prepared.part);
    if let Some(blanks) = prepared.blanks {
        remake(image, blanks);
    }
}
