//! Errors, contents and bytes, in tables worked out by hand from the commands' rules.
ghost use Rattle.image_commands.specs.Written.{IsGood};

use super::*;
use gl_records::{Bytes, ImageSet, Level, Rec, Texels};
use gl_tokens::{BaseFormat, GlError};
use std::alloc::{AllocError, Global};
use std::test::Fail;

const NONE: Option<GlError> = None;

const ENUM: Option<GlError> = Some(GlError::InvalidEnum);

const VALUE: Option<GlError> = Some(GlError::InvalidValue);

const OPERATION: Option<GlError> = Some(GlError::InvalidOperation);

const TEXTURE: u32 = 0x0DE1;

const RGB: u32 = 0x1907;

const RGBA: u32 = 0x1908;

const BYTES: u32 = 0x1401;

const SHORTS_4444: u32 = 0x8033;

const SHORTS_565: u32 = 0x8363;

fn piece(alloc: Global, bytes: &[u8]) -> Result<Bytes, AllocError> {
    Ok(Bytes::new(Vec::from_slice(alloc, bytes)?))
}

fn error_of(image: &ImageSet, rec: &Rec) -> Option<GlError> {
    match asked(image, rec) {
        Ok(_) => None,
        Err(error) => Some(error),
    }
}

#[test]
fn errors_of_a_level_in_order(rt: HostRuntime) -> Result<(), Fail> {
    let image = ImageSet::empty();
    // target, level, internal, width, height, border, format, type
    let table = [
        ((0x0DE0, 11, 0, -1, 3, 1, 0, 0), ENUM),
        ((TEXTURE, -1, 0, 1, 1, 0, 0, 0), VALUE),
        ((TEXTURE, 11, RGB, 1, 1, 0, RGB, BYTES), VALUE),
        ((TEXTURE, i32::MIN, RGB, 1, 1, 0, RGB, BYTES), VALUE),
        ((TEXTURE, 10, 0x1905, 3, 1, 1, 0, 0), VALUE),
        ((TEXTURE, 10, RGB, 3, 1, 1, 0x190B, BYTES), ENUM),
        ((TEXTURE, 10, RGB, 3, 1, 1, RGBA, 0x1400), ENUM),
        ((TEXTURE, 10, RGB, 3, 1, 1, RGBA, SHORTS_565), OPERATION),
        ((TEXTURE, 10, RGB, 3, 1, 0, RGB, SHORTS_4444), VALUE),
        ((TEXTURE, 10, RGB, 1, 2048, 0, RGB, BYTES), VALUE),
        ((TEXTURE, 10, RGB, -1, 1, 0, RGB, BYTES), VALUE),
        ((TEXTURE, 10, RGB, 1, i32::MIN, 0, RGB, BYTES), VALUE),
        ((TEXTURE, 10, RGB, 1, 1, 1, RGB, SHORTS_4444), VALUE),
        ((TEXTURE, 10, RGB, 1, 1, -1, RGB, BYTES), VALUE),
        ((TEXTURE, 10, RGB, 1, 1, 0, RGB, SHORTS_4444), OPERATION),
        ((TEXTURE, 10, RGB, 1024, 1, 0, RGB, BYTES), NONE),
        ((TEXTURE, 0, RGB, 0, 512, 0, RGB, BYTES), NONE),
    ];
    for (words, want) in table {
        let (target, level, internal, width, height, border, format, kind) = words;
        let rec = Rec::TexImage2D {
            target,
            level,
            internal,
            width,
            height,
            border,
            format,
            kind,
            piece: piece(rt.alloc(), &[])?,
        };
        assert_eq!(rt; error_of(&image, &rec), want, "{words:?}");
    }
    Ok(())
}

#[test]
fn pairs_of_format_and_type(rt: HostRuntime) -> Result<(), Fail> {
    let image = ImageSet::empty();
    // 0x1401 goes with each format, 0x8033 and 0x8034 with RGBA, 0x8363 with RGB
    let table = [
        (0x1906, [NONE, OPERATION, OPERATION, OPERATION]),
        (0x1907, [NONE, OPERATION, OPERATION, NONE]),
        (0x1908, [NONE, NONE, NONE, OPERATION]),
        (0x1909, [NONE, OPERATION, OPERATION, OPERATION]),
        (0x190A, [NONE, OPERATION, OPERATION, OPERATION]),
    ];
    for (format, wanted) in table {
        for k in 0..4usize {
            let kind = [0x1401, 0x8033, 0x8034, 0x8363][k];
            let rec = Rec::TexImage2D {
                target: TEXTURE,
                level: 0,
                internal: format,
                width: 2,
                height: 2,
                border: 0,
                format,
                kind,
                piece: piece(rt.alloc(), &[])?,
            };
            assert_eq!(rt; error_of(&image, &rec), wanted[k], "{format} {kind}");
        }
    }
    Ok(())
}

#[test]
fn errors_of_a_sub_image_in_order(rt: HostRuntime) -> Result<(), Fail> {
    let mut image = ImageSet::empty();
    // level 0 is 4 by 2
    image.levels[0] = Some(Level {
        w: 4,
        h: 2,
        format: BaseFormat::Rgb,
        texels: Texels::new(Vec::from_slice(rt.alloc(), &[1, 2, 3, 4, 5, 6, 7, 8])?),
    });
    // target, level, x, y, width, height, format, type
    let table = [
        ((0x0DE0, 11, -1, 0, 1, 1, 0, 0), ENUM),
        ((TEXTURE, 11, -1, 0, 1, 1, 0, 0), VALUE),
        ((TEXTURE, 1, -1, 0, 1, 1, 0x1905, BYTES), ENUM),
        ((TEXTURE, 1, -1, 0, 1, 1, RGB, 0x8035), ENUM),
        ((TEXTURE, 1, -1, 0, 1, 1, RGB, BYTES), OPERATION),
        ((TEXTURE, 0, -1, 0, 1, 1, RGBA, SHORTS_565), VALUE),
        ((TEXTURE, 0, 0, -1, 1, 1, RGBA, BYTES), VALUE),
        ((TEXTURE, 0, 0, 0, -1, 1, RGBA, BYTES), VALUE),
        ((TEXTURE, 0, 0, 0, 1, i32::MIN, RGBA, BYTES), VALUE),
        ((TEXTURE, 0, 3, 0, 2, 1, RGBA, BYTES), VALUE),
        ((TEXTURE, 0, 0, 1, 1, 2, RGB, BYTES), VALUE),
        ((TEXTURE, 0, i32::MAX, 0, i32::MAX, 1, RGB, BYTES), VALUE),
        ((TEXTURE, 0, 0, 0, 4, 2, RGBA, SHORTS_565), OPERATION),
        ((TEXTURE, 0, 0, 0, 4, 2, RGB, SHORTS_4444), OPERATION),
        ((TEXTURE, 0, 0, 0, 4, 2, RGB, SHORTS_565), NONE),
        ((TEXTURE, 0, 4, 2, 0, 0, RGB, BYTES), NONE),
    ];
    for (words, want) in table {
        let (target, level, x, y, width, height, format, kind) = words;
        let rec = Rec::TexSubImage2D {
            target,
            level,
            x,
            y,
            width,
            height,
            format,
            kind,
            piece: piece(rt.alloc(), &[])?,
        };
        assert_eq!(rt; error_of(&image, &rec), want, "{words:?}");
    }
    Ok(())
}

#[test]
fn errors_of_a_palette_in_order(rt: HostRuntime) -> Result<(), Fail> {
    let image = ImageSet::empty();
    // target, level, internal, width, height, border, size; 16 entries of 3 bytes, and half a byte for each texel
    let table = [
        ((0x0DE0, 1, 0, 0, 2, 1, 50), ENUM),
        ((TEXTURE, 1, 0x8B8F, 2, 2, 0, 50), ENUM),
        ((TEXTURE, 1, 0x8B9A, 2, 2, 0, 50), ENUM),
        ((TEXTURE, 1, 0x8B90, 2, 2, 0, 50), VALUE),
        ((TEXTURE, 0, 0x8B90, 0, 2, 0, 48), VALUE),
        ((TEXTURE, 0, 0x8B90, 2, 0, 0, 48), VALUE),
        ((TEXTURE, 0, 0x8B90, 3, 2, 0, 51), VALUE),
        ((TEXTURE, 0, 0x8B90, -2, 2, 0, 50), VALUE),
        ((TEXTURE, 0, 0x8B90, 2, 2, 1, 50), VALUE),
        ((TEXTURE, 0, 0x8B90, 2, 2, 0, 50), NONE),
        ((TEXTURE, 0, 0x8B90, 2, 2, 0, 49), VALUE),
        ((TEXTURE, 0, 0x8B90, 2, 2, 0, 51), VALUE),
        ((TEXTURE, 0, 0x8B90, 2, 2, 0, -50), VALUE),
        // 2 by 2 texels take 2 bytes, one texel takes one
        ((TEXTURE, -1, 0x8B90, 2, 2, 0, 51), NONE),
        ((TEXTURE, -2, 0x8B90, 2, 2, 0, 52), VALUE),
        ((TEXTURE, i32::MIN, 0x8B90, 2, 2, 0, 50), VALUE),
        // 256 entries of 2 bytes, and 1024 + 512 + .. + 1 texels of a byte
        ((TEXTURE, -10, 0x8B99, 1024, 1, 0, 2559), NONE),
    ];
    for (words, want) in table {
        let (target, level, internal, width, height, border, size) = words;
        let rec = Rec::CompressedTexImage2D {
            target,
            level,
            internal,
            width,
            height,
            border,
            size,
            piece: piece(rt.alloc(), &[])?,
        };
        assert_eq!(rt; error_of(&image, &rec), want, "{words:?}");
    }
    Ok(())
}

#[tactic(auto, using(crate::proofs::Good::empty_is_good))]
fn blank_image() -> ImageSet
    ensures { IsGood result }
{
    ImageSet::empty()
}

/// Runs a command, which has no error, and answers what the image counts, as it was said beforehand.
fn run(
    alloc: Global,
    image: &mut ImageSet,
    rec: &Rec,
    remakes: bool,
) -> Result<Option<u64>, AllocError>
    requires { IsGood image.old }
    ensures { IsGood image.new }
{
    let Ok(write) = asked(image, rec) else {
        return Ok(None);
    };
    let bytes = bytes_after(image, write, remakes);
    let prepared = prepare(alloc, image, write, remakes, 4, piece_of(rec))?;
    put(image, prepared);
    if image.bytes() != u128::from(bytes) {
        return Ok(None);
    }
    Ok(Some(bytes))
}

/// TexImage2D of bytes.
fn level_rec(
    alloc: Global,
    level: i32,
    format: u32,
    width: i32,
    height: i32,
    bytes: &[u8],
) -> Result<Rec, AllocError> {
    Ok(Rec::TexImage2D {
        target: TEXTURE,
        level,
        internal: format,
        width,
        height,
        border: 0,
        format,
        kind: BYTES,
        piece: piece(alloc, bytes)?,
    })
}

/// TexSubImage2D of bytes, RGB, on level 0.
fn area_rec(
    alloc: Global,
    x: i32,
    y: i32,
    width: i32,
    height: i32,
    bytes: &[u8],
) -> Result<Rec, AllocError> {
    Ok(Rec::TexSubImage2D {
        target: TEXTURE,
        level: 0,
        x,
        y,
        width,
        height,
        format: RGB,
        kind: BYTES,
        piece: piece(alloc, bytes)?,
    })
}

/// CompressedTexImage2D of 2 by 2 texels, which are black, with 16 entries RGB.
fn palette_rec(alloc: Global, level: i32, size: i32) -> Result<Rec, AllocError> {
    Ok(Rec::CompressedTexImage2D {
        target: TEXTURE,
        level,
        internal: 0x8B90,
        width: 2,
        height: 2,
        border: 0,
        size,
        piece: piece(alloc, &[])?,
    })
}

#[test]
fn what_an_image_counts(rt: HostRuntime) -> Result<(), Fail> {
    let alloc = rt.alloc();
    let mut image = blank_image();
    // the level, its sides, whether levels are made, and the texels then
    let table = [
        // 4 by 2, 2 by 1 and 1 by 1
        (0, 4, 2, true, 11),
        // 8 by 8 at level 3, which makes none
        (3, 8, 8, true, 75),
        // another level 0 alone
        (0, 2, 2, false, 71),
        // levels 1 to 4 of 8, 4, 2 and 1 texels, level 3 in place of the one that was there
        (0, 16, 1, true, 31),
        // emptied: levels 1 to 4 stay
        (0, 0, 4, true, 15),
        (4, 1, 0, false, 14),
        (0, 1, 1, true, 15),
    ];
    for (level, w, h, remakes, texels) in table {
        let rec = level_rec(alloc, level, RGBA, w, h, &[])?;
        assert_eq!(rt; run(alloc, &mut image, &rec, remakes)?, Some(4 * texels));
    }
    // levels 0 and 1, of 4 texels and 1, in place of 1 and 8; nothing is made
    let rec = palette_rec(alloc, -1, 51)?;
    assert_eq!(rt; run(alloc, &mut image, &rec, true)?, Some(44));
    // one texel of level 0: level 1 is made anew
    let rec = area_rec(alloc, 1, 1, 1, 1, &[])?;
    assert_eq!(rt; run(alloc, &mut image, &rec, true)?, Some(44));
    Ok(())
}

fn texel(image: &ImageSet, k: usize, place: usize) -> Option<u32> {
    match image.levels.get(k) {
        Some(Some(level)) => level.texels.as_slice().get(place).copied(),
        _ => None,
    }
}

#[test]
fn contents_and_levels_that_are_made(rt: HostRuntime) -> Result<(), Fail> {
    let alloc = rt.alloc();
    let mut image = blank_image();
    // rows of 6 bytes, each on 8
    let bytes = [1, 2, 3, 4, 5, 6, 0, 0, 7, 8, 9, 10, 11, 12];
    // the right column
    let column = [20, 20, 20, 0, 40, 40, 40];
    let recs = [
        level_rec(alloc, 0, RGB, 2, 2, &bytes)?,
        area_rec(alloc, 1, 0, 1, 2, &column)?,
        area_rec(alloc, 2, 2, 0, 0, &[])?,
        palette_rec(alloc, 0, 50)?,
    ];
    let table = [
        // (1 + 4 + 7 + 10 + 2) / 4 is 6, and 7 and 8 so
        (true, [0xff030201, 0xff060504, 0xff0c0b0a, 0xff080706]),
        // level 1 stays
        (false, [0xff030201, 0xff141414, 0xff282828, 0xff080706]),
        // no texel, but level 1 is made: (1 + 20 + 7 + 40 + 2) / 4 is 17, and 18 twice
        (true, [0xff030201, 0xff141414, 0xff282828, 0xff121211]),
        // a palette makes none
        (true, [0xff000000, 0xff000000, 0xff000000, 0xff121211]),
    ];
    for k in 0..4usize {
        let (remakes, want) = table[k];
        assert!(rt; run(alloc, &mut image, &recs[k], remakes)?.is_some());
        assert_eq!(rt; texel(&image, 0, 0), Some(want[0]));
        assert_eq!(rt; texel(&image, 0, 1), Some(want[1]));
        assert_eq!(rt; texel(&image, 0, 3), Some(want[2]));
        assert_eq!(rt; texel(&image, 1, 0), Some(want[3]));
    }
    Ok(())
}
