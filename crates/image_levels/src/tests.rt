ghost use Rattle.std.specs.Prelude.{◌≡◌, IfOk};
ghost use Rattle.gl_tokens.specs.declared.base_format.BaseFormat.TheVariants.{Rgb};

use super::*;
use gl_records::{ImageSet, Level, Texels};
use gl_tokens::BaseFormat;
use std::alloc::{AllocError, Global};
use std::test::Fail;

fn level(alloc: Global, w: u16, h: u16, texels: &[u32]) -> Result<Level, AllocError>
    ensures w { IfOk result (λ level. level.w ≡ w) }
    ensures h { IfOk result (λ level. level.h ≡ h) }
    ensures format { IfOk result (λ level. level.format ≡ Rgb) }
    ensures texels { IfOk result (λ level. level.texels ≡ texels.now) }
{
    Ok(Level {
        w,
        h,
        format: BaseFormat::Rgb,
        texels: Texels::new(Vec::from_slice(alloc, texels)?),
    })
}

#[test]
fn a_sub_image_leaves_the_texels_about_it(rt: HostRuntime) -> Result<(), Fail> {
    let mut level = level(rt.alloc(), 3, 3, &[1, 2, 3, 4, 5, 6, 7, 8, 9])?;
    let area = TexelBox {
        x: 1,
        y: 1,
        w: 2,
        h: 1,
    };
    put_texels(&mut level, area, &[50, 60]);
    let texels = level.texels.as_slice();
    let want = [1, 2, 3, 4, 50, 60, 7, 8, 9];
    for k in 0..9usize {
        assert_eq!(rt; texels.get(k).copied(), want.get(k).copied());
    }
    Ok(())
}

#[test]
fn mipmaps_are_rounded_to_the_nearest(rt: HostRuntime) -> Result<(), Fail> {
    let alloc = rt.alloc();
    // 4 by 2 texels; of their lowest components each level has the mean: (0 + 1 + 1 + 0 + 2) / 4 is 1,
    // (255 + 254 + 255 + 254 + 2) / 4 is 255, and (1 + 255 + 1) / 2 is 128
    let first = level(alloc, 4, 2, &[0, 1, 255, 254, 1, 0, 255, 254])?;
    let mut set = ImageSet::empty();
    set.levels[0] = Some(first);
    let blanks = blank_levels(alloc, 4, 2, BaseFormat::Rgb)?;
    assert_eq!(rt; blanks.len(), 2);
    // 2 by 1 and 1 by 1 texels
    assert_eq!(rt; mipmap_bytes(4, 2), 12);
    remake(&mut set, blanks);
    let wanted: [(usize, usize, Option<u32>); 5] = [
        (1, 0, Some(1)),
        (1, 1, Some(255)),
        (1, 2, None),
        (2, 0, Some(128)),
        (2, 1, None),
    ];
    for (k, place, want) in wanted {
        let found = match set.levels.get(k) {
            Some(Some(level)) => level.texels.as_slice().get(place).copied(),
            _ => None,
        };
        assert_eq!(rt; found, want, "level {k}, texel {place}");
    }
    Ok(())
}

#[test]
fn levels_given_anew_and_what_they_count(rt: HostRuntime) -> Result<(), Fail> {
    let alloc = rt.alloc();
    let mut set = ImageSet::empty();
    put_level(&mut set, 3, level(alloc, 1, 1, &[9])?);
    let mut levels = Vec::new(alloc);
    levels.push(level(alloc, 2, 1, &[1, 2])?)?;
    levels.push(level(alloc, 1, 1, &[3])?)?;
    put_levels(&mut set, levels);
    assert_eq!(rt; set.bytes(), 16);
    // behind a level of 2 by 1 texels: one of 1 by 1, and level 3, which stays
    assert_eq!(rt; bytes_behind(&set, 2, 1), 8);
    // behind one of 16 by 1: 8, 4, 2 and 1 texels, level 3 among them
    assert_eq!(rt; bytes_behind(&set, 16, 1), 60);
    Ok(())
}
