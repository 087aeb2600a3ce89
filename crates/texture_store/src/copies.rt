//! A copy of an image, for a write while a pass names it.
ghost use Rattle.std.specs.Prelude.{◌≡◌, ◌<◌, ◌≤◌, None, ℕ, IfOk, OnOk, slice_index_or};

use gl_records::{ImageSet, Level, Texels};
use std::alloc::{AllocError, Global};

fn copied_level(alloc: Global, level: &Option<Level>) -> Result<Option<Level>, AllocError>
    ensures { IfOk result (λ copy. copy ≡ level.now) }
{
    match level {
        Some(level) => {
            let texels = Vec::from_slice(alloc, level.texels.as_slice())?;
            Ok(Some(Level {
                w: level.w,
                h: level.h,
                format: level.format,
                texels: Texels::new(texels),
            }))
        }
        None => Ok(None),
    }
}

fn copy_levels(
    alloc: Global,
    levels: &[Option<Level>; 11],
    into: &mut [Option<Level>; 11],
) -> Result<(), AllocError>
    ensures { OnOk result (into.new ≡ levels.now) }
{
    for k in 0..11 {
        into[k] = copied_level(alloc, &levels[k])?;
    }
    Ok(())
}

/// A copy of an image.
pub(crate) fn copied(alloc: Global, image: &ImageSet) -> Result<ImageSet, AllocError>
    ensures { IfOk result (λ copy. copy ≡ image.now) }
{
    let mut copy = ImageSet::empty();
    copy_levels(alloc, &image.levels, &mut copy.levels)?;
    Ok(copy)
}
