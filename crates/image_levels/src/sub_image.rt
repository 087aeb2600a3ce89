//! Sub-images, row by row.
ghost use Rattle.std.specs.Prelude.{◌≡◌, ◌+◌, ◌*◌, ◌<◌, ◌≤◌, None, ℕ, length, slice_index, slice_index_or, slice_set};
ghost use Rattle.gl_records.specs.Complete.{level_at};
ghost use Rattle.image_levels.specs.SubImage.{Holds, IsInside, replaced_texels, sub_image_of, with_sub_image, with_sub_image_in};
ghost use Rattle.image_levels.specs.Texels.{IsFilled, texel_of};

use crate::texel_box::TexelBox;
use gl_records::{ImageSet, Level};

/// Writes one row of texels from a place on.
fn put_row(into: &mut [u32], start: usize, row: &[u32])
    requires inside { start + length row.now ≤ length into.old }
    ensures count { length into.new ≡ length into.old }
    ensures written { (k : ℕ) → k < length row.now → slice_index into.new (start + k) ≡ slice_index row.now k }
    ensures before { (k : ℕ) → k < start → slice_index into.new k ≡ slice_index into.old k }
    ensures behind { (k : ℕ) → start + length row.now ≤ k → slice_index into.new k ≡ slice_index into.old k }
{
    into[start..start + row.len()].copy_from_slice(row);
}

/// Row `y` of rows of `across` texels.
fn row_of(texels: &[u32], across: usize, y: usize) -> &[u32]
    requires inside { y * across + across ≤ length texels.now }
    ensures count { length result.now ≡ across }
    ensures each { (x : ℕ) → x < across → slice_index result.now x ≡ texel_of across texels.now x y }
{
    &texels[y * across..y * across + across]
}

/// Writes the texels of an area into those of a level of `across` by `up`.
fn put_rows(into: &mut [u32], across: u16, up: u16, area: TexelBox, texels: &[u32])
    requires filled { length into.old ≡ across * up }
    requires inside { IsInside area across up }
    requires count { length texels.now ≡ area.w * area.h }
    ensures value { into.new ≡ replaced_texels across up area into.old texels.now }
    ensures count { length into.new ≡ across * up }
{
    let (w, h) = (usize::from(area.w), usize::from(area.h));
    let (x, y) = (usize::from(area.x), usize::from(area.y));
    for row in 0..h {
        let start = (y + row) * usize::from(across) + x;
        put_row(into, start, row_of(texels, w, row));
    }
}

/// Writes the texels of an area into a level, as TexSubImage2D does (OpenGL ES 1.1.12, 3.7.2). They stand by rows
/// from the bottom, and no other texel is touched.
pub fn put_texels(level: &mut Level, area: TexelBox, texels: &[u32])
    requires filled { IsFilled level.old }
    requires inside { IsInside area level.old.w level.old.h }
    requires count { length texels.now ≡ area.w * area.h }
    ensures value { level.new ≡ with_sub_image level.old area texels.now }
    ensures filled { IsFilled level.new }
{
    put_rows(level.texels.as_mut_slice(), level.w, level.h, area, texels)
}

/// Writes the texels of an area into level `k` of an image, where it stands.
fn put_in_level(levels: &mut [Option<Level>; 11], k: u8, area: TexelBox, texels: &[u32])
    requires k { k < 11 }
    requires holds { Holds (slice_index_or levels.old k None) area }
    requires count { length texels.now ≡ area.w * area.h }
    ensures { levels.new ≡ slice_set levels.old k (sub_image_of (slice_index_or levels.old k None) area texels.now) }
{
    match &mut levels[usize::from(k)] {
        Some(level) => put_texels(level, area, texels),
        None => unreachable!(),
    }
}

/// Writes the texels of an area into level `k` of an image, as TexSubImage2D does (OpenGL ES 1.1.12, 3.7.2).
pub fn put_sub_image(set: &mut ImageSet, k: u8, area: TexelBox, texels: &[u32])
    requires k { k < 11 }
    requires holds { Holds (level_at set.old k) area }
    requires count { length texels.now ≡ area.w * area.h }
    ensures { set.new ≡ with_sub_image_in set.old k area texels.now }
{
    put_in_level(&mut set.levels, k, area, texels)
}
