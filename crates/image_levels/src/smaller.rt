//! One level made of the one before it.
ghost use Rattle.std.specs.Prelude.{◌≡◌, ◌+◌, ◌*◌, ◌/◌, ◌<◌, ◌≤◌, ◌^◌, ℕ, length, slice_index};
ghost use Rattle.gl_records.specs.Complete.{halved as halved_side};
ghost use Rattle.image_levels.specs.Mipmaps.{mean_of_four, mean_of_two, smaller_level, smaller_texel};
ghost use Rattle.image_levels.specs.Texels.{IsFilled, texel_of, texels_by};

use gl_records::Level;

/// Half of the sum of two components, rounded to the nearest.
fn mean_two(a: u8, b: u8) -> u8
    ensures { result ≡ (a + b + 1) / 2 }
{
    ((u16::from(a) + u16::from(b) + 1) / 2) as u8
}

/// A quarter of the sum of four components, rounded to the nearest.
fn mean_four(a: u8, b: u8, c: u8, d: u8) -> u8
    ensures { result ≡ (a + b + c + d + 2) / 4 }
{
    ((u16::from(a) + u16::from(b) + u16::from(c) + u16::from(d) + 2) / 4) as u8
}

/// The mean of two texels, component by component.
fn mean_of_two(a: u32, b: u32) -> u32
    ensures { result ≡ mean_of_two a b }
{
    let (a, b) = (a.to_le_bytes(), b.to_le_bytes());
    u32::from_le_bytes([
        mean_two(a[0], b[0]),
        mean_two(a[1], b[1]),
        mean_two(a[2], b[2]),
        mean_two(a[3], b[3]),
    ])
}

/// The mean of four texels, component by component.
fn mean_of_four(a: u32, b: u32, c: u32, d: u32) -> u32
    ensures { result ≡ mean_of_four a b c d }
{
    let (a, b) = (a.to_le_bytes(), b.to_le_bytes());
    let (c, d) = (c.to_le_bytes(), d.to_le_bytes());
    u32::from_le_bytes([
        mean_four(a[0], b[0], c[0], d[0]),
        mean_four(a[1], b[1], c[1], d[1]),
        mean_four(a[2], b[2], c[2], d[2]),
        mean_four(a[3], b[3], c[3], d[3]),
    ])
}

/// The texel in column `x` and row `y` of a level of `w` by `h`.
fn texel(texels: &[u32], w: u16, h: u16, x: usize, y: usize) -> u32
    requires filled { length texels.now ≡ w * h }
    requires column { x < w }
    requires row { y < h }
    ensures { result ≡ texel_of w texels.now x y }
{
    texels[y * usize::from(w) + x]
}

/// The texel in column `x` and row `y` of the level behind one of `w` by `h`, which isn't 1 by 1.
fn smaller_texel(texels: &[u32], w: u16, h: u16, x: usize, y: usize) -> u32
    requires filled { length texels.now ≡ w * h }
    requires larger { 2 ≤ w * h }
    requires column { x < halved_side w 1 }
    requires row { y < halved_side h 1 }
    ensures { result ≡ smaller_texel w h texels.now x y }
{
    if w == 1 {
        mean_of_two(
            texel(texels, w, h, 0, 2 * y),
            texel(texels, w, h, 0, 2 * y + 1),
        )
    } else if h == 1 {
        mean_of_two(
            texel(texels, w, h, 2 * x, 0),
            texel(texels, w, h, 2 * x + 1, 0),
        )
    } else {
        mean_of_four(
            texel(texels, w, h, 2 * x, 2 * y),
            texel(texels, w, h, 2 * x + 1, 2 * y),
            texel(texels, w, h, 2 * x, 2 * y + 1),
            texel(texels, w, h, 2 * x + 1, 2 * y + 1),
        )
    }
}

/// A side of level `k` of an image, where the same side of level 0 is `side`.
pub(crate) fn halved(side: u16, k: u8) -> u16
    requires { k < 16 }
    ensures { result ≡ halved_side side k }
{
    (side >> k).max(1)
}

/// Writes row `y` of the level behind one of `w` by `h`; the rows below it stay.
fn put_smaller_row(texels: &[u32], w: u16, h: u16, y: usize, into: &mut [u32])
    requires filled { length texels.now ≡ w * h }
    requires larger { 2 ≤ w * h }
    requires row { y < halved_side h 1 }
    requires count { length into.old ≡ halved_side w 1 * halved_side h 1 }
    ensures count { length into.new ≡ length into.old }
    ensures made { (x : ℕ) → x < halved_side w 1 → texel_of (halved_side w 1) into.new x y ≡ smaller_texel w h texels.now x y }
    ensures below { (k : ℕ) → k < y * halved_side w 1 → slice_index into.new k ≡ slice_index into.old k }
{
    let across = usize::from(halved(w, 1));
    for x in 0..across {
        into[y * across + x] = smaller_texel(texels, w, h, x, y);
    }
}

/// Writes the texels of the level behind one of `w` by `h`.
fn put_smaller(texels: &[u32], w: u16, h: u16, into: &mut [u32])
    requires filled { length texels.now ≡ w * h }
    requires larger { 2 ≤ w * h }
    requires count { length into.old ≡ halved_side w 1 * halved_side h 1 }
    ensures { into.new ≡ texels_by (halved_side w 1) (halved_side h 1) (smaller_texel w h texels.now) }
{
    for y in 0..usize::from(halved(h, 1)) {
        put_smaller_row(texels, w, h, y, into);
    }
}

/// Makes a level the one behind another, which isn't 1 by 1. It has the sides and the format of that level already,
/// and as many texels, in whose places the new ones are written.
pub(crate) fn put_smaller_level(level: &Level, into: &mut Level)
    requires filled { IsFilled level.now }
    requires larger { 2 ≤ level.now.w * level.now.h }
    requires w { into.old.w ≡ halved_side level.now.w 1 }
    requires h { into.old.h ≡ halved_side level.now.h 1 }
    requires format { into.old.format ≡ level.now.format }
    requires count { IsFilled into.old }
    ensures { into.new ≡ smaller_level level.now }
{
    let texels = level.texels.as_slice();
    put_smaller(texels, level.w, level.h, into.texels.as_mut_slice());
}
