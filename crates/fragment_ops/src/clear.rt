ghost use Rattle.std.specs.Prelude.{◌≡◌};
ghost use Rattle.gl_records.specs.Clear.{clear_step as pixel_after};

use crate::color_mask::masked;
use gl_records::{ClearItem, Pixel};

/// The pixel after a Clear whose area holds it (OpenGL ES 1.1.12, 4.2.3).
pub fn clear_step(c: &ClearItem, p: Pixel) -> Pixel
    ensures { result ≡ pixel_after c.now p }
{
    let under = p.rgba;
    let rgba = match &c.color {
        Some(part) => masked(&part.0, &part.1, &under),
        None => under,
    };
    let z = c.depth.unwrap_or(p.z);
    let s = match c.stencil {
        Some((value, mask)) => (p.s & (mask ^ 0xff)) | (value & mask),
        None => p.s,
    };
    Pixel { rgba, z, s }
}
