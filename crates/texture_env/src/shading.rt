//! The colour of a primitive at a pixel.
ghost use Rattle.std.specs.Prelude.{◌≡◌, pos, ◌≤◌, ◌≤ℤ◌, IsTrue};
ghost use Rattle.std.specs.Option.{option_copied};
ghost use Rattle.gl_records.specs.Coverage.{covers};
ghost use Rattle.gl_records.specs.Shading.{AreReadable, shaded};
ghost use Rattle.gl_records.specs.Valid.{IsInRange};

use crate::fog::fogged;
use crate::shader::Shader;
use crate::unit::textured;
use gl_records::{FragState, GREATEST_SIDE, ImageSet, Prim, TileRect};
use interpolation::{interpolated_color, shares_at};

/// The colour of a primitive at pixel (x, y), which it covers, in a state of fragments with the images of the two units
/// (OpenGL ES 1.1.12, 3.7 and 3.8): prepared for that pixel alone, where it is one that a surface can have.
pub fn shade<'a>(
    state: &'a FragState,
    first: Option<&'a ImageSet>,
    second: Option<&'a ImageSet>,
    prim: &'a Prim,
    x: i32,
    y: i32,
) -> [u8; 4]
    requires in_range { IsInRange prim.now }
    requires covered { IsTrue (covers prim.now x y) }
    requires images { AreReadable state.now (option_copied first) (option_copied second) }
    ensures { result ≡ shaded state.now (option_copied first.entry) (option_copied second.entry) prim.now x y }
{
    if is_on_surface(x) && is_on_surface(y) {
        shade_prepared(state, first, second, prim, x as u16, y as u16)
    } else {
        shade_plainly(state, first, second, prim, x, y)
    }
}

/// Whether a surface can have this column or row.
fn is_on_surface(place: i32) -> bool
    ensures { IsTrue result → (pos 0 ≤ℤ place) × (place ≤ℤ pos GREATEST_SIDE) }
{
    0 <= place && place <= i32::from(GREATEST_SIDE)
}

fn shade_prepared<'a>(
    state: &'a FragState,
    first: Option<&'a ImageSet>,
    second: Option<&'a ImageSet>,
    prim: &'a Prim,
    x: u16,
    y: u16,
) -> [u8; 4]
    requires in_range { IsInRange prim.now }
    requires covered { IsTrue (covers prim.now (pos x) (pos y)) }
    requires images { AreReadable state.now (option_copied first) (option_copied second) }
    requires column { x ≤ GREATEST_SIDE }
    requires row { y ≤ GREATEST_SIDE }
    ensures { result ≡ shaded state.now (option_copied first.entry) (option_copied second.entry) prim.now (pos x) (pos y) }
{
    let shader = Shader::new(state, first, second, prim);
    shader.on_tile(TileRect { x0: x, y0: y }).color(0, 0)
}

/// [`shade`] by the corners' shares at the pixel, with nothing prepared.
#[tactic(auto, unfolding(gl_records::specs::Shading::shaded))]
pub fn shade_plainly(
    state: &FragState,
    first: Option<&ImageSet>,
    second: Option<&ImageSet>,
    prim: &Prim,
    x: i32,
    y: i32,
) -> [u8; 4]
    requires in_range { IsInRange prim.now }
    requires covered { IsTrue (covers prim.now x y) }
    requires images { AreReadable state.now (option_copied first) (option_copied second) }
    ensures { result ≡ shaded state.now (option_copied first.entry) (option_copied second.entry) prim.now x y }
{
    let shares = shares_at(prim, x, y);
    let primary = interpolated_color(prim, &shares);
    let below = textured(&state.units[0], first, prim, 0, &shares, primary, primary);
    let color = textured(&state.units[1], second, prim, 1, &shares, primary, below);
    fogged(state.fog, prim, &shares, color)
}
