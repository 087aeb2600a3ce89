//! A primitive, and what it fixes for all of the pixels that it covers.
ghost use Rattle.std.specs.Prelude.{◌≡◌, ◌≤◌};
ghost use Rattle.gl_records.specs.Shading.{AreReadable};
ghost use Rattle.gl_records.specs.Valid.{IsInRange};
ghost use Rattle.whole_surface.specs.Paints.{AreColorsOf, is_shaded as is_shaded_of};

use crate::images::Images;
use crate::stages::{Finish, Tests};
use gl_records::{FragState, GREATEST_SIDE, Prim, TileRect};
use interpolation::{TileDepths, flat_color};
use std::marker::Model;
use texture_env::Shader;

/// How the colours of a primitive's fragments are found.
#[derive(Drop)]
pub enum Colors<'a> {
    /// All have this one.
    One([u8; 4]),
    /// Each is found at its pixel.
    Shaded(Shader<'a>),
}

/// A primitive that is drawn, in a state of fragments and with the images of both units, and how its pixels are written.
#[derive(Drop)]
pub struct Drawing<'a> {
    pub prim: &'a Prim,
    pub state: &'a FragState,
    pub images: &'a Images<'a>,
    pub colors: Colors<'a>,
    pub tests: Tests,
    pub finish: Finish,
}

impl<'a> Model for Drawing<'a> {
    ghost use Rattle.texture_env.specs.Shaders.{Subject};

    ghost Value = { Subject };

    ghost use Rattle.whole_surface.specs.Paints.{IsDrawing};

    ghost view = { λ d. record { state = d.state.now; first = d.images.now.first; second = d.images.now.second; prim = d.prim.now } };

    ghost invariant = { λ d. IsDrawing (record { state = d.state.now; first = d.images.now.first; second = d.images.now.second; prim = d.prim.now }) d.colors d.tests d.finish };
}

impl<'a> Drawing<'a> {
    pub fn new(prim: &'a Prim, state: &'a FragState, images: &'a Images<'a>) -> Drawing<'a>
        requires in_range { IsInRange prim.now }
        requires readable { AreReadable state.now images.now.first images.now.second }
        ensures { result ≡ record { state = state.now; first = images.now.first; second = images.now.second; prim = prim.now } }
    {
        Drawing {
            prim,
            state,
            images,
            colors: colors_of(prim, state, images),
            tests: Tests::of(state),
            finish: Finish::of(state),
        }
    }

    /// The primitive's depths on the tile with this lower left pixel.
    pub fn depths(&self, rect: TileRect) -> TileDepths<'a>
        requires column { rect.x0 ≤ GREATEST_SIDE }
        requires band { rect.y0 ≤ GREATEST_SIDE }
        ensures { result ≡ record { prim = self.now.prim; rect = rect } }
    {
        TileDepths::new(self.prim, rect)
    }
}

fn colors_of<'a>(prim: &'a Prim, state: &'a FragState, images: &'a Images<'a>) -> Colors<'a>
    requires in_range { IsInRange prim.now }
    requires readable { AreReadable state.now images.now.first images.now.second }
    ensures { AreColorsOf result (record { state = state.now; first = images.now.first; second = images.now.second; prim = prim.now }) }
{
    if is_shaded(state) {
        return Colors::Shaded(images.shader(prim, state));
    }
    match flat_color(prim) {
        Some(color) => Colors::One(color),
        None => Colors::Shaded(images.shader(prim, state)),
    }
}

/// Whether a texture unit or fog is on.
fn is_shaded(state: &FragState) -> bool
    ensures { result ≡ is_shaded_of state.now }
{
    state.units[0].is_some() || state.units[1].is_some() || state.fog.is_some()
}
