//! Where the colours of a primitive's fragments come from on one tile.
ghost use Rattle.std.specs.Prelude.{◌≡◌, ◌+◌, ◌<◌};
ghost use Rattle.texture_env.specs.Lines.{AreLinesOf};
ghost use Rattle.texture_env.specs.Rows.{AreCovered, HaveColors};
ghost use Rattle.texture_env.specs.Shaders.{OnTile, color_of, primitive_on};
ghost use Rattle.whole_surface.specs.Paints.{IsShadedAs};

use crate::drawing::Drawing;
use gl_records::TileRect;
use std::marker::Model;
use texture_env::{Lines, TileShader};

pub trait Source: Drop {
    // the primitive on its tile
    ghost on: { Self → OnTile };

    /// Whether each colour is found by itself, so that those that nobody asks for are better left out.
    fn finds_each(&self) -> bool;

    /// The colours at the pixels of a row of the tile whose bits are set, all of which the primitive covers. The others
    /// are anything.
    fn colors(&self, bits: u16, row: u16, lines: &mut Lines, colors: &mut [[u8; 4]; 16])
        requires row { row < 16 }
        requires covered { AreCovered (on self.now) bits row }
        requires lines { AreLinesOf (primitive_on (on self.now)) lines.old }
        ensures colors { HaveColors bits (λ i. color_of (on self.now).subject ((on self.now).rect.x0 + i) ((on self.now).rect.y0 + row)) colors.new }
        ensures lines { AreLinesOf (primitive_on (on self.now)) lines.new };
}

impl<'a> Source for TileShader<'a> {
    ghost on = { λ t. t };

    fn finds_each(&self) -> bool {
        true
    }

    fn colors(&self, bits: u16, row: u16, lines: &mut Lines, colors: &mut [[u8; 4]; 16]) {
        self.colors(bits, row, lines, colors);
    }
}

/// One colour for all pixels.
#[derive(Drop)]
pub struct OneColor<'a> {
    drawing: &'a Drawing<'a>,
    rect: TileRect,
    color: [u8; 4],
}

impl<'a> Model for OneColor<'a> {
    ghost use Rattle.texture_env.specs.Shaders.{OnTile};

    ghost Value = { OnTile };

    ghost use Rattle.whole_surface.specs.Paints.{IsShadedAs};

    ghost view = { λ one. record { subject = one.drawing.now; rect = one.rect } };

    ghost invariant = { λ one. IsShadedAs one.drawing.now one.color };
}

impl<'a> OneColor<'a> {
    pub fn new(drawing: &'a Drawing<'a>, rect: TileRect, color: [u8; 4]) -> OneColor<'a>
        requires { IsShadedAs drawing.now color }
        ensures { result ≡ record { subject = drawing.now; rect = rect } }
    {
        OneColor {
            drawing,
            rect,
            color,
        }
    }
}

impl<'a> Source for OneColor<'a> {
    ghost on = { λ one. one };

    fn finds_each(&self) -> bool {
        false
    }

    fn colors(&self, _bits: u16, _row: u16, _lines: &mut Lines, colors: &mut [[u8; 4]; 16]) {
        *colors = [self.color; 16];
    }
}
