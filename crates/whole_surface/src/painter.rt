//! A primitive on one tile.
ghost use Rattle.std.specs.Prelude.{◌≡◌, ◌≤◌};
ghost use Rattle.gl_records.specs.Fragment.{blend as blend_of};
ghost use Rattle.texture_env.specs.Shaders.{primitive_on};

use crate::drawing::Drawing;
use crate::over::over;
use crate::stages::Finish;
use fragment_ops::blend;
use gl_records::{GREATEST_SIDE, TileRect};
use interpolation::TileDepths;
use std::marker::Model;

/// A primitive on one tile.
#[derive(Drop)]
pub struct Painter<'a> {
    pub drawing: &'a Drawing<'a>,
    rect: TileRect,
}

impl<'a> Model for Painter<'a> {
    ghost use Rattle.std.specs.Prelude.{◌≤◌};
    ghost use Rattle.gl_records.specs.declared.size.TheConstants.{GREATEST_SIDE};
    ghost use Rattle.texture_env.specs.Shaders.{OnTile};

    ghost Value = { OnTile };

    ghost view = { λ p. record { subject = p.drawing.now; rect = p.rect } };

    ghost invariant = { λ p. (p.rect.x0 ≤ GREATEST_SIDE) × (p.rect.y0 ≤ GREATEST_SIDE) };
}

impl<'a> Painter<'a> {
    pub fn new(drawing: &'a Drawing<'a>, rect: TileRect) -> Painter<'a>
        requires column { rect.x0 ≤ GREATEST_SIDE }
        requires band { rect.y0 ≤ GREATEST_SIDE }
        ensures { result ≡ record { subject = drawing.now; rect = rect } }
    {
        Painter { drawing, rect }
    }

    /// The primitive's depths there.
    pub fn depths(&self) -> TileDepths<'a>
        ensures { result ≡ primitive_on self.now }
    {
        let drawing = self.drawing;
        drawing.depths(self.rect)
    }

    /// The colour of the pixel after a fragment of this colour that passes.
    pub fn finished(&self, color: [u8; 4], under: [u8; 4]) -> [u8; 4]
        ensures { result ≡ blend_of self.now.subject.state color under }
    {
        let drawing = self.drawing;
        finish(drawing, color, under)
    }
}

fn finish(drawing: &Drawing<'_>, color: [u8; 4], under: [u8; 4]) -> [u8; 4]
    ensures { result ≡ blend_of drawing.now.state color under }
{
    match drawing.finish {
        Finish::Copied => color,
        Finish::Over => over(color, under),
        Finish::Any => blend(drawing.state, color, under),
    }
}
