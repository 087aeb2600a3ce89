//! A brush for any state of fragments.
ghost use Rattle.std.specs.Prelude.{◌≡◌, ◌+◌, ◌<◌, pos, IsSome, IsTrue, None, false};
ghost use Rattle.gl_records.specs.Depth.{depth as depth_of};
ghost use Rattle.whole_surface.specs.Asked.{IsUnasked};
ghost use Rattle.whole_surface.specs.Stages.{AreAskedDepths};
ghost use Rattle.whole_surface.specs.Subjects.{covered_on, drawn_with};

use crate::brush::Brush;
use crate::painter::Painter;
use fragment_ops::{pixel_step, tests};
use gl_records::{Frag, Pixel};
use interpolation::TileDepths;
use std::marker::Model;

/// Takes each fragment through all stages.
#[derive(Drop)]
pub struct AllStages<'a> {
    painter: &'a Painter<'a>,
    /// There where the depth test is on.
    depths: Option<TileDepths<'a>>,
}

impl<'a> Model for AllStages<'a> {
    ghost use Rattle.texture_env.specs.Shaders.{OnTile};

    ghost Value = { OnTile };

    ghost use Rattle.whole_surface.specs.Stages.{AreAskedDepths};

    ghost view = { λ a. a.painter.now };

    ghost invariant = { λ a. AreAskedDepths a.painter.now a.depths };
}

impl<'a> AllStages<'a> {
    pub fn new(painter: &'a Painter<'a>) -> AllStages<'a>
        ensures { result ≡ painter.now }
    {
        AllStages {
            painter,
            depths: asked_depths(painter),
        }
    }

    /// The depth where the depth test is on, and any depth where it is off.
    fn asked_depth(&self, column: u16, row: u16) -> u32
        requires column { column < 16 }
        requires row { row < 16 }
        requires covered { IsTrue (covered_on self.now column row) }
        ensures { IsSome self.now.subject.state.depth
            → result ≡ depth_of self.now.subject.prim (pos (self.now.rect.x0 + column)) (pos (self.now.rect.y0 + row)) }
    {
        match &self.depths {
            Some(depths) => depths.depth(column, row),
            None => 0,
        }
    }

    /// Whether the fragment passes the tests, of which the alpha test is none.
    fn passes(&self, column: u16, row: u16, pixel: Pixel) -> bool
        requires column { column < 16 }
        requires row { row < 16 }
        requires covered { IsTrue (covered_on self.now column row) }
        requires no_alpha_test { self.now.subject.state.alpha ≡ None }
        ensures { result ≡ false → IsUnasked self.now column row false pixel }
    {
        let z = self.asked_depth(column, row);
        let painter = self.painter;
        let drawing = painter.drawing;
        tests(drawing.state, Frag { rgba: [0; 4], z }, pixel).0
    }

    fn after(&self, column: u16, row: u16, rgba: [u8; 4], under: Pixel) -> Pixel
        requires column { column < 16 }
        requires row { row < 16 }
        requires covered { IsTrue (covered_on self.now column row) }
        ensures { result ≡ drawn_with self.now column row rgba under }
    {
        let z = self.asked_depth(column, row);
        let painter = self.painter;
        let drawing = painter.drawing;
        pixel_step(drawing.state, Frag { rgba, z }, under)
    }
}

fn asked_depths<'a>(painter: &Painter<'a>) -> Option<TileDepths<'a>>
    ensures { AreAskedDepths painter.now result }
{
    let drawing = painter.drawing;
    if drawing.state.depth.is_some() {
        Some(painter.depths())
    } else {
        None
    }
}

impl<'a> Brush for AllStages<'a> {
    ghost on = { λ a. a };

    ghost keeps = { false };

    fn keeps_unasked(&self) -> bool {
        false
    }

    /// The alpha test goes by the colour.
    fn asks_for_all(&self) -> bool {
        let painter = self.painter;
        let drawing = painter.drawing;
        drawing.state.alpha.is_some()
    }

    fn asks(&self, column: u16, row: u16, pixel: &Pixel) -> bool {
        let painter = self.painter;
        let drawing = painter.drawing;
        if drawing.state.alpha.is_some() {
            true
        } else {
            self.passes(column, row, *pixel)
        }
    }

    fn paint(&self, column: u16, row: u16, color: [u8; 4], pixel: &mut Pixel) {
        *pixel = self.after(column, row, color, *pixel);
    }
}
