//! Brushes for states without the alpha test and the stencil test.
ghost use Rattle.std.specs.Prelude.{◌≡◌, true, if◌then◌else◌};
ghost use Rattle.gl_records.specs.Comparison.{passes as passes_of};
ghost use Rattle.texture_env.specs.Shaders.{primitive_on};
ghost use Rattle.whole_surface.specs.Stages.{AreTestsOf, IsFinishOf, nearer};
ghost use Rattle.whole_surface.specs.declared.stages.Finish.TheVariants as finish;
ghost use Rattle.whole_surface.specs.declared.stages.Tests.TheVariants as tests;

use crate::brush::Brush;
use crate::depth_source::DepthSource;
use crate::painter::Painter;
use gl_records::Pixel;
use std::marker::Model;

/// No test, and the pixel takes the colour as it is.
#[derive(Drop)]
pub struct Copying<'a> {
    painter: &'a Painter<'a>,
}

impl<'a> Model for Copying<'a> {
    ghost use Rattle.texture_env.specs.Shaders.{OnTile};

    ghost Value = { OnTile };

    ghost use Rattle.whole_surface.specs.Stages.{AreTestsOf, IsFinishOf};
    ghost use Rattle.whole_surface.specs.declared.stages.Finish.TheVariants as finish;
    ghost use Rattle.whole_surface.specs.declared.stages.Tests.TheVariants as tests;

    ghost view = { λ c. c.painter.now };

    ghost invariant = { λ c. AreTestsOf tests.None c.painter.now.subject.state × IsFinishOf finish.Copied c.painter.now.subject.state };
}

impl<'a> Copying<'a> {
    pub fn new(painter: &'a Painter<'a>) -> Copying<'a>
        requires untested { AreTestsOf tests.None painter.now.subject.state }
        requires copied { IsFinishOf finish.Copied painter.now.subject.state }
        ensures { result ≡ painter.now }
    {
        Copying { painter }
    }
}

impl<'a> Brush for Copying<'a> {
    ghost on = { λ c. c };

    ghost keeps = { true };

    fn keeps_unasked(&self) -> bool {
        true
    }

    fn asks_for_all(&self) -> bool {
        true
    }

    fn asks(&self, _column: u16, _row: u16, _pixel: &Pixel) -> bool {
        true
    }

    fn paint(&self, _column: u16, _row: u16, color: [u8; 4], pixel: &mut Pixel) {
        let _ = &self.painter;
        pixel.rgba = color;
    }
}

/// No test.
#[derive(Drop)]
pub struct Blending<'a> {
    painter: &'a Painter<'a>,
}

impl<'a> Model for Blending<'a> {
    ghost use Rattle.texture_env.specs.Shaders.{OnTile};

    ghost Value = { OnTile };

    ghost use Rattle.whole_surface.specs.Stages.{AreTestsOf};
    ghost use Rattle.whole_surface.specs.declared.stages.Tests.TheVariants as tests;

    ghost view = { λ b. b.painter.now };

    ghost invariant = { λ b. AreTestsOf tests.None b.painter.now.subject.state };
}

impl<'a> Blending<'a> {
    pub fn new(painter: &'a Painter<'a>) -> Blending<'a>
        requires { AreTestsOf tests.None painter.now.subject.state }
        ensures { result ≡ painter.now }
    {
        Blending { painter }
    }
}

impl<'a> Brush for Blending<'a> {
    ghost on = { λ b. b };

    ghost keeps = { true };

    fn keeps_unasked(&self) -> bool {
        true
    }

    fn asks_for_all(&self) -> bool {
        true
    }

    fn asks(&self, _column: u16, _row: u16, _pixel: &Pixel) -> bool {
        true
    }

    fn paint(&self, _column: u16, _row: u16, color: [u8; 4], pixel: &mut Pixel) {
        pixel.rgba = self.painter.finished(color, pixel.rgba);
    }
}

/// The depth test alone, by less or by less or equal.
#[derive(Drop)]
pub struct Nearer<'a, D: DepthSource> {
    painter: &'a Painter<'a>,
    depths: D,
    equal: bool,
    write: bool,
}

impl<'a, D: DepthSource> Model for Nearer<'a, D> {
    ghost use Rattle.std.specs.Prelude.{◌≡◌};
    ghost use Rattle.texture_env.specs.Shaders.{OnTile, primitive_on};

    ghost Value = { OnTile };

    ghost use Rattle.whole_surface.specs.Stages.{AreTestsOf};
    ghost use Rattle.whole_surface.specs.declared.stages.Tests.TheVariants as tests;

    ghost view = { λ n. n.painter.now };

    ghost invariant = { λ n. AreTestsOf (tests.Nearer n.equal n.write) n.painter.now.subject.state
        × (D.deep n.depths ≡ primitive_on n.painter.now) };
}

impl<'a, D: DepthSource> Nearer<'a, D> {
    pub fn new(painter: &'a Painter<'a>, depths: D, equal: bool, write: bool) -> Nearer<'a, D>
        requires tests { AreTestsOf (tests.Nearer equal write) painter.now.subject.state }
        requires depths { D.deep depths ≡ primitive_on painter.now }
        ensures { result ≡ painter.now }
    {
        Nearer {
            painter,
            depths,
            equal,
            write,
        }
    }
}

impl<'a, D: DepthSource> Brush for Nearer<'a, D> {
    ghost on = { λ n. n };

    ghost keeps = { true };

    fn keeps_unasked(&self) -> bool {
        true
    }

    fn asks_for_all(&self) -> bool {
        false
    }

    fn asks(&self, column: u16, row: u16, pixel: &Pixel) -> bool {
        is_nearer(self.equal, self.depths.depth_at(column, row), pixel.z)
    }

    fn paint(&self, column: u16, row: u16, color: [u8; 4], pixel: &mut Pixel) {
        let z = self.depths.depth_at(column, row);
        if is_nearer(self.equal, z, pixel.z) {
            pixel.rgba = self.painter.finished(color, pixel.rgba);
            pixel.z = written(self.write, z, pixel.z);
        }
    }
}

fn is_nearer(equal: bool, z: u32, stored: u32) -> bool
    ensures { result ≡ passes_of (nearer equal) z stored }
{
    if equal { z <= stored } else { z < stored }
}

fn written(write: bool, z: u32, stored: u32) -> u32
    ensures { result ≡ (if write then z else stored) }
{
    if write { z } else { stored }
}
