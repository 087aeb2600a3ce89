//! Where the depths of a primitive's fragments come from on one tile.
ghost use Rattle.std.specs.Prelude.{◌≡◌, pos, ◌+◌, ◌<◌, IsTrue};
ghost use Rattle.gl_records.specs.Coverage.{covers};
ghost use Rattle.gl_records.specs.Depth.{depth as depth_of};
ghost use Rattle.interpolation.specs.Depths.{IsLevel};
ghost use Rattle.interpolation.specs.TileValues.{OnTile as PrimitiveOnTile};

use interpolation::TileDepths;
use std::marker::Model;

pub trait DepthSource: Drop {
    // the primitive on its tile
    ghost deep: { Self → PrimitiveOnTile };

    /// The depth at the pixel in this column and row of the tile, which the primitive covers.
    fn depth_at(&self, column: u16, row: u16) -> u32
        requires column { column < 16 }
        requires row { row < 16 }
        requires covered { IsTrue (covers (deep self.now).prim (pos ((deep self.now).rect.x0 + column)) (pos ((deep self.now).rect.y0 + row))) }
        ensures { result ≡ depth_of (deep self.now).prim (pos ((deep self.now).rect.x0 + column)) (pos ((deep self.now).rect.y0 + row)) };
}

impl<'a> DepthSource for TileDepths<'a> {
    ghost deep = { λ t. t };

    fn depth_at(&self, column: u16, row: u16) -> u32 {
        self.depth(column, row)
    }
}

/// One depth for all pixels.
#[derive(Drop)]
pub struct OneDepth<'a> {
    depths: &'a TileDepths<'a>,
    z: u32,
}

impl<'a> Model for OneDepth<'a> {
    ghost use Rattle.interpolation.specs.Depths.{IsLevel};
    ghost use Rattle.interpolation.specs.TileValues.{OnTile};

    ghost Value = { OnTile };

    ghost view = { λ one. one.depths.now };

    ghost invariant = { λ one. IsLevel one.depths.now.prim one.z };
}

impl<'a> OneDepth<'a> {
    pub fn new(depths: &'a TileDepths<'a>, z: u32) -> OneDepth<'a>
        requires { IsLevel depths.now.prim z }
        ensures { result ≡ depths.now }
    {
        OneDepth { depths, z }
    }
}

impl<'a> DepthSource for OneDepth<'a> {
    ghost deep = { λ one. one };

    fn depth_at(&self, _column: u16, _row: u16) -> u32 {
        self.z
    }
}
