//! The coordinates of a unit along a row of a tile.
ghost use Rattle.std.specs.Prelude.{◌<◌, ◌≤◌};
ghost use Rattle.interpolation.specs.Rows.{AreSpotsOf};
ghost use Rattle.texture_env.specs.Lines.{IsUnitLineOf};

use fx_arith::Fx;
use interpolation::{Spot, TileValues};

/// S and T of a unit along a row, where they are known.
#[derive(Clone, Copy)]
pub struct UnitLine {
    pub(crate) known: bool,
    pub(crate) s: [Fx; 17],
    pub(crate) t: [Fx; 17],
}

impl UnitLine {
    /// None yet.
    pub fn new() -> UnitLine {
        UnitLine {
            known: false,
            s: [Fx(0); 17],
            t: [Fx(0); 17],
        }
    }

    /// The coordinates of unit `k` at these pixels of a row, in the columns from `from` up to but not including `to`, where
    /// they are asked for and what is prepared gives them.
    pub fn find(
        &mut self,
        values: &TileValues<'_>,
        k: usize,
        asked: bool,
        spots: &[Spot; 17],
        row: u16,
        from: usize,
        to: usize,
    )
        requires unit { k < 2 }
        requires row { row ≤ 16 }
        requires to { to ≤ 17 }
        requires spots { AreSpotsOf values.now row from to spots.now }
        ensures { IsUnitLineOf values.now k row from to self.new }
    {
        if asked {
            self.known = values.coordinate_row(k, spots, row, from, to, &mut self.s, &mut self.t);
        } else {
            self.known = false;
        }
    }
}
