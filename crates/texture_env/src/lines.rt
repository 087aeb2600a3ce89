//! The rows of a tile that were found last.
ghost use Rattle.interpolation.specs.TileValues.{OnTile};
ghost use Rattle.texture_env.specs.Lines.{AreLinesOf};

use crate::line::Line;

/// The rows of a tile that were found last: each serves the row below as the next one, and then as its own. They are
/// lent to each tile, so that no room is made anew.
#[derive(Drop)]
pub struct Lines {
    pub(crate) even: Line,
    pub(crate) odd: Line,
}

impl Lines {
    /// No rows yet.
    pub fn new() -> Lines {
        Lines {
            even: Line::new(),
            odd: Line::new(),
        }
    }

    /// Nothing is known any more: the lines serve any primitive on any tile.
    #[tactic(auto, unfolding(crate::specs::Lines::AreLinesOf))]
    pub fn forget(&mut self)
        ensures { (on : OnTile) → AreLinesOf on self.new }
    {
        self.even.forget();
        self.odd.forget();
    }
}
