//! A pixel of a tile.
use plane_equations::Reciprocal;

/// A pixel of a tile, or of the column and row beyond, with the reciprocal of what sums are divided by there, where that
/// is one of the prepared.
#[derive(Clone, Copy)]
pub struct Spot {
    pub column: u16,
    pub row: u16,
    pub by: Option<Reciprocal>,
}
