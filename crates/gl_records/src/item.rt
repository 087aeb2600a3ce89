use crate::clear::ClearItem;
use crate::frag_state::FragState;
use crate::prim::Prim;

/// What a record draws, in one piece: it acts on each pixel by itself, and wholly before the next item.
/// The collecting side makes items and the shading side uses them up.
#[derive(Clone, Copy, Debug, PartialEq, Eq)]
pub enum Item {
    /// A primitive, and what happens to its fragments.
    Draw(Prim, FragState),
    Clear(ClearItem),
}
