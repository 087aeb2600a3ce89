/// A moment at which the renderer shows where it is.
#[derive(Clone, Copy, Debug, PartialEq, Eq)]
pub enum Place {
    /// The worker that calls is about to shade a tile.
    ShadeBegan,
    /// An item has joined the pass that is being gathered.
    ItemGathered,
}

/// What is called at each [`Place`], on whichever thread is there. It has no meaning beyond returning, so
/// nothing that is written depends on it.
pub trait Gate: Sync {
    /// `turn` counts the turns of the renderer from 0.
    fn at(&self, place: Place, turn: u64);
}

/// The gate of the program, which does nothing.
#[derive(Clone, Copy, Debug)]
pub struct NoGate;

impl Gate for NoGate {
    fn at(&self, _place: Place, _turn: u64) {}
}
