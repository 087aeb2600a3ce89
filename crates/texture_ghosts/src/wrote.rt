/// What a change of a texture's image does to the version that is current.
#[derive(Clone, Copy, Debug, PartialEq, Eq)]
pub enum Wrote {
    /// No pass names the version: it is changed in place.
    InPlace,
    /// A pass names it: it stays as a ghost, and the texture gets a new version or none.
    Ghosted,
    /// A pass names it, and ghosts of `held` bytes leave no room for its `bytes`: the change has to wait.
    NeedsDrain { held: u64, bytes: u64 },
}
