use crate::cause::ReadEnd;

/// What a reader does next.
#[derive(Clone, Copy, Debug, PartialEq, Eq)]
pub enum Stage {
    /// It reads the next record.
    Reading,
    /// It answers End again.
    Ended,
    /// It answers the same again.
    Stopped(ReadEnd),
}
