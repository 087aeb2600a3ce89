ghost use Rattle.std.specs.Prelude.{◌≡◌};
ghost use Rattle.draw_front.specs.Collecting.{step_of};

use gl_records::Rec;

/// What is to be done after a record. The front answers it, and whatever draws acts on it.
#[derive(Clone, Copy, Debug, PartialEq, Eq)]
pub enum Step {
    /// Nothing but what the lines say.
    Quiet,
    /// The record's items are to be drawn; there may be none.
    Items,
    /// The surface is to be presented as a frame.
    Present,
    /// The trace has ended.
    Ended,
}

impl Step {
    /// What a record without error answers.
    pub(crate) fn of(rec: &Rec) -> Step
        ensures { result ≡ step_of rec.now }
    {
        match *rec {
            Rec::Swap => Step::Present,
            Rec::DrawArrays { .. } => Step::Items,
            Rec::DrawElements { .. } => Step::Items,
            Rec::Clear { .. } => Step::Items,
            Rec::End => Step::Ended,
            _ => Step::Quiet,
        }
    }
}
