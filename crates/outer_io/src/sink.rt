ghost use Rattle.std.specs.Prelude.{◌≡◌, ◌≤◌, ℕ, List, Option, OnOk, IfErr, Err};
ghost use Rattle.std.specs.Io.KnownBytes.{Appends};
ghost use Rattle.outer_io.specs.Faults.{Rose};
ghost use Rattle.outer_io.specs.Bytes.{PutsAtMost};

use std::io::Write;

/// Why a piece was not put whole.
#[derive(Clone, Copy, Debug, PartialEq, Eq)]
pub enum PutFault {
    /// The outside failed; the sink's count of faults rose.
    Failed,
    /// Memory ran out.
    NoMemory,
}

/// Where bytes go, one piece after the other.
pub trait Sink {
    // The bytes that the sink holds, where it tells them.
    ghost held: { Self → Option (List ℕ) };

    // How many calls have failed.
    ghost faults: { Self → ℕ };

    /// Appends the piece. After `Failed` a front of the piece was appended, after `NoMemory` nothing.
    fn put(&mut self, piece: &[u8]) -> Result<(), PutFault>
        ensures whole { OnOk result (Appends (held self.old) (held self.new) piece.now) }
        ensures front { IfErr result (PutsAtMost (held self.old) (held self.new) piece.now) }
        ensures failed { result ≡ Err PutFault.Failed → Rose (faults self.old) (faults self.new) }
        ensures faults { faults self.old ≤ faults self.new };
}

/// A sink over a writer of std. It tells the bytes that the writer tells: none over a file, a pipe or a
/// terminal.
#[derive(Drop)]
pub struct ToWrite<W> {
    writer: W,
    faults: u64,
}

impl<W: Write> ToWrite<W> {
    /// A sink over this writer, with no fault so far.
    pub fn new(inner: W) -> ToWrite<W>
        ensures held { ⟦<ToWrite<W> as Sink>⟧.held result ≡ W.contents inner }
        ensures faults { ⟦<ToWrite<W> as Sink>⟧.faults result ≡ 0 }
    {
        ToWrite {
            writer: inner,
            faults: 0,
        }
    }
}

impl<W: Write> Sink for ToWrite<W> {
    ghost held = { λ sink. W.contents sink.writer };

    ghost faults = { λ sink. sink.faults };

    /// A writer that takes nothing of a piece that isn't empty is a fault.
    fn put(&mut self, piece: &[u8]) -> Result<(), PutFault> {
        let mut rest = piece;
        while !rest.is_empty() {
            match self.writer.write(rest) {
                Ok(taken) if taken > 0 => rest = &rest[taken..],
                _ => {
                    self.faults = self.faults.saturating_add(1);
                    return Err(PutFault::Failed);
                }
            }
        }
        Ok(())
    }
}
