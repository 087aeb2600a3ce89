ghost use Rattle.std.specs.Prelude.{◌≡◌, ◌≤◌, ℕ, List, Option, OnErr, IfOk, length};
ghost use Rattle.std.specs.Io.KnownBytes.{ReadConsumes};
ghost use Rattle.outer_io.specs.Faults.{Rose};

use std::io;
use std::io::{ErrorKind, Read};

/// A call of a source that took no byte, and raised the source's count of faults.
#[derive(Clone, Copy, Debug, PartialEq, Eq)]
pub struct Failed;

/// Where bytes come from, one after the other.
pub trait Source: Send {
    // The bytes that are left, where the source tells them.
    ghost rest: { Self → Option (List ℕ) };

    // How many calls have failed.
    ghost faults: { Self → ℕ };

    /// Takes the next bytes into the front of `into`, and answers how many. It is 0 only at the end of the
    /// bytes or where `into` is empty.
    fn take(&mut self, into: &mut [u8]) -> Result<usize, Failed>
        ensures count { IfOk result (λ taken. taken ≤ length into.new) }
        ensures bytes { ReadConsumes (rest self.old) (rest self.new) result into.new }
        ensures failed { OnErr result (Rose (faults self.old) (faults self.new)) }
        ensures faults { faults self.old ≤ faults self.new };
}

/// A source over a reader of std. It tells the bytes that the reader tells: none over a file, a pipe or a
/// terminal.
#[derive(Drop)]
pub struct FromRead<R> {
    reader: R,
    faults: u64,
}

impl<R: Read + Send> FromRead<R> {
    /// A source over this reader, with no fault so far.
    pub fn new(inner: R) -> FromRead<R>
        ensures rest { ⟦<FromRead<R> as Source>⟧.rest result ≡ R.remaining inner }
        ensures faults { ⟦<FromRead<R> as Source>⟧.faults result ≡ 0 }
    {
        FromRead {
            reader: inner,
            faults: 0,
        }
    }
}

/// Reads. A read that was interrupted is tried once more.
fn read_retrying<R: Read>(reader: &mut R, into: &mut [u8]) -> io::Result<usize>
    ensures count { IfOk result (λ taken. taken ≤ length into.new) }
    ensures bytes { ReadConsumes (R.remaining reader.old) (R.remaining reader.new) result into.new }
{
    match reader.read(into) {
        Err(e) if e.kind() == ErrorKind::Interrupted => reader.read(into),
        read => read,
    }
}

impl<R: Read + Send> Source for FromRead<R> {
    ghost rest = { λ source. R.remaining source.reader };

    ghost faults = { λ source. source.faults };

    /// A read that was interrupted is tried once more.
    fn take(&mut self, into: &mut [u8]) -> Result<usize, Failed> {
        match read_retrying(&mut self.reader, into) {
            Ok(taken) => Ok(taken),
            Err(_) => {
                self.faults = self.faults.saturating_add(1);
                Err(Failed)
            }
        }
    }
}
