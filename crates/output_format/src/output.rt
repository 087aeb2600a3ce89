//! Pieces of the outputs.
ghost use Rattle.std.specs.Prelude.{◌≡◌, ◌≢◌, ◌≤◌, Err};
ghost use Rattle.outer_io.specs.Faults.{Rose};
ghost use Rattle.output_format.specs.Answer.{Puts};

use crate::fault::Fault;
use outer_io::Sink;

/// Puts a piece, or after a fault a front of it.
pub fn put<O: Sink>(output: &mut O, piece: &[u8]) -> Result<(), Fault>
    ensures piece { Puts result (O.held output.old) (O.held output.new) piece.now }
    ensures write_fault { result ≡ Err Fault.WriteFault → Rose (O.faults output.old) (O.faults output.new) }
    ensures no_read_fault { result ≢ Err Fault.ReadFault }
    ensures faults { O.faults output.old ≤ O.faults output.new }
{
    output.put(piece)?;
    Ok(())
}
