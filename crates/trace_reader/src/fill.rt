ghost use Rattle.std.specs.Prelude.{◌≡◌, ◌<◌, ◌≤◌, length, take, OnErr, IfOk, IfSome};
ghost use Rattle.std.specs.Io.KnownBytes.{Consumes, IsAtEnd};
ghost use Rattle.outer_io.specs.Faults.{Rose};
ghost use Rattle.trace_reader.specs.Steps.{FilledBehind};

use outer_io::{Failed, Source};

/// Takes bytes until `into` is full or the source is at its end, and answers how many it took.
pub fn fill<S: Source>(source: &mut S, into: &mut [u8]) -> Result<usize, Failed>
    ensures count { IfOk result (λ taken. taken ≤ length into.new) }
    ensures bytes { IfOk result (λ taken. Consumes (S.rest source.old) (S.rest source.new) (take taken into.new)) }
    ensures end { IfOk result (λ taken. taken < length into.new → IsAtEnd (S.rest source.new)) }
    ensures failed { OnErr result (Rose (S.faults source.old) (S.faults source.new)) }
    ensures faults { S.faults source.old ≤ S.faults source.new }
{
    let mut filled = 0;
    while filled < into.len() {
        let taken = source.take(&mut into[filled..])?;
        if taken == 0 {
            break;
        }
        filled += taken;
    }
    Ok(filled)
}

/// Writes bytes that were taken already into the front of `into`, and fills the rest of it. Answers whether the
/// source had as many bytes.
pub fn fill_behind<S: Source>(source: &mut S, front: &[u8], into: &mut [u8]) -> Result<bool, Failed>
    requires { length front.now ≤ length into.old }
    ensures bytes { IfSome (S.rest source.old) (λ rest. IfOk result (λ whole. FilledBehind front.now into.new whole rest (S.rest source.new))) }
    ensures failed { OnErr result (Rose (S.faults source.old) (S.faults source.new)) }
    ensures faults { S.faults source.old ≤ S.faults source.new }
{
    let start = front.len();
    into[..start].copy_from_slice(front);
    let taken = fill(source, &mut into[start..])?;
    Ok(taken == into.len() - start)
}
