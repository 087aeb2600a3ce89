ghost use Rattle.std.specs.Prelude.{◌≡◌, ◌≢◌, ◌⊎◌, ◌+◌, ◌*◌, ◌^◌, ◌≤◌, [], false, Some, Ok, Err, IfOk, IfErr, IfSome, MatchBool};
ghost use Rattle.outer_io.specs.Faults.{Rose};
ghost use Rattle.trace_reader.specs.Progress.{at_first_record};
ghost use Rattle.gl_records.specs.Size.{IsSize};
ghost use Rattle.trace_reader.specs.Trace.{is_end as is_end_record, is_side as is_side_length};
ghost use Rattle.trace_reader.specs.Reading.{BringsPiece, MovesOver, Reads, ReadsAt, Starts, TakenAt, index_after, stage_after};

use crate::cause::{Cause, ReadEnd};
use crate::fill::fill;
use crate::record::{Stop, read_record};
use crate::stage::Stage;
use byteorder::{ByteOrder, LittleEndian};
use gl_records::{GREATEST_SIDE, Rec, Size};
use outer_io::Source;
use std::alloc::Global;
use std::marker::Model;

/// Reads a trace record by record. It knows how far it has come, and keeps its last answer: End or an error
/// is answered again by each later call.
#[derive(Drop)]
pub struct Reader {
    alloc: Global,
    index: u32,
    offset: u32,
    stage: Stage,
}

impl Model for Reader {
    ghost use Rattle.std.specs.Prelude.{◌*◌, ◌^◌, ◌≤◌};
    ghost use Rattle.trace_reader.specs.Progress.{Progress};

    ghost Value = { Progress };

    ghost view = { λ reader. record { index = reader.index; offset = reader.offset; stage = reader.stage } };

    // A record takes eight bytes or more, and none ends past the greatest trace.
    ghost invariant = { λ reader. (8 * reader.index ≤ reader.offset) × (reader.offset ≤ 2 ^ 28) };
}

impl Reader {
    /// Reads the header, of eight bytes. A refusal has index 0 and offset 0; the sides are 1 to 1024 pixels.
    /// The allocator is kept for the pieces of the records. `ReadFault` where the source failed.
    pub fn start<S: Source>(alloc: Global, source: &mut S) -> Result<(Reader, Size), ReadEnd>
        ensures trace { IfSome (S.rest source.old) (λ bytes. Starts bytes result (S.rest source.new)) }
        ensures begun { IfOk result (λ begun. begun.0 ≡ at_first_record) }
        ensures sides { IfOk result (λ begun. IsSize begun.1) }
        ensures read_fault { result ≡ Err ReadEnd.ReadFault → Rose (S.faults source.old) (S.faults source.new) }
        ensures faults { S.faults source.old ≤ S.faults source.new }
        ensures memory { result ≢ Err ReadEnd.NoMemory }
    {
        let mut bytes = [0; 8];
        if fill(source, &mut bytes)? < 8 {
            return Err(bad_header(Cause::Short));
        }
        if !bytes.starts_with(b"GLT1") {
            return Err(bad_header(Cause::BadMagic));
        }
        let w = LittleEndian::read_u16(&bytes[4..]);
        let h = LittleEndian::read_u16(&bytes[6..]);
        if !is_side(w) || !is_side(h) {
            return Err(bad_header(Cause::BadSize));
        }
        let reader = Reader {
            alloc,
            index: 0,
            offset: 8,
            stage: Stage::Reading,
        };
        Ok((reader, Size { w, h }))
    }

    /// Reads the next record. End is the last, and only where no byte follows it. `Malformed` where the trace
    /// is, with the record's index and the byte at which it begins, `ReadFault` where the source failed, and
    /// `NoMemory` where there is none for the piece that the record's command brings: only at such a command.
    pub fn next<S: Source>(&mut self, source: &mut S) -> Result<Rec, ReadEnd>
        ensures trace { self.old.stage ≡ Stage.Reading
            → IfSome (S.rest source.old) (λ bytes. Reads self.old bytes result self.new (S.rest source.new)) }

        // After End and after an error it answers the same again, and leaves the source alone.
        ensures ended { self.old.stage ≡ Stage.Ended → result ≡ Ok Rec.End }
        ensures stopped { (end : ReadEnd) → self.old.stage ≡ Stage.Stopped end → result ≡ Err end }
        ensures again { self.old.stage ≢ Stage.Reading → (self.new ≡ self.old) × (source.new ≡ source.old) }
        ensures stage { self.new.stage ≡ stage_after result }

        // End isn't counted. The offset moves by the bytes that the record takes, and the source with it.
        ensures index { self.old.stage ≡ Stage.Reading → IfOk result (λ rec. self.new.index ≡ index_after self.old.index rec) }
        ensures moves { self.old.stage ≡ Stage.Reading
            → IfSome (S.rest source.old) (λ bytes. IfOk result (λ rec. MovesOver self.old.offset bytes rec self.new.offset (S.rest source.new))) }

        // Each record takes eight bytes or more of the greatest trace, so there is an end to them.
        ensures advances { IfOk result (λ rec. is_end_record rec ≡ false → self.old.offset + 8 ≤ self.new.offset) }
        ensures within { self.new.offset ≤ 2 ^ 28 }

        ensures read_fault { result ≡ Err ReadEnd.ReadFault
            → Rose (S.faults source.old) (S.faults source.new) ⊎ (self.old.stage ≡ Stage.Stopped ReadEnd.ReadFault) }
        ensures memory { result ≡ Err ReadEnd.NoMemory
            → IfSome (S.rest source.old) BringsPiece ⊎ (self.old.stage ≡ Stage.Stopped ReadEnd.NoMemory) }
        ensures faults { S.faults source.old ≤ S.faults source.new }
    {
        match self.stage {
            Stage::Reading => {}
            Stage::Ended => return Ok(Rec::End),
            Stage::Stopped(end) => return Err(end),
        }
        match read_at(self.alloc, self.index, self.offset, source) {
            Ok((rec, length)) => {
                self.offset += length;
                if is_end(&rec) {
                    self.stage = Stage::Ended;
                    return Ok(rec);
                }
                self.index += 1;
                Ok(rec)
            }
            Err(end) => {
                self.stage = Stage::Stopped(end);
                Err(end)
            }
        }
    }
}

fn bad_header(cause: Cause) -> ReadEnd
    ensures { result ≡ ReadEnd.Malformed 0 0 cause }
{
    ReadEnd::Malformed {
        index: 0,
        offset: 0,
        cause,
    }
}

fn is_end(rec: &Rec) -> bool
    ensures { result ≡ is_end_record rec.now }
{
    match rec {
        Rec::End => true,
        _ => false,
    }
}

fn is_side(side: u16) -> bool
    ensures { result ≡ is_side_length side }
{
    1 <= side && side <= GREATEST_SIDE
}

/// The record at a place and how many bytes it takes, or how the trace ends there.
fn read_at<S: Source>(
    alloc: Global,
    index: u32,
    offset: u32,
    source: &mut S,
) -> Result<(Rec, u32), ReadEnd>
    requires before { 8 * index ≤ offset }
    requires within { offset ≤ 2 ^ 28 }
    ensures trace { IfSome (S.rest source.old) (λ bytes. ReadsAt index offset bytes result (S.rest source.new)) }
    ensures taken { IfSome (S.rest source.old) (λ bytes. IfOk result (λ found. TakenAt offset bytes found (S.rest source.new))) }
    ensures longer { IfOk result (λ found. (8 ≤ found.1) × (offset + found.1 ≤ 2 ^ 28)) }
    ensures read_fault { result ≡ Err ReadEnd.ReadFault → Rose (S.faults source.old) (S.faults source.new) }
    ensures memory { result ≡ Err ReadEnd.NoMemory → IfSome (S.rest source.old) BringsPiece }
    ensures faults { S.faults source.old ≤ S.faults source.new }
{
    let (rec, length) = match read_record(alloc, offset, source) {
        Ok(found) => found,
        Err(Stop::Malformed(cause)) => {
            return Err(ReadEnd::Malformed {
                index,
                offset,
                cause,
            });
        }
        Err(Stop::Failed) => return Err(ReadEnd::ReadFault),
        Err(Stop::NoMemory) => return Err(ReadEnd::NoMemory),
    };
    match rec {
        Rec::End => {
            if is_at_end(source)? {
                return Ok((Rec::End, length));
            }
            Err(ReadEnd::Malformed {
                index: index + 1,
                offset: offset + length,
                cause: Cause::Trailing,
            })
        }
        rec => Ok((rec, length)),
    }
}

/// Whether the source has no byte left. Where it has, one is taken.
fn is_at_end<S: Source>(source: &mut S) -> Result<bool, ReadEnd>
    ensures end { IfSome (S.rest source.old) (λ rest. IfOk result (λ at_end.
        MatchBool at_end ((rest ≡ []) × (S.rest source.new ≡ Some [])) (rest ≢ []))) }
    ensures read_fault { IfErr result (λ end. (end ≡ ReadEnd.ReadFault) × Rose (S.faults source.old) (S.faults source.new)) }
    ensures faults { S.faults source.old ≤ S.faults source.new }
{
    Ok(fill(source, &mut [0; 1])? == 0)
}
