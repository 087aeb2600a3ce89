//! One record of a source: its first eight bytes, and then its payload.
ghost use Rattle.std.specs.Prelude.{◌≡◌, ◌≤◌, ◌+◌, ◌^◌, min, length, Err, IfOk, IfSome, OnOk};
ghost use Rattle.outer_io.specs.Faults.{Rose};
ghost use Rattle.trace_reader.specs.Shape.{words_of};
ghost use Rattle.trace_reader.specs.Steps.{HeadRead, length_checked, PieceRead, BehindRead, BodyRead, RecordRead};
ghost use Rattle.trace_reader.specs.declared.record.Stop.TheVariants.{Failed as stop_failed, NoMemory as stop_no_memory};

use crate::cause::Cause;
use crate::fill::{fill, fill_behind};
use crate::shape::Shape;
use crate::table::{row, with_piece};
use byteorder::{ByteOrder, LittleEndian};
use gl_records::{Bytes, Rec};
use outer_io::{Failed, Source};
use std::alloc::{AllocError, Global};
use std::cmp::min;

/// The greatest payload, in bytes.
const GREATEST_PAYLOAD: u32 = 1 << 24;
/// The greatest trace, in bytes.
const GREATEST_TRACE: u32 = 1 << 28;

/// Why there is no record.
#[derive(Clone, Copy, Debug, PartialEq, Eq)]
pub enum Stop {
    Malformed(Cause),
    /// The source failed.
    Failed,
    /// There is no memory for the record's piece.
    NoMemory,
}

impl From<Failed> for Stop {
    ghost from_gives = { λ _ stop. stop ≡ stop_failed };

    fn from(_failed: Failed) -> Stop {
        Stop::Failed
    }
}

impl From<AllocError> for Stop {
    ghost from_gives = { λ _ stop. stop ≡ stop_no_memory };

    fn from(_error: AllocError) -> Stop {
        Stop::NoMemory
    }
}

/// A record's first eight bytes.
#[derive(Clone, Copy, Debug)]
pub struct Head {
    opcode: u16,
    /// Bytes of the payload.
    length: u32,
}

fn read_head<S: Source>(source: &mut S) -> Result<Head, Stop>
    ensures head { IfSome (S.rest source.old) (λ bytes. HeadRead bytes result (S.rest source.new)) }
    ensures failed { result ≡ Err Stop.Failed → Rose (S.faults source.old) (S.faults source.new) }
    ensures faults { S.faults source.old ≤ S.faults source.new }
{
    let mut bytes = [0; 8];
    let taken = fill(source, &mut bytes)?;
    if taken == 0 {
        return Err(Stop::Malformed(Cause::NoEnd));
    }
    if taken < 8 {
        return Err(Stop::Malformed(Cause::Short));
    }
    if LittleEndian::read_u16(&bytes[2..]) != 0 {
        return Err(Stop::Malformed(Cause::BadZero));
    }
    Ok(Head {
        opcode: LittleEndian::read_u16(&bytes),
        length: LittleEndian::read_u32(&bytes[4..]),
    })
}

/// Whether a payload of `length` bytes may stand in a record of this shape that begins at `offset`.
fn check_length(offset: u32, length: u32, shape: Shape) -> Result<(), Stop>
    requires { offset ≤ 2 ^ 28 }
    ensures { result ≡ length_checked offset length shape }
{
    if length > GREATEST_PAYLOAD {
        return Err(Stop::Malformed(Cause::TooLong));
    }
    if offset + 8 + length > GREATEST_TRACE {
        return Err(Stop::Malformed(Cause::TooLong));
    }
    if !shape.allows(length) {
        return Err(Stop::Malformed(Cause::BadLength));
    }
    Ok(())
}

/// A piece of `size` bytes: those that were read already, and then the source's.
fn read_piece<S: Source>(
    alloc: Global,
    front: &[u8],
    size: usize,
    source: &mut S,
) -> Result<Bytes, Stop>
    requires { length front.now ≤ size }
    ensures piece { IfSome (S.rest source.old) (λ rest. PieceRead size front.now rest result (S.rest source.new)) }
    ensures failed { result ≡ Err Stop.Failed → Rose (S.faults source.old) (S.faults source.new) }
    ensures faults { S.faults source.old ≤ S.faults source.new }
{
    if size == 0 {
        return Ok(Bytes::new(Vec::new(alloc)));
    }
    let mut piece = vec![in alloc; 0; size]?;
    if !fill_behind(source, front, &mut piece)? {
        return Err(Stop::Malformed(Cause::Short));
    }
    Ok(Bytes::new(piece))
}

/// The bytes of a payload behind the words that its shape begins with. Its first bytes, at most 64, were read:
/// they stand in `front`, where the source had them all.
fn read_behind<S: Source>(
    alloc: Global,
    offset: u32,
    size: u32,
    shape: Shape,
    front: &[u8],
    whole: bool,
    source: &mut S,
) -> Result<Bytes, Stop>
    requires offset { offset ≤ 2 ^ 28 }
    requires front { length front.now ≡ min size 64 }
    requires words { words_of shape ≤ 16 }
    ensures behind { IfSome (S.rest source.old) (λ rest. BehindRead offset size shape front.now whole rest result (S.rest source.new)) }
    ensures longer { OnOk result (offset + 8 + size ≤ 2 ^ 28) }
    ensures failed { result ≡ Err Stop.Failed → Rose (S.faults source.old) (S.faults source.new) }
    ensures faults { S.faults source.old ≤ S.faults source.new }
{
    check_length(offset, size, shape)?;
    if !whole {
        return Err(Stop::Malformed(Cause::Short));
    }
    let words = 4 * usize::from(shape.words());
    read_piece(alloc, &front[words..], size as usize - words, source)
}

/// The record that a head begins, and how many bytes it takes with its head. The first bytes of the payload are
/// read before its row is looked up, and its length is judged after that.
fn read_body<S: Source>(
    alloc: Global,
    offset: u32,
    head: Head,
    source: &mut S,
) -> Result<(Rec, u32), Stop>
    requires { offset ≤ 2 ^ 28 }
    ensures body { IfSome (S.rest source.old) (λ rest. BodyRead offset head rest result (S.rest source.new)) }
    ensures longer { IfOk result (λ found. (8 ≤ found.1) × (offset + found.1 ≤ 2 ^ 28)) }
    ensures failed { result ≡ Err Stop.Failed → Rose (S.faults source.old) (S.faults source.new) }
    ensures faults { S.faults source.old ≤ S.faults source.new }
{
    let Head { opcode, length } = head;
    let first = min(length, 64) as usize;
    let mut front = [0; 64];
    let whole = fill(source, &mut front[..first])? == first;
    let mut words = [0; 16];
    LittleEndian::read_u32_into(&front, &mut words);
    let front = &front[..first];
    match row(alloc, opcode, &words) {
        Some((shape, rec)) => {
            match read_behind(alloc, offset, length, shape, front, whole, source) {
                Ok(piece) => match with_piece(alloc, rec, piece) {
                    Ok(rec) => Ok((rec, 8 + length)),
                    Err(_) => Err(Stop::NoMemory),
                },
                Err(stop) => Err(stop),
            }
        }
        None => Err(Stop::Malformed(Cause::UnknownOp)),
    }
}

/// Reads the record at the front of the source, before which the trace has `offset` bytes, and answers how
/// many bytes it takes.
pub fn read_record<S: Source>(
    alloc: Global,
    offset: u32,
    source: &mut S,
) -> Result<(Rec, u32), Stop>
    requires { offset ≤ 2 ^ 28 }
    ensures record { IfSome (S.rest source.old) (λ bytes. RecordRead offset bytes result (S.rest source.new)) }
    ensures longer { IfOk result (λ found. (8 ≤ found.1) × (offset + found.1 ≤ 2 ^ 28)) }
    ensures failed { result ≡ Err Stop.Failed → Rose (S.faults source.old) (S.faults source.new) }
    ensures faults { S.faults source.old ≤ S.faults source.new }
{
    let head = read_head(source)?;
    read_body(alloc, offset, head, source)
}
