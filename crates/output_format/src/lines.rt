//! The lines of the log. Each is put, or waits to be put, in one piece.
ghost use Rattle.std.specs.Prelude.{◌≡◌, ◌≢◌, ◌/◌, ◌%◌, ◌<◌, ◌≤◌, ◌++◌, Err, IfOk, OnOk, OnErr};
ghost use Rattle.outer_io.specs.Faults.{Rose};
ghost use Rattle.output_format.specs.Answer.{Puts, Stops, stop_line};
ghost use Rattle.output_format.specs.Log.{hex_digit as hex_digit_of, hex4 as hex4_of, raise_line as raise_line_of, error_line as error_line_of, get_line as get_line_of, numbers as numbers_of, name_words, names_line as names_line_of, end_line as end_line_of, refused_line as refused_line_of, cause_name};

use crate::fault::Fault;
use crate::output::put;
use crate::status::Status;
use gl_tokens::GlError;
use itoa::Buffer;
use outer_io::Sink;
use std::alloc::{AllocError, Global};
use trace_reader::{Cause, ReadEnd};

/// Appends `raise INDEX CODE` to lines that wait: the command of this record makes this error. Where memory is
/// out nothing is appended.
pub fn append_raise(
    alloc: Global,
    lines: &mut Vec<u8>,
    index: u32,
    error: GlError,
) -> Result<(), AllocError>
    ensures line { OnOk result (lines.new.items ≡ lines.old.items ++ raise_line_of index error) }
    ensures memory { OnErr result (lines.new.items ≡ lines.old.items) }
{
    let line = raise_line(alloc, index, error)?;
    lines.extend_from_slice(&line)
}

/// Appends `error INDEX CODE` to lines that wait: this record takes the error flag, whose code this is. Where memory
/// is out nothing is appended.
pub fn append_error(
    alloc: Global,
    lines: &mut Vec<u8>,
    index: u32,
    code: u32,
) -> Result<(), AllocError>
    ensures line { OnOk result (lines.new.items ≡ lines.old.items ++ error_line_of index code) }
    ensures memory { OnErr result (lines.new.items ≡ lines.old.items) }
{
    let line = error_line(alloc, index, code)?;
    lines.extend_from_slice(&line)
}

/// Appends `get INDEX NUMBER ..` to lines that wait: this record's query answers these numbers. Where memory is out
/// nothing is appended.
pub fn append_get(
    alloc: Global,
    lines: &mut Vec<u8>,
    index: u32,
    values: &[i64],
) -> Result<(), AllocError>
    ensures line { OnOk result (lines.new.items ≡ lines.old.items ++ get_line_of index values.now) }
    ensures memory { OnErr result (lines.new.items ≡ lines.old.items) }
{
    let line = get_line(alloc, index, values)?;
    lines.extend_from_slice(&line)
}

/// Appends `names INDEX NAME ..` to lines that wait: this record is given these names of objects. Where memory is out
/// nothing is appended.
pub fn append_names(
    alloc: Global,
    lines: &mut Vec<u8>,
    index: u32,
    names: &[u32],
) -> Result<(), AllocError>
    ensures line { OnOk result (lines.new.items ≡ lines.old.items ++ names_line_of index names.now) }
    ensures memory { OnErr result (lines.new.items ≡ lines.old.items) }
{
    let line = names_line(alloc, index, names)?;
    lines.extend_from_slice(&line)
}

/// `end COUNT`: the trace was read to its end, and so many records stand before End.
pub fn put_end<L: Sink>(alloc: Global, log: &mut L, count: u32) -> Result<(), Fault>
    ensures line { Puts result (L.held log.old) (L.held log.new) (end_line_of count) }
    ensures write_fault { result ≡ Err Fault.WriteFault → Rose (L.faults log.old) (L.faults log.new) }
    ensures no_read_fault { result ≢ Err Fault.ReadFault }
    ensures faults { L.faults log.old ≤ L.faults log.new }
{
    put(log, &end_line(alloc, count)?)
}

/// How a run stops where the reader answers no record: `refused INDEX OFFSET CAUSE` where the trace is malformed,
/// and the status Refused; after a fault of the reader's, that fault, and no line.
pub fn put_stop<L: Sink>(alloc: Global, log: &mut L, end: ReadEnd) -> Result<Status, Fault>
    ensures line { Puts result (L.held log.old) (L.held log.new) (stop_line end) }
    ensures stops { Stops end result }
    ensures read_fault { result ≡ Err Fault.ReadFault → end ≡ ReadEnd.ReadFault }
    ensures write_fault { result ≡ Err Fault.WriteFault → Rose (L.faults log.old) (L.faults log.new) }
    ensures faults { L.faults log.old ≤ L.faults log.new }
{
    match end {
        ReadEnd::Malformed {
            index,
            offset,
            cause,
        } => {
            put(log, &refused_line(alloc, index, offset, cause)?)?;
            Ok(Status::Refused)
        }
        ReadEnd::ReadFault => Err(Fault::ReadFault),
        ReadEnd::NoMemory => Err(Fault::NoMemory),
    }
}

fn raise_line(alloc: Global, index: u32, error: GlError) -> Result<Vec<u8>, AllocError>
    ensures { IfOk result (λ line. line.items ≡ raise_line_of index error) }
{
    let mut line = Vec::from_slice(alloc, b"raise ")?;
    line.extend_from_slice(Buffer::new().format(index).as_bytes())?;
    line.extend_from_slice(b" 0x")?;
    line.extend_from_slice(&hex4(error.code()))?;
    line.extend_from_slice(b"\n")?;
    Ok(line)
}

fn error_line(alloc: Global, index: u32, code: u32) -> Result<Vec<u8>, AllocError>
    ensures { IfOk result (λ line. line.items ≡ error_line_of index code) }
{
    let mut line = Vec::from_slice(alloc, b"error ")?;
    line.extend_from_slice(Buffer::new().format(index).as_bytes())?;
    line.extend_from_slice(b" 0x")?;
    line.extend_from_slice(&hex4(code))?;
    line.extend_from_slice(b"\n")?;
    Ok(line)
}

fn get_line(alloc: Global, index: u32, values: &[i64]) -> Result<Vec<u8>, AllocError>
    ensures { IfOk result (λ line. line.items ≡ get_line_of index values.now) }
{
    let mut line = Vec::from_slice(alloc, b"get ")?;
    line.extend_from_slice(Buffer::new().format(index).as_bytes())?;
    append_numbers(&mut line, values)?;
    line.extend_from_slice(b"\n")?;
    Ok(line)
}

/// Appends numbers, a space before each.
fn append_numbers(line: &mut Vec<u8>, values: &[i64]) -> Result<(), AllocError>
    ensures { OnOk result (line.new.items ≡ line.old.items ++ numbers_of values.now) }
{
    'numbers: for value in values {
        line.extend_from_slice(b" ")?;
        line.extend_from_slice(Buffer::new().format(*value).as_bytes())?;
    }
    Ok(())
}

fn names_line(alloc: Global, index: u32, names: &[u32]) -> Result<Vec<u8>, AllocError>
    ensures { IfOk result (λ line. line.items ≡ names_line_of index names.now) }
{
    let mut line = Vec::from_slice(alloc, b"names ")?;
    line.extend_from_slice(Buffer::new().format(index).as_bytes())?;
    append_name_words(&mut line, names)?;
    line.extend_from_slice(b"\n")?;
    Ok(line)
}

/// Appends names, a space before each.
fn append_name_words(line: &mut Vec<u8>, names: &[u32]) -> Result<(), AllocError>
    ensures { OnOk result (line.new.items ≡ line.old.items ++ name_words names.now) }
{
    'names: for name in names {
        line.extend_from_slice(b" ")?;
        line.extend_from_slice(Buffer::new().format(*name).as_bytes())?;
    }
    Ok(())
}

fn end_line(alloc: Global, count: u32) -> Result<Vec<u8>, AllocError>
    ensures { IfOk result (λ line. line.items ≡ end_line_of count) }
{
    let mut line = Vec::from_slice(alloc, b"end ")?;
    line.extend_from_slice(Buffer::new().format(count).as_bytes())?;
    line.extend_from_slice(b"\n")?;
    Ok(line)
}

fn refused_line(alloc: Global, index: u32, offset: u32, cause: Cause) -> Result<Vec<u8>, AllocError>
    ensures { IfOk result (λ line. line.items ≡ refused_line_of index offset cause) }
{
    let mut line = Vec::from_slice(alloc, b"refused ")?;
    line.extend_from_slice(Buffer::new().format(index).as_bytes())?;
    line.extend_from_slice(b" ")?;
    line.extend_from_slice(Buffer::new().format(offset).as_bytes())?;
    line.extend_from_slice(b" ")?;
    line.extend_from_slice(name(cause).as_bytes())?;
    line.extend_from_slice(b"\n")?;
    Ok(line)
}

fn name(cause: Cause) -> &'static str
    ensures { result.now ≡ cause_name cause }
{
    match cause {
        Cause::Short => "Short",
        Cause::BadMagic => "BadMagic",
        Cause::BadSize => "BadSize",
        Cause::NoEnd => "NoEnd",
        Cause::BadZero => "BadZero",
        Cause::UnknownOp => "UnknownOp",
        Cause::TooLong => "TooLong",
        Cause::BadLength => "BadLength",
        Cause::Trailing => "Trailing",
    }
}

/// The last four hexadecimal digits of a code, in upper case.
fn hex4(code: u32) -> [u8; 4]
    ensures { result ≡ hex4_of code }
{
    [
        hex_digit(code / 4096 % 16),
        hex_digit(code / 256 % 16),
        hex_digit(code / 16 % 16),
        hex_digit(code % 16),
    ]
}

fn hex_digit(digit: u32) -> u8
    requires { digit < 16 }
    ensures { result ≡ hex_digit_of digit }
{
    if digit < 10 {
        b'0' + digit as u8
    } else {
        b'A' + (digit as u8 - 10)
    }
}
