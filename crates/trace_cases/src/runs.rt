//! The runs of a case.
ghost use Rattle.std.specs.Prelude.{◌≡◌, IsTrue, IsErr, false};

use crate::case::{Case, Front, case_of, counts_of, is_passed_over};
use crate::play::play_bytes;
use crate::print::print_played;
use std::alloc::AllocError;
use std::io::Write;
use std::ops::Range;
use std::rt::Files;
use std::thread::Threads;
use std::{fs, io};

/// Why a case can't be read.
#[derive(Clone, Copy, Debug, PartialEq, Eq)]
pub enum Unread {
    /// The words are no case.
    Words,
    /// The trace's file can't be read.
    File,
    /// The front is longer than the file.
    Front,
    /// What follows the front is not hexadecimal.
    Then,
}

/// What is played of a trace, of which all is there.
#[derive(Drop)]
pub struct Asked<'a> {
    case: Case<'a>,
    file: Vec<u8>,
    counts: Range<usize>,
    then: Vec<u8>,
}

/// Plays the case of a line of the index, if it has one. Where the case can't be read that is printed, and
/// `all_read` is false then.
pub fn play_line<R: Files + AllocGlobal + Threads, W: Write>(
    rt: &R,
    line: &str,
    out: &mut W,
    all_read: &mut bool,
) -> io::Result<()>
    ensures stays_false { IsTrue all_read.new → IsTrue all_read.old }
{
    if is_passed_over(line) {
        return Ok(());
    }
    let words: Vec<&str> = line.split_whitespace().collect(rt.alloc())?;
    let asked = read_case(rt, &words)?;
    play_or_tell(rt, line, asked, out, all_read)
}

/// Plays what is asked for, or prints why it can't be read.
fn play_or_tell<R: AllocGlobal + Threads, W: Write>(
    rt: &R,
    line: &str,
    asked: Result<Asked<'_>, Unread>,
    out: &mut W,
    all_read: &mut bool,
) -> io::Result<()>
    ensures unread { IsErr asked.entry → all_read.new ≡ false }
    ensures stays_false { IsTrue all_read.new → IsTrue all_read.old }
{
    match asked {
        Ok(asked) => play_fronts(rt, &asked, out),
        Err(why) => {
            *all_read = false;
            writeln!(out, "case {line}\nnot read: {why:?}\n")
        }
    }
}

/// Reads the trace of a case.
fn read_case<'a, R: Files + AllocGlobal>(
    rt: &R,
    words: &[&'a str],
) -> Result<Result<Asked<'a>, Unread>, AllocError> {
    let alloc = rt.alloc();
    let Some(case) = case_of(words) else {
        return Ok(Err(Unread::Words));
    };
    let name = case.name;
    let path = format!(in alloc; "{name}.trace")?;
    let Ok(file) = fs::read(rt, path.as_str()) else {
        return Ok(Err(Unread::File));
    };
    let Ok(then) = hex::decode(alloc, case.then) else {
        return Ok(Err(Unread::Then));
    };
    match counts_of(case.front, file.len()) {
        Some(counts) => Ok(Ok(Asked {
            case,
            file,
            counts,
            then,
        })),
        None => Ok(Err(Unread::Front)),
    }
}

/// Plays the fronts of a trace.
fn play_fronts<R: AllocGlobal + Threads, W: Write>(
    rt: &R,
    asked: &Asked<'_>,
    out: &mut W,
) -> io::Result<()> {
    for count in asked.counts.start..asked.counts.end {
        if let Some(front) = asked.file.get(..count) {
            print_heading(out, &asked.case, count)?;
            play_front(rt, front, &asked.then, out)?;
        }
    }
    Ok(())
}

fn print_heading<W: Write>(out: &mut W, case: &Case<'_>, count: usize) -> io::Result<()> {
    let name = case.name;
    write!(out, "case {name}")?;
    if case.front != Front::Whole {
        write!(out, " cut {count}")?;
    }
    if !case.then.is_empty() {
        let then = case.then;
        write!(out, " then {then}")?;
    }
    writeln!(out, "")
}

/// Plays the bytes of a front, and behind them those that follow.
fn play_front<R: AllocGlobal + Threads, W: Write>(
    rt: &R,
    front: &[u8],
    then: &[u8],
    out: &mut W,
) -> io::Result<()> {
    let mut bytes = Vec::from_slice(rt.alloc(), front)?;
    bytes.extend_from_slice(then)?;
    print_played(out, &play_bytes(rt, rt.alloc(), bytes))?;
    writeln!(out, "")
}
