//! How a run is printed, one fact a line.

use crate::frame::{Frame, first_frame};
use crate::play::Played;
use sha2::{Digest, Sha256};
use std::io;
use std::io::Write;

/// A frame of more pixels than these is printed as a digest.
const MOST_PIXELS: usize = 64;

/// Prints the status, the lines of the log, and the frames.
pub fn print_played<W: Write>(out: &mut W, played: &Played) -> io::Result<()> {
    let status = played.status;
    writeln!(out, "status {status:?}")?;
    print_log(out, played.log.bytes())?;
    print_frames(out, played.frames.bytes())
}

/// Prints the lines of a log. What stands behind the last line feed is no line.
fn print_log<W: Write>(out: &mut W, log: &[u8]) -> io::Result<()> {
    for line in log.split_inclusive(|byte| *byte == b'\n') {
        match line {
            [text @ .., b'\n'] => print_text(out, b"log ", text)?,
            text => print_text(out, b"log without its end: ", text)?,
        }
    }
    Ok(())
}

fn print_text<W: Write>(out: &mut W, what: &[u8], text: &[u8]) -> io::Result<()> {
    out.write_all(what)?;
    out.write_all(text)?;
    out.write_all(b"\n")
}

fn print_frames<W: Write>(out: &mut W, frames: &[u8]) -> io::Result<()> {
    let mut rest = frames;
    while let Some((frame, behind)) = first_frame(rest) {
        print_frame(out, &frame)?;
        rest = behind;
    }
    if rest.is_empty() {
        return Ok(());
    }
    write!(out, "no chunk ")?;
    print_bytes(out, rest)?;
    writeln!(out, "")
}

/// Prints the record and the sides of a frame, and then its rows or, where it has many pixels, their digest.
fn print_frame<W: Write>(out: &mut W, frame: &Frame<'_>) -> io::Result<()> {
    let index = frame.index;
    let w = frame.size.w;
    let h = frame.size.h;
    writeln!(out, "frame of record {index}, {w} by {h}")?;
    if frame.pixels.len() <= 4 * MOST_PIXELS {
        print_rows(out, frame)
    } else {
        write!(out, "sha256 ")?;
        print_bytes(out, &Sha256::digest(frame.pixels))?;
        writeln!(out, "")
    }
}

/// Prints the rows, the bottom row first.
fn print_rows<W: Write>(out: &mut W, frame: &Frame<'_>) -> io::Result<()> {
    let side = 4 * usize::from(frame.size.w).max(1);
    for row in frame.pixels.chunks(side) {
        write!(out, "row")?;
        for pixel in row.chunks(4) {
            write!(out, " ")?;
            print_bytes(out, pixel)?;
        }
        writeln!(out, "")?;
    }
    Ok(())
}

/// Prints two hexadecimal digits a byte.
fn print_bytes<W: Write>(out: &mut W, bytes: &[u8]) -> io::Result<()> {
    for byte in bytes {
        write!(out, "{byte:02x}")?;
    }
    Ok(())
}
