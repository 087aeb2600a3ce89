//! `trace_cases` plays traces over memory, and prints how each run ended and what it wrote, one fact a line.
//!
//! It runs in the folder of its data. The file `index` there has a line for each case: the name of a trace, whose
//! bytes stand in `NAME.trace`, and words that say what is played of them (the module `case`). A line that begins
//! with `#` is a comment. A case that can't be read is named, and the run then fails, after the other cases.
//!
//! What it has to print was worked out by hand, or comes from another player: the comments of the index say which.
#![tactic(auto)]

mod case;
mod frame;
mod play;
mod print;
mod runs;

use anyhow::{Context, Result};
use std::io::{BufWriter, Write};
use std::process::ExitCode;
use std::{fs, io};

fn main(rt: HostRuntime) -> Result<ExitCode> {
    let index = fs::read_to_string(&rt, "index").context("reading the index")?;
    let mut out = BufWriter::new(rt.alloc(), io::writer(&rt))?;
    let mut all_read = true;
    for line in index.as_str().lines() {
        runs::play_line(&rt, line, &mut out, &mut all_read)?;
    }
    out.flush()?;
    Ok(if all_read {
        ExitCode::SUCCESS
    } else {
        ExitCode::FAILURE
    })
}
