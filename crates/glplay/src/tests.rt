//! What more than bytes shows: command lines, calls that fail, readers and writers of std. Whole runs of bytes are
//! the cases of the crate `trace_cases`.

mod command_lines;
mod faults;
mod support;
