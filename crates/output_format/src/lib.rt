//! What a run writes, and how it answers: the headers of chunks, the lines of the log, statuses and faults.
//!
//! Contracts cite the texts of `specs/Log.antt`, the frames of `specs/Frames.antt`, and `specs/Answer.antt` for
//! how an output grew: by all of what was put, or after a fault by a front of it. Whatever draws writes with
//! these calls; none of them knows a command or a surface's pixels.
//!
//! ```text
//! append_raise(alloc, &mut lines, 3, GlError::InvalidEnum)?; // lines end with "raise 3 0x0500\n"
//! put(&mut frames, &frame_header(2, size))?; // GLF1, the record's index, the sides
//! put_end(alloc, &mut log, 3)?; // "end 3\n"
//! ```
#![tactic(auto)]

mod fault;
mod header;
mod lines;
mod output;
mod status;

pub use fault::Fault;
pub use header::frame_header;
pub use lines::{append_error, append_get, append_names, append_raise, put_end, put_stop};
pub use output::put;
pub use status::Status;
