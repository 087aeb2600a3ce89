//! The immediate renderer: it plays a trace record by record, and draws each item wholly before the next.
//!
//! Its contract cites `frames_of` and `log_of` of `draw_front`: what the renderer writes for a list of bytes. It is
//! the reader, the front and the surface put together. `glplay` makes its one call.
//!
//! ```text
//! match play(rt, alloc, &mut trace, &mut frames, &mut log) {
//!     Ok(status) => status, // Done, or Refused where the trace is malformed
//!     Err(fault) => fault.status(), // each output holds a front of what it would have held
//! }
//! ```
#![tactic(auto)]

mod frame;
mod play_trace;
mod player;

pub use play_trace::play;
