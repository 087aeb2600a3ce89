//! The outside: where bytes come from and where they go.
//!
//! A program that is generic in [`Source`] and [`Sink`] can be proved about the bytes that an object
//! tells, and runs as it is over a file, a pipe or a terminal, which tell none. The traits' clauses are
//! the only way in which anything outside is known: bytes by `rest` and `held`, faults by `faults`,
//! counts that never fall and that code generic in the traits cannot raise.
//!
//! ```text
//! let mut frames = NeverSink::new(alloc);
//! frames.put(b"GLF1")?;
//! frames.bytes() // "GLF1"
//! ```
#![tactic(auto)]

mod gate;
mod memory;
mod never;
mod sink;
mod source;

pub use gate::{Gate, NoGate, Place};
pub use memory::{MemSink, MemSource};
pub use never::{NeverSink, NeverSource};
pub use sink::{PutFault, Sink, ToWrite};
pub use source::{Failed, FromRead, Source};
