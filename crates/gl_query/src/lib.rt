//! Queries: what Get and IsEnabled answer of the state and of what is bound, each value as it is kept.
//!
//! `answer_of` of `specs/Answer.antt` is the table of Get, a definition a subject. The front calls [`answer`] and
//! writes the numbers into the log.
//!
//! ```text
//! answer(&state, &bound, &Rec::Get { query: 0x0B74 }) // Ok, of the depth test's comparison alone: 0x0201
//! answer(&state, &bound, &Rec::Get { query: 0x1234 }) // Err(GlError::InvalidEnum)
//! ```
#![tactic(auto)]

mod bound;
mod queries;
mod values;

pub use bound::Bound;
pub use queries::answer;
pub use values::{Values, truth};
