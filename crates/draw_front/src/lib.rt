//! The collecting side: what a record asks for. It turns the records of a trace into items, which are drawn
//! elsewhere, and into lines of the log.
//!
//! One command is `called` of `specs/Call.antt`, and what a whole trace makes is `frames_of` and `log_of` of
//! `specs/Immediate.antt`; whatever draws cites them too. The [`Front`] is seen as a record: the context of the
//! commands, the items still to come of the record in hand, the lines that wait. It knows no surface and no sink.
//! Images that a pass draws with are lent to it; as yet there is no such pass, and none is lent.
//!
//! ```text
//! let step = front.step(rec, &lent)?; // Items for a draw or a Clear, Present for Swap, Ended for End, else Quiet
//! while let Some(item) = front.next_item(rt, &lent)? { .. } // in their order, each wholly before the next
//! let lines = front.take_lines(); // of the records run since lines were taken last
//! ```
#![tactic(auto)]

mod context;
mod draw_state;
mod front;
mod owned_textures;
mod pending;
mod step;
#[cfg(test)]
mod tests;

pub use front::Front;
pub use step::Step;
