//! The vertex stage: from what the arrays and the current values give a vertex to the vertex in clip coordinates
//! (OpenGL ES 1.1.12, 2.10 to 2.12 and 3.8).
//!
//! A vertex is taken by itself, so the vertices of a draw can be run in any order. What is the same for all of them is
//! computed once, by [`Stage::new`], whose value contracts see as the state that it stands for.
//!
//! ```text
//! let stage = Stage::new(&state); // once for a draw
//! stage.run(&attribs) // x y z w, the distance from the user's plane, colours, texture coordinates, the fog factor
//! ```
#![tactic(auto)]

mod coordinates;
mod fog;
mod stage;

pub use stage::{Stage, run};

#[cfg(test)]
mod tests;
