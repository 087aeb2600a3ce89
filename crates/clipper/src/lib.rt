//! Clipping: the part of a point, of a line segment or of a triangle that lies in the clip volume and on the
//! inner side of the user's plane (OpenGL ES 1.1.12, 2.11).
//!
//! One plane clips after another, in this project's order: w at least one raw unit, then left and right, bottom
//! and top, near and far, then the user's plane where it is on. A vertex on a plane is inside of it. Every
//! component of a corner that clipping makes goes by one formula, rounded down. The answers are exactly those of
//! `specs/`, on whole numbers without bound, and each vertex in them can be divided by its w.
//!
//! ```text
//! clip_point(&vertex, false) // true where the vertex is inside of the seven planes, the user's left out
//! clip_line(&[a, b], false) // None, or Some: its two ends, in their order
//! clip_triangle(&[a, b, c], true) // 0, or 3 to 11 corners of a polygon, whose fan is to be drawn
//! ```
#![tactic(auto)]

mod clip;
mod crossing;
mod planes;
mod polygon;
mod segment;

pub use clip::{clip_line, clip_point, clip_triangle};
pub use polygon::CORNERS;

#[cfg(test)]
mod tests;
