//! Set-up: from the clipped vertices of a primitive to its corners in window coordinates.
//!
//! A vertex is divided by w and placed in the viewport, and the bounds name the pixels that can be covered. Of a
//! triangle, the side that is seen decides on culling and on the colours, and polygon offset moves the depths;
//! lines and points take the front colours, and their width of the state. The answer is exactly
//! `specs/Setup.antt`, on whole numbers without bound, and it is valid for the surface: its numbers have their
//! ranges, and its bounds hold each pixel that it covers.
//!
//! ```text
//! let size = Size { w: 320, h: 240 };
//! setup(&rules, PrimKind::Triangle, &vertices, size) // Some(prim), its corners counterclockwise
//! setup(&rules, PrimKind::Triangle, &[vertices[0]; 3], size) // None: it has no area
//! setup(&rules, PrimKind::Line, &vertices, size) // Some(prim), from the first vertex to the second
//! ```
#![tactic(auto)]

mod bounds;
mod clamping;
mod cross;
mod facing;
mod line;
#[cfg(test)]
mod line_tests;
mod offset;
mod point;
mod primitive;
#[cfg(test)]
mod tests;
mod window;

pub use primitive::setup;
