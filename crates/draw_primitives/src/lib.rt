//! The primitives of a draw, one after the other.
//!
//! A draw's record, the arrays and the state of its moment make a list of primitives: each mode puts vertices together, a
//! flat primitive takes the colours of its last corner, clipping leaves a polygon of it, and set-up takes the triangles of the
//! polygon's fan to the window (OpenGL ES 1.1.12, 2.6 to 2.12). A [`Draw`] is seen as what is left of that list. It fetches
//! and transforms the corners of a primitive when the one before it is used up, and takes no memory but its own.
//!
//! ```text
//! let mut draw = Draw::new(state, rec, None, Mode::TriangleStrip, 4); // before its first primitive
//! draw.next(&Memory::new(&arrays, &buffers, &regions), size) // Some: a primitive that is valid for a surface of this size
//! ```
#![tactic(auto)]

mod corners;
mod draw;
mod draw_state;
mod fan;
mod known;
mod memory;

pub use draw::Draw;
pub use draw_state::DrawState;
pub use memory::Memory;

#[cfg(test)]
mod tests;
