//! Which pixels of a tile a primitive covers, how much its corners count at a pixel, and its depth there.
//!
//! A triangle goes by its edge functions at the centres of pixels, on whole numbers and without rounding, as the
//! definitions of `gl_records` have it. A pixel whose centre lies on an edge belongs to the triangle on that side
//! which the edge's direction names, so two triangles at an edge leave no gap and draw no pixel twice. A line has
//! a run of pixels in each column that it goes through, or in each row where it is steep; a point is a square of
//! them. A caller shows that the primitive's numbers are in range, which is a part of its being valid for a
//! surface.
//!
//! ```text
//! let p = triangle((0, 0), (256, 0), (0, 256)); // corners in 1/16 pixel
//! rows(&p, TileRect { x0: 0, y0: 0 })[15]       // 1: of row 15 the first pixel alone
//! weights(&p, 0, 0)                             // [61440, 2048, 2048], twice the area in all
//! ```
#![tactic(auto)]

mod at_pixel;
mod edges;
mod fill_rule;
mod line;
#[cfg(test)]
mod line_tests;
mod line_weights;
mod point;
mod run_bits;
#[cfg(test)]
mod tests;
mod tile_rows;
mod triangle;

pub use at_pixel::{depth_at, weights};
pub use fill_rule::shared_edge;
pub use tile_rows::rows;
