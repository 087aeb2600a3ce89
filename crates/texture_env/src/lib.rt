//! The colour of a primitive at a pixel: interpolated, textured by both units, and in fog.
//!
//! The definition stands in `gl_records`: `shaded` for [`shade`]. A pixel goes in steps: how much each corner counts
//! there, found out once; the colour before texturing; then for each unit that is on its coordinates, the levels that
//! its sampler reads, its texel, and its environment; and at last fog.
//!
//! ```text
//! shade(&state, Some(&image), None, &prim, x, y) // R G B A
//! ```
#![tactic(auto)]

mod bits;
mod combine;
#[cfg(test)]
mod combine_tests;
mod coordinate_rows;
mod environment;
#[cfg(test)]
mod environment_tests;
mod fog;
mod functions;
mod known_rows;
mod line;
mod lines;
mod modes;
mod moves;
mod row_values;
mod rows;
mod shader;
mod shading;
#[cfg(test)]
mod shading_tests;
mod tile_unit;
mod unit;
mod unit_line;

pub use lines::Lines;
pub use shader::{Shader, TileShader};
pub use shading::{shade, shade_plainly};
