//! The values of a primitive at a pixel, in perspective: its colour before texturing, its texture coordinates, its fog
//! factor.
//!
//! The definitions stand in `gl_records`. A pixel goes in steps: how much each corner counts there, found out once, and
//! then each value by these shares.
//!
//! ```text
//! let shares = shares_at(&prim, x, y);
//! interpolated_color(&prim, &shares) // R G B A
//! ```
#![tactic(auto)]

mod channels;
mod color;
mod color_rows;
mod coordinate_rows;
mod coordinates;
#[cfg(test)]
mod depth_tests;
mod depths;
mod divisor;
mod flat;
mod fog;
mod frame;
mod ratio;
mod shares;
mod sharing;
mod slopes;
mod spot;
#[cfg(test)]
mod tests;
mod texture_coordinates;
mod unit_ratios;
mod values;

pub use color::interpolated_color;
pub use coordinates::Coordinates;
pub use depths::TileDepths;
pub use flat::flat_color;
pub use fog::fog_byte;
pub use shares::Shares;
pub use sharing::{beyond, shares_at, sum, total};
pub use spot::Spot;
pub use texture_coordinates::coordinates_at;
pub use values::{Asked, PrimitiveValues, TileValues};
