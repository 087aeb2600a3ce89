//! Linear functions of a pixel's place within a tile, and their quotients, rounded down.
//!
//! A tile has 16 columns and 16 rows; places go from 0 to 16 in both directions, so one pixel beyond.
//!
//! ```text
//! let plane = narrowed(5, 3, -1)?; // 5, and 3 more in each column, 1 less in each row
//! plane.at(2, 1) // 5 + 2 * 3 - 1 = 10
//! Reciprocal::new(3).floor_quotient(-10) // -4
//! fixed_quotient(&plane, 3) // the quotients by 3, each at two products and a shift
//! ```
#![tactic(auto)]

mod fixed_plane;
mod fixed_quotients;
mod places;
mod plane;
mod reciprocals;
#[cfg(test)]
mod tests;

pub use fixed_plane::FixedPlane;
pub use fixed_quotients::{fixed_quotient, fixed_quotient_by};
pub use places::narrowed;
pub use plane::Plane;
pub use reciprocals::Reciprocal;
