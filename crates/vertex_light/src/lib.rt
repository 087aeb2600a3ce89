//! Lighting of vertices (OpenGL ES 1.1.12, 2.12).
//!
//! The definitions in `specs/` say what the colour of one vertex is: the sum over the lights, in their order, with the
//! saturation of each addition. What is the same for all vertices of a draw is computed once, by [`Lights::new`], whose value
//! contracts see as the state that it stands for.
//!
//! ```text
//! let lights = Lights::new(&state); // once for a draw
//! lights.light(color, normal, eye) // R G B A, each 0 to 1, of one vertex
//! ```
#![tactic(auto)]

mod components;
mod lights;
mod prepared_light;
mod reflectance;

pub use components::{first_three, reversed};
pub use lights::{Lights, light};

#[cfg(test)]
mod tests;
