//! The matrix stacks of OpenGL ES 1.1 and their commands, and what is made with their matrices: products, and
//! normals and planes in eye coordinates.
//!
//! There are a modelview stack of up to 16 matrices and stacks of up to 2: one for projection and one for the
//! textures of each of two units. Each always has a top. Every number is exactly its definition in `specs/`.
//!
//! ```text
//! let mut stacks = Stacks::new();
//! stacks.set_mode(MatrixMode::Projection);
//! stacks.frustum([l, r, b, t, n, f]) // None, or Some(GlError::InvalidValue)
//! transform(stacks.top(MatrixMode::Projection, 0), position)
//! ```
#![tactic(auto)]

mod normal_matrix;
mod normals;
mod products;
mod projections;
mod stack;
mod stacks;
mod transforms;

pub use normal_matrix::NormalMatrix;
pub use normals::{
    cofactor, determinant, direction_to_eye, normal_to_eye, plane_to_eye, rescale_normal,
};
pub use products::transform;
pub use stacks::Stacks;

#[cfg(test)]
mod tests;
