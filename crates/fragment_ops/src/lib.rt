//! What happens to one pixel of the surface.
//!
//! The definitions are those of `gl_records`; whoever calls has seen to it that the item covers the pixel.
//!
//! ```text
//! clear_step(&clear, Pixel::OPENING).rgba // the clear colour, where its masks let it through
//! ```
#![tactic(auto)]

mod alpha_test;
mod blending;
mod clear;
mod color_mask;
mod comparison;
mod depth_test;
mod fragment;
mod logic_op;
mod stencil_test;

pub use clear::clear_step;
pub use fragment::{blend, pixel_step, tests};

#[cfg(test)]
mod tables;
