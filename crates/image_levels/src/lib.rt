//! What the commands of images do to the levels of an image.
//!
//! A level is written where it stands: none is copied. Levels that GENERATE_MIPMAP makes are given their memory
//! first, so that whoever calls can still refuse the command; the rest takes none.
//!
//! ```text
//! put_texels(&mut level, TexelBox { x: 1, y: 0, w: 2, h: 1 }, &[5, 6]); // two texels of the bottom row
//! ```
#![tactic(auto)]

mod levels;
mod mipmaps;
mod smaller;
mod sub_image;
#[cfg(test)]
mod tests;
mod texel_box;

pub use levels::{put_level, put_levels};
pub use mipmaps::{blank_levels, bytes_behind, mipmap_bytes, remake};
pub use sub_image::{put_sub_image, put_texels};
pub use texel_box::TexelBox;
