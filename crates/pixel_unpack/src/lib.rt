//! Texel formats: the bytes of an image, with or without a palette, as texels R G B A.
//!
//! Contracts cite `image` for [`unpack`], `palette_size` for [`palette_size`] and `palette_levels` for
//! [`unpack_palette`]: each texel by its place in the piece, whose missing bytes are zeros and whose further ones
//! are ignored. The store of textures unpacks what TexImage2D, TexSubImage2D and CompressedTexImage2D bring.
//!
//! ```text
//! // rows of 2 texels of 3 bytes, each row on 8 bytes
//! let texels = unpack(alloc, BaseFormat::Rgb, TexelType::UnsignedByte, 4, 2, 2, piece)?;
//! palette_size(PaletteFormat::Palette4Rgb8, 2, 2, 1) // 50
//! let levels = unpack_palette(alloc, PaletteFormat::Palette4Rgb8, 2, 2, 1, piece)?;
//! ```
#![tactic(auto)]

mod component;
mod image;
mod layout;
mod levels;
mod palette;

pub use image::unpack;
pub use levels::{level_side, palette_size, unpack_palette};

#[cfg(test)]
mod tests;
