//! The surface, kept in tiles of 16 by 16 pixels.
//!
//! Whoever draws takes the tiles apart, each by its number and its place by `tile_rect` of `gl_records`; whoever reads
//! asks for pixels and rows of the whole. The tiles at the right and at the top may reach beyond the surface: what they
//! hold there is never shown. Contracts see the sides and the tiles, and `surface_of` reads the whole surface from them,
//! its rows from the bottom.
//!
//! ```text
//! let mut surface = Surface::new(alloc, Size { w: 20, h: 5 })?;
//! surface.tiles_mut()[1].pixels[16].rgba = [255; 4];
//! surface.pixel(16, 1) // that pixel: of the second tile the first of its second row
//! surface.pixel(20, 0) // None
//! ```
#![tactic(auto)]

mod places;
mod surface;
#[cfg(test)]
mod tests;
mod tile;

pub use places::tile_places;
pub use surface::Surface;
pub use tile::Tile;
