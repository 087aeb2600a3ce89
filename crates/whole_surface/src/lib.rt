//! The immediate renderer's surface: the whole surface, on which each item is drawn at once and wholly before
//! the next.
//!
//! A surface is seen as the list of its rows, and what an item makes of it is `drawn` of `gl_records`: pixel by
//! pixel, with no tile and no order of pixels. The code goes by the tiles that an item's box meets; what the item fixes
//! for all of its pixels is found out once. `glplay` draws a frame's items on it in their order, and puts the rows out.
//!
//! ```text
//! let mut surface = Surface::new(alloc, size)?;
//! surface.draw(size, &item, Some(&image), None); // a primitive that is valid for this size, or a Clear
//! surface.row(size, 0, &mut bytes); // the colours of the lowest row
//! ```
#![tactic(auto)]

mod all_stages;
mod asking;
mod brush;
mod clear;
mod depth_source;
mod drawing;
mod images;
mod items;
mod open;
mod over;
mod paint;
mod painter;
mod painting;
mod primitive;
mod row_sets;
mod rows;
mod source;
mod stages;
mod surface;
#[cfg(test)]
mod tests;
mod wipe;

pub use surface::Surface;
