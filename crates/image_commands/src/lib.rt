//! What TexImage2D, TexSubImage2D and CompressedTexImage2D do to the image of one texture.
//!
//! [`asked`] answers a command's first error but for memory, or what it asks for, an [`ImageWrite`]. Contracts see
//! the image after it as `written`, the levels that GENERATE_MIPMAP makes among it. [`bytes_after`] says what it would
//! count for limits, [`prepare`] takes all the memory that it needs, and [`put`] changes the image, which takes none.
//!
//! ```text
//! let write = match asked(&image, &rec) { Ok(write) => write, Err(error) => return .. };
//! let prepared = prepare(alloc, &image, write, remakes, 4, piece_of(&rec))?;
//! put(&mut image, prepared);
//! ```
#![tactic(auto)]

mod bytes;
mod errors;
mod image_write;
mod levels;
mod prepared;
#[cfg(test)]
mod tests;
mod words;

pub use bytes::bytes_after;
pub use errors::{asked, piece_of};
pub use image_write::ImageWrite;
pub use prepared::{Prepared, prepare, put};
