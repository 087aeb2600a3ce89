//! Versions of texture images, and what a write to one does while a pass still names it.
//!
//! A texture object has one current version. What is to be drawn later names the version that was current at its
//! record; a write leaves such a version as it is, as a ghost, and makes a new one. The definitions are those of
//! `specs/Versions.antt`; the texture objects call this crate.
//!
//! ```text
//! let lent = Lent::empty(alloc);
//! let mut images = Images::new(alloc);
//! let v = images.commit(&lent, None, Some(ImageSet::empty()))?; // a first version
//! ```
#![tactic(auto)]

mod held;
mod images;
mod lent;
#[cfg(test)]
mod tests;
mod wrote;

pub use images::Images;
pub use lent::Lent;
pub use wrote::Wrote;
