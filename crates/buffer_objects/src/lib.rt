//! Buffer objects: their names, their bytes, and which are bound.
//!
//! Contracts see [`Buffers`] as `BufferObjects`: a finite map from the live names to the objects that they stand for,
//! the two bindings, and how many objects were made. Each command is one equation: `given_names` and `behind_names`,
//! `bind`, `data_of`, `sub_data`, `without_names`. A [`BufferKey`] names one object for good: `bytes_of` reads that
//! object's bytes as they are now, and none once it is deleted ([`keys_name_one_object`]). The context runs the commands, and vertex arrays keep
//! keys.
//!
//! ```text
//! buffers.bind(0x8892, 1)?; // None: name 1 stands for an object, and it is bound
//! buffers.fill(0x8892, 0x88E4, 4, piece)?; // None
//! let (name, key) = buffers.bound(0x8892)?; // 1, and a key whose bytes are the piece's first four
//! ```
#![tactic(auto)]

mod bindings;
mod buffer_key;
mod buffers;
mod laws;
mod object;
mod pieces;
#[cfg(test)]
mod tests;

pub use buffer_key::BufferKey;
pub use buffers::Buffers;
pub use laws::keys_name_one_object;
