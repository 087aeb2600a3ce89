//! Texture objects: their names, how they are read, their images, and which are bound.
//!
//! Contracts see [`Textures`] as `StoredTextures`, and commands speak of `objects_of` it: a finite map from the live names
//! to the textures that they stand for, by value, the texture of name 0, and the names that are bound. Each command is
//! one equation: `given_names` and `behind_names`, `bind`, `parameter`, `written`, `without_names`. The images themselves
//! stand in `Images` of `texture_ghosts`, beside these textures: their current versions are exactly the images of these
//! textures (`AreOf`).
//!
//! ```text
//! textures.bind(0, 0x0DE1, 1)?; // None: name 1 stands for a texture, and it is bound to unit 0
//! textures.write(&mut images, &lent, 0, 4, &rec)?; // Done: its image has another level
//! let (version, format, sampler) = textures.unit_image(&images, &lent, 0)?; // where it is complete
//! ```
#![tactic(auto)]

mod change;
mod copies;
mod deletion;
mod object;
mod parameters;
#[cfg(test)]
mod tests;
mod textures;
mod unit_image;
mod writes;
mod written;

pub use parameters::Parameters;
pub use textures::Textures;
pub use written::Written;
