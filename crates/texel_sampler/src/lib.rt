//! Texels of an image at texture coordinates: levels of detail, wrap modes and filters.
//!
//! The definitions stand in `gl_records`: `texel_of` for [`texel`], which is [`choose`] and then [`filter`], so that
//! whoever samples many pixels of one primitive can choose once where [`asks_for_rho`] says so, as an [`ImageSampler`]
//! does. Its call for a row of sixteen pixels goes by loops that are generic over the wrap modes ([`wrapping`]), the
//! filter inside of a level ([`filtering`]) and the choice of levels ([`minifying`]), each chosen once for the row.
//!
//! ```text
//! let choice = choose(sampler, last_level(&set), rho); // one level or two, how much the second counts
//! filter(&set, sampler, choice, s, t)                  // R G B A
//!
//! let image = ImageSampler::new(&set, sampler);
//! image.texel(s, t, rho);                              // the same
//! image.texels(bits, &s, &t, &rhos, &mut texels);      // of the pixels of a row whose bits are set
//! ```
#![tactic(auto)]

mod bits;
mod blending;
mod choice;
mod choice_row;
mod detail;
mod filtering;
mod image_sampler;
mod lanes;
mod level_texel;
mod linear;
mod minifying;
mod nearest;
#[cfg(test)]
mod places;
mod sampling;
#[cfg(test)]
mod tests;
mod texel_row;
mod wrapping;

pub use bits::{is_set, run_of};
pub use choice::{asks_for_rho, choose};
pub use image_sampler::ImageSampler;
pub use sampling::{filter, texel};
