//! The state of the commands, but for arrays and objects: what each command makes of it, and its error.
//!
//! Each subject has a struct, a file and a module of definitions in `specs/`; [`State`] puts them together and
//! dispatches. A command is one equation, the state after it and its error: `(self.new, result) ≡ ..`. With an error
//! nothing is changed.
//!
//! ```text
//! let mut state = State::new(size);
//! state.apply(&Rec::ShadeModel { model: 0x1D00 }) // None, and the state is flat
//! state.apply(&Rec::ShadeModel { model: 0x1D02 }) // Some(GlError::InvalidEnum), and it still is
//! ```
#![tactic(auto)]

mod alignment;
mod blending;
mod clear_item;
mod clears;
mod current;
mod environments;
mod error_flag;
mod fog;
mod fog_rule;
mod frag_state;
mod fragment_tests;
mod light;
#[cfg(test)]
mod light_tests;
mod lighting;
mod lights;
mod material;
mod pixels;
mod raster;
mod state;
mod switches;
#[cfg(test)]
mod tests;
mod transforms;
mod unit_fx;
mod values;
mod vertex_state;
mod viewport;

pub use alignment::Alignment;
pub use blending::Blending;
pub use clears::{Clears, clear_error};
pub use current::CurrentValues;
pub use environments::{Environment, Environments};
pub use error_flag::ErrorFlag;
pub use fog::Fog;
pub use fog_rule::RangedFog;
pub use frag_state::UnitImage;
pub use fragment_tests::FragmentTests;
pub use light::RangedLight;
pub use lighting::Lighting;
pub use lights::Lights;
pub use material::RangedMaterial;
pub use pixels::PixelStorage;
pub use raster::Raster;
pub use state::State;
pub use switches::Switches;
pub use unit_fx::UnitFx;
pub use viewport::{ViewportPlace, ViewportSide};
