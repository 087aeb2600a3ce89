//! The modes of a texture environment, one type for each, so that a loop over pixels chooses none.
ghost use Rattle.std.specs.Prelude.{◌≡◌};
ghost use Rattle.gl_tokens.specs.declared.env_mode.EnvMode.{EnvMode};
ghost use Rattle.gl_tokens.specs.declared.env_mode.EnvMode.TheVariants as modes;
ghost use Rattle.gl_records.specs.TextureEnvironment.{environment as environment_of};

use crate::combine::combined;
use crate::functions::{added, blended, decaled, modulated, replaced};
use gl_records::UnitState;

pub trait Mode {
    ghost mode: { EnvMode };

    /// The colour behind a unit of this mode.
    fn color(unit: &UnitState, texel: [u8; 4], primary: [u8; 4], previous: [u8; 4]) -> [u8; 4]
        requires { unit.now.env.mode ≡ mode }
        ensures { result ≡ environment_of unit.now texel primary previous };
}

/// ADD.
pub struct Adding;

#[tactic(auto, unfolding(gl_records::specs::TextureEnvironment::environment))]
impl Mode for Adding {
    ghost mode = { modes.Add };

    fn color(unit: &UnitState, texel: [u8; 4], _primary: [u8; 4], previous: [u8; 4]) -> [u8; 4] {
        added(unit.format, previous, texel)
    }
}

/// BLEND.
pub struct Blending;

#[tactic(auto, unfolding(gl_records::specs::TextureEnvironment::environment))]
impl Mode for Blending {
    ghost mode = { modes.Blend };

    fn color(unit: &UnitState, texel: [u8; 4], _primary: [u8; 4], previous: [u8; 4]) -> [u8; 4] {
        blended(unit.format, unit.env.color, previous, texel)
    }
}

/// REPLACE.
pub struct Replacing;

#[tactic(auto, unfolding(gl_records::specs::TextureEnvironment::environment))]
impl Mode for Replacing {
    ghost mode = { modes.Replace };

    fn color(unit: &UnitState, texel: [u8; 4], _primary: [u8; 4], previous: [u8; 4]) -> [u8; 4] {
        replaced(unit.format, previous, texel)
    }
}

/// MODULATE.
pub struct Modulating;

#[tactic(auto, unfolding(gl_records::specs::TextureEnvironment::environment))]
impl Mode for Modulating {
    ghost mode = { modes.Modulate };

    fn color(unit: &UnitState, texel: [u8; 4], _primary: [u8; 4], previous: [u8; 4]) -> [u8; 4] {
        modulated(unit.format, previous, texel)
    }
}

/// DECAL.
pub struct Decaling;

#[tactic(auto, unfolding(gl_records::specs::TextureEnvironment::environment))]
impl Mode for Decaling {
    ghost mode = { modes.Decal };

    fn color(unit: &UnitState, texel: [u8; 4], _primary: [u8; 4], previous: [u8; 4]) -> [u8; 4] {
        decaled(unit.format, previous, texel)
    }
}

/// COMBINE.
pub struct Combining;

#[tactic(auto, unfolding(gl_records::specs::TextureEnvironment::environment))]
impl Mode for Combining {
    ghost mode = { modes.Combine };

    fn color(unit: &UnitState, texel: [u8; 4], primary: [u8; 4], previous: [u8; 4]) -> [u8; 4] {
        combined(&unit.env, texel, primary, previous)
    }
}
