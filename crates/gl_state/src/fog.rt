ghost use Rattle.std.specs.Prelude.{◌≡◌, OnSome};
ghost use Rattle.gl_state.specs.Fog.{opening_fog, fog as fog_of};

use crate::fog_rule::RangedFog;
use crate::values::vector;
use fx_arith::Fx;
use gl_records::Params;
use gl_tokens::{FogParameter, GlError};

/// Fog (OpenGL ES 1.1.12, 3.8).
#[derive(Clone, Copy, Debug, PartialEq, Eq)]
pub struct Fog {
    /// How it grows with the distance; the density is at least 0.
    pub rule: RangedFog,
    /// R G B A, as it was given.
    pub color: [Fx; 4],
}

impl Fog {
    /// Exponential with density 1, linear from 0 to 1, colour 0 0 0 0.
    pub fn new() -> Fog
        ensures { result ≡ opening_fog }
    {
        Fog {
            rule: RangedFog::new(),
            color: [Fx::ZERO; 4],
        }
    }

    /// Fogx: InvalidEnum where there is no such parameter, or no such mode; InvalidValue where the density is below 0.
    pub(crate) fn fog(&mut self, code: u32, values: &Params) -> Option<GlError>
        ensures run { (self.new, result) ≡ fog_of self.old code values.now }
        ensures unchanged { OnSome result (self.new ≡ self.old) }
    {
        let Some(parameter) = FogParameter::from_code(code) else {
            return Some(GlError::InvalidEnum);
        };
        if let FogParameter::Color = parameter {
            self.color = vector(values);
            return None;
        }
        match self.rule.with(parameter, values) {
            Ok(changed) => {
                self.rule = changed;
                None
            }
            Err(error) => Some(error),
        }
    }
}
