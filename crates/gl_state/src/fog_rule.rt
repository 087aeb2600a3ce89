ghost use Rattle.std.specs.Prelude.{◌≡◌};
ghost use Rattle.gl_records.specs.VertexState.{IsFogInRange};
ghost use Rattle.gl_state.specs.Fog.{opening_rule, with_rule as with_rule_of};

use crate::values::word;
use fx_arith::Fx;
use gl_records::{FogRule, Params};
use gl_tokens::{FogMode, FogParameter, GlError};
use std::marker::Model;

/// How fog grows with the distance, with a density of at least 0. Contracts see it as the rule.
#[derive(Clone, Copy, Debug, PartialEq, Eq)]
pub struct RangedFog(FogRule);

impl Model for RangedFog {
    ghost use Rattle.gl_records.specs.declared.fog_rule.FogRule.{FogRule};
    ghost use Rattle.gl_records.specs.VertexState.{IsFogInRange};

    ghost Value = { FogRule };

    ghost view = { λ ranged. ranged.0 };

    ghost invariant = { λ ranged. IsFogInRange ranged.0 };

    ghost inverse = { λ rule. record { 0 = rule } };
}

impl RangedFog {
    /// Exponential with density 1, linear from 0 to 1.
    pub(crate) fn new() -> RangedFog
        ensures { result ≡ opening_rule }
    {
        RangedFog(FogRule {
            mode: FogMode::Exp,
            density: Fx::ONE,
            start: Fx::ZERO,
            end: Fx::ONE,
        })
    }

    /// The rule.
    pub fn get(self) -> FogRule
        ensures value { result ≡ self }
        ensures range { IsFogInRange result }
    {
        self.0
    }

    /// The rule with another parameter; the colour is none of its parts.
    pub(crate) fn with(self, parameter: FogParameter, values: &Params) -> Result<RangedFog, GlError>
        ensures { result ≡ with_rule_of self parameter values.now }
    {
        let mut rule = self.0;
        match parameter {
            FogParameter::Mode => match FogMode::from_code(word(values)) {
                Some(mode) => rule.mode = mode,
                None => return Err(GlError::InvalidEnum),
            },
            FogParameter::Density => {
                if values.0.0 < 0 {
                    return Err(GlError::InvalidValue);
                }
                rule.density = values.0;
            }
            FogParameter::Start => rule.start = values.0,
            FogParameter::End => rule.end = values.0,
            FogParameter::Color => {}
        }
        Ok(RangedFog(rule))
    }
}
