ghost use Rattle.std.specs.Prelude.{◌≡◌, ◌<◌};
ghost use Rattle.gl_records.specs.VertexState.{IsLightInRange};
ghost use Rattle.gl_state.specs.Lights.{opening_light, three_of as three_of_values, is_cutoff as is_cutoff_of, with_attenuation as with_attenuation_of, with_parameter as with_parameter_of};

use crate::lighting::grey;
use crate::values::{is_exponent, vector};
use fx_arith::{Fx, Mat4};
use gl_records::{Light, Params};
use gl_tokens::{GlError, LightParameter};
use matrix_stacks::{direction_to_eye, transform};
use std::marker::Model;

/// A light whose exponent is 0 to 128. Contracts see it as the light.
#[derive(Clone, Copy, Debug, PartialEq, Eq)]
pub struct RangedLight(Light);

impl Model for RangedLight {
    ghost use Rattle.gl_records.specs.declared.light.Light.{Light};
    ghost use Rattle.gl_records.specs.VertexState.{IsLightInRange};

    ghost Value = { Light };

    ghost view = { λ ranged. ranged.0 };

    ghost invariant = { λ ranged. IsLightInRange ranged.0 };

    ghost inverse = { λ light. record { 0 = light } };
}

impl RangedLight {
    /// A light of this diffuse and specular brightness: ambient 0 0 0 1, from 0 0 1 0, no spotlight, 0 0 -1, not attenuated.
    pub(crate) fn new(brightness: Fx) -> RangedLight
        ensures { result ≡ opening_light brightness }
    {
        RangedLight(Light {
            ambient: grey(Fx::ZERO),
            diffuse: grey(brightness),
            specular: grey(brightness),
            position: [Fx::ZERO, Fx::ZERO, Fx::ONE, Fx::ZERO],
            direction: [Fx::ZERO, Fx::ZERO, Fx(-65536)],
            exponent: Fx::ZERO,
            cutoff: Fx(180 * 65536),
            attenuation: [Fx::ONE, Fx::ZERO, Fx::ZERO],
        })
    }

    /// The light.
    pub fn get(&self) -> Light
        ensures value { result ≡ self.now }
        ensures range { IsLightInRange result }
    {
        self.0
    }

    /// The light with another parameter, while this is the modelview matrix: InvalidValue where it is outside of its range.
    pub(crate) fn with(
        &self,
        modelview: &Mat4,
        parameter: LightParameter,
        values: &Params,
    ) -> Result<RangedLight, GlError>
        ensures { result ≡ with_parameter_of self.now modelview.now parameter values.now }
    {
        let mut light = self.0;
        match parameter {
            LightParameter::Ambient => light.ambient = vector(values),
            LightParameter::Diffuse => light.diffuse = vector(values),
            LightParameter::Specular => light.specular = vector(values),
            LightParameter::Position => light.position = transform(modelview, vector(values)),
            LightParameter::SpotDirection => {
                light.direction = direction_to_eye(modelview, three_of(values));
            }
            LightParameter::SpotExponent => {
                if !is_exponent(values.0) {
                    return Err(GlError::InvalidValue);
                }
                light.exponent = values.0;
            }
            LightParameter::SpotCutoff => {
                if !is_cutoff(values.0) {
                    return Err(GlError::InvalidValue);
                }
                light.cutoff = values.0;
            }
            LightParameter::ConstantAttenuation => return self.with_attenuation(0, values.0),
            LightParameter::LinearAttenuation => return self.with_attenuation(1, values.0),
            LightParameter::QuadraticAttenuation => return self.with_attenuation(2, values.0),
        }
        Ok(RangedLight(light))
    }

    fn with_attenuation(&self, k: usize, value: Fx) -> Result<RangedLight, GlError>
        requires { k < 3 }
        ensures { result ≡ with_attenuation_of self.now k value }
    {
        if value.0 < 0 {
            return Err(GlError::InvalidValue);
        }
        let mut light = self.0;
        light.attenuation[k] = value;
        Ok(RangedLight(light))
    }
}

/// The first three of a parameter's numbers.
fn three_of(values: &Params) -> [Fx; 3]
    ensures { result ≡ three_of_values values.now }
{
    [values.0, values.1, values.2]
}

/// Whether this may be a cutoff: 0 to 90 degrees, or 180.
fn is_cutoff(angle: Fx) -> bool
    ensures { result ≡ is_cutoff_of angle }
{
    (0 <= angle.0 && angle.0 <= 90 * 65536) || angle.0 == 180 * 65536
}
