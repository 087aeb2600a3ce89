ghost use Rattle.std.specs.Prelude.{◌≡◌, ◌<◌, IfSome, OnSome};
ghost use Rattle.gl_records.specs.VertexState.{IsLightInRange};
ghost use Rattle.gl_state.specs.Lights.{opening_lights, light_at, number_of as number_of_code, light as light_of};

use crate::light::RangedLight;
use fx_arith::{Fx, Mat4};
use gl_records::{Light, Params};
use gl_tokens::{GlError, LightParameter};

/// The lights, on or off (OpenGL ES 1.1.12, 2.12.1).
#[derive(Clone, Copy, Debug, PartialEq, Eq)]
pub struct Lights {
    /// By their numbers.
    pub all: [RangedLight; 8],
}

impl Lights {
    /// The first light is white, and the others are black.
    pub fn new() -> Lights
        ensures { result ≡ opening_lights }
    {
        let black = RangedLight::new(Fx::ZERO);
        Lights {
            all: [
                RangedLight::new(Fx::ONE),
                black,
                black,
                black,
                black,
                black,
                black,
                black,
            ],
        }
    }

    /// A light, by its number.
    pub fn get(&self, number: usize) -> Light
        requires { number < 8 }
        ensures value { result ≡ light_at self.now number }
        ensures range { IsLightInRange result }
    {
        self.all[number].get()
    }

    /// Lightx, while this is the modelview matrix: InvalidEnum where there is no such light or no such parameter;
    /// InvalidValue where an exponent isn't 0 to 128, a cutoff neither 0 to 90 nor 180 degrees, or an attenuation below 0.
    pub(crate) fn light(
        &mut self,
        modelview: &Mat4,
        name: u32,
        code: u32,
        values: &Params,
    ) -> Option<GlError>
        ensures run { (self.new, result) ≡ light_of self.old modelview.now name code values.now }
        ensures unchanged { OnSome result (self.new ≡ self.old) }
    {
        let Some(number) = number_of(name) else {
            return Some(GlError::InvalidEnum);
        };
        let Some(parameter) = LightParameter::from_code(code) else {
            return Some(GlError::InvalidEnum);
        };
        match self.all[number].with(modelview, parameter, values) {
            Ok(changed) => {
                self.all[number] = changed;
                None
            }
            Err(error) => Some(error),
        }
    }
}

/// The number of a light, 0 to 7, by its code.
fn number_of(code: u32) -> Option<usize>
    ensures value { result ≡ number_of_code code }
    ensures bound { IfSome result (λ number. number < 8) }
{
    if 0x4000 <= code && code <= 0x4007 {
        Some((code - 0x4000) as usize)
    } else {
        None
    }
}
