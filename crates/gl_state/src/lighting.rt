ghost use Rattle.std.specs.Prelude.{◌≡◌, OnSome};
ghost use Rattle.gl_state.specs.Lighting.{grey as grey_of, opening_lighting, with_model as with_model_of, light_model as light_model_of, following, material as material_of};

use crate::material::RangedMaterial;
use crate::values::{vector, word};
use fx_arith::Fx;
use gl_records::Params;
use gl_tokens::{Face, GlError, LightModelParameter, MaterialParameter};

/// The material, and the lighting model (OpenGL ES 1.1.12, 2.12.2).
#[derive(Clone, Copy, Debug, PartialEq, Eq)]
pub struct Lighting {
    /// Of both sides; its shininess is 0 to 128.
    pub material: RangedMaterial,
    /// The ambient colour of the scene, R G B A, as it was given.
    pub scene: [Fx; 4],
    /// Whether triangles that face back take their corners' back colours.
    pub two_side: bool,
}

impl Lighting {
    pub fn new() -> Lighting
        ensures { result ≡ opening_lighting }
    {
        Lighting {
            material: RangedMaterial::new(),
            scene: grey(Fx(13107)),
            two_side: false,
        }
    }

    /// LightModelx: InvalidEnum where there is no such parameter.
    pub(crate) fn light_model(&mut self, code: u32, values: &Params) -> Option<GlError>
        ensures run { (self.new, result) ≡ light_model_of self.old code values.now }
        ensures unchanged { OnSome result (self.new ≡ self.old) }
    {
        match LightModelParameter::from_code(code) {
            Some(parameter) => {
                self.set_model(parameter, values);
                None
            }
            None => Some(GlError::InvalidEnum),
        }
    }

    fn set_model(&mut self, parameter: LightModelParameter, values: &Params)
        ensures { self.new ≡ with_model_of self.old parameter values.now }
    {
        match parameter {
            LightModelParameter::TwoSide => self.two_side = word(values) != 0,
            LightModelParameter::Ambient => self.scene = vector(values),
        }
    }

    /// The ambient and the diffuse colour follow the current colour.
    pub(crate) fn follow(&mut self, color: [Fx; 4])
        ensures { self.new ≡ following self.old color }
    {
        self.material = self.material.following(color);
    }

    /// Materialx, while the material follows the current colour or doesn't: InvalidEnum where the side isn't
    /// FRONT_AND_BACK, or where there is no such parameter; InvalidValue where the shininess isn't 0 to 128.
    pub(crate) fn material(
        &mut self,
        follows: bool,
        side: u32,
        code: u32,
        values: &Params,
    ) -> Option<GlError>
        ensures run { (self.new, result) ≡ material_of self.old follows side code values.now }
        ensures unchanged { OnSome result (self.new ≡ self.old) }
    {
        if side != Face::FrontAndBack.code() {
            return Some(GlError::InvalidEnum);
        }
        let Some(parameter) = MaterialParameter::from_code(code) else {
            return Some(GlError::InvalidEnum);
        };
        match self.material.with(follows, parameter, values) {
            Ok(changed) => {
                self.material = changed;
                None
            }
            Err(error) => Some(error),
        }
    }
}

/// A grey of this brightness, opaque.
pub(crate) fn grey(brightness: Fx) -> [Fx; 4]
    ensures { result ≡ grey_of brightness }
{
    [brightness, brightness, brightness, Fx::ONE]
}
