ghost use Rattle.std.specs.Prelude.{◌≡◌};
ghost use Rattle.gl_records.specs.VertexState.{IsMaterialInRange};
ghost use Rattle.gl_state.specs.Lighting.{opening_material, with_colors, with_material as with_material_of};

use crate::lighting::grey;
use crate::values::{is_exponent, vector};
use fx_arith::Fx;
use gl_records::{Material, Params};
use gl_tokens::{GlError, MaterialParameter};
use std::marker::Model;

/// A material whose shininess is 0 to 128. Contracts see it as the material.
#[derive(Clone, Copy, Debug, PartialEq, Eq)]
pub struct RangedMaterial(Material);

impl Model for RangedMaterial {
    ghost use Rattle.gl_records.specs.declared.material.Material.{Material};
    ghost use Rattle.gl_records.specs.VertexState.{IsMaterialInRange};

    ghost Value = { Material };

    ghost view = { λ ranged. ranged.0 };

    ghost invariant = { λ ranged. IsMaterialInRange ranged.0 };

    ghost inverse = { λ material. record { 0 = material } };
}

impl RangedMaterial {
    /// Ambient 0.2 0.2 0.2 1, diffuse 0.8 0.8 0.8 1, specular and emission 0 0 0 1, shininess 0.
    pub(crate) fn new() -> RangedMaterial
        ensures { result ≡ opening_material }
    {
        RangedMaterial(Material {
            ambient: grey(Fx(13107)),
            diffuse: grey(Fx(52428)),
            specular: grey(Fx::ZERO),
            emission: grey(Fx::ZERO),
            shininess: Fx::ZERO,
        })
    }

    /// The material.
    pub fn get(self) -> Material
        ensures value { result ≡ self }
        ensures range { IsMaterialInRange result }
    {
        self.0
    }

    /// The material with this ambient and diffuse colour.
    pub(crate) fn following(self, color: [Fx; 4]) -> RangedMaterial
        ensures { result ≡ with_colors self color }
    {
        RangedMaterial(Material {
            ambient: color,
            diffuse: color,
            ..self.0
        })
    }

    /// The material with another parameter; while it follows the current colour, its ambient and its diffuse colour stay.
    pub(crate) fn with(
        self,
        follows: bool,
        parameter: MaterialParameter,
        values: &Params,
    ) -> Result<RangedMaterial, GlError>
        ensures { result ≡ with_material_of self follows parameter values.now }
    {
        let color = vector(values);
        let mut changed = self.0;
        match parameter {
            MaterialParameter::Ambient => {
                if !follows {
                    changed.ambient = color;
                }
            }
            MaterialParameter::Diffuse => {
                if !follows {
                    changed.diffuse = color;
                }
            }
            MaterialParameter::AmbientAndDiffuse => {
                if !follows {
                    changed.ambient = color;
                    changed.diffuse = color;
                }
            }
            MaterialParameter::Specular => changed.specular = color,
            MaterialParameter::Emission => changed.emission = color,
            MaterialParameter::Shininess => {
                if !is_exponent(values.0) {
                    return Err(GlError::InvalidValue);
                }
                changed.shininess = values.0;
            }
        }
        Ok(RangedMaterial(changed))
    }
}
