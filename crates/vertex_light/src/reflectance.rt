//! What a material reflects of a light.
ghost use Rattle.std.specs.Prelude.{◌≡◌};
ghost use Rattle.gl_records.specs.VertexState.{IsMaterialInRange};
ghost use Rattle.vertex_light.specs.Term.{reflectance as reflectance_of, matte as matte_of, specular as specular_of, reflected as reflected_of};

use crate::components::{at_least_zero, products, scaled, sums, whole};
use fx_arith::{Fx, dot3, powi};
use gl_records::{Light, Material};

/// What a material reflects of a light's ambient, diffuse and specular colour, R G B, the last by this exponent, 0 to 128.
#[derive(Clone, Copy)]
pub struct Reflectance {
    pub ambient: [Fx; 3],
    pub diffuse: [Fx; 3],
    pub specular: [Fx; 3],
    pub shininess: u8,
}

impl Reflectance {
    #[tactic(auto, unfolding(crate::specs::Term::reflectance))]
    pub fn new(material: &Material, light: &Light) -> Reflectance
        requires { IsMaterialInRange material.now }
        ensures { result ≡ reflectance_of material.now light.now }
    {
        Reflectance {
            ambient: products(&material.ambient, &light.ambient),
            diffuse: products(&material.diffuse, &light.diffuse),
            specular: products(&material.specular, &light.specular),
            shininess: whole(material.shininess),
        }
    }

    /// What is reflected with this normal, direction to the light and half vector.
    #[tactic(auto, unfolding(crate::specs::Term::reflected))]
    pub fn reflected(&self, normal: [Fx; 3], l: [Fx; 3], h: [Fx; 3]) -> [Fx; 3]
        ensures { result ≡ reflected_of self.now normal l h }
    {
        let facing = dot3(normal, l);
        let matte = self.matte(facing);
        if 0 < facing.0 {
            return sums(matte, self.specular(normal, h));
        }
        matte
    }

    /// The ambient and the diffuse part, where this is the inner product of the normal and the direction to the light.
    fn matte(&self, facing: Fx) -> [Fx; 3]
        ensures { result ≡ matte_of self.now facing.0 }
    {
        sums(self.ambient, scaled(self.diffuse, at_least_zero(facing)))
    }

    #[tactic(auto, unfolding(crate::specs::Term::specular))]
    fn specular(&self, normal: [Fx; 3], h: [Fx; 3]) -> [Fx; 3]
        ensures { result ≡ specular_of self.now normal h }
    {
        scaled(
            self.specular,
            powi(at_least_zero(dot3(normal, h)), self.shininess),
        )
    }
}
