ghost use Rattle.std.specs.Prelude.{◌≡◌, OnSome};
ghost use Rattle.gl_state.specs.Current.{opening_values, with_color, with_color_bytes, with_normal, coordinates as coordinates_of, with_coordinates, multi_tex_coord as multi_tex_coord_of, client_active_texture as client_active_texture_of, attribs as attribs_of};

use fx_arith::{Fx, fixed_from_byte};
use gl_records::Attribs;
use gl_tokens::{GlError, TextureUnit};

/// What a vertex takes where no array gives it, and the active texture units (OpenGL ES 1.1.12, 2.7 and 2.8).
#[derive(Clone, Copy, Debug, PartialEq, Eq)]
pub struct CurrentValues {
    /// The active texture unit.
    pub unit: TextureUnit,
    /// The client's active texture unit, which commands of arrays speak of.
    pub client_unit: TextureUnit,
    /// R G B A, as it was given.
    pub color: [Fx; 4],
    /// x y z.
    pub normal: [Fx; 3],
    /// Texture coordinates s t r q of the first unit.
    pub texture0: [Fx; 4],
    /// Those of the second unit.
    pub texture1: [Fx; 4],
}

/// x y z w, or s t r q, of the origin.
const ORIGIN: [Fx; 4] = [Fx::ZERO, Fx::ZERO, Fx::ZERO, Fx::ONE];

impl CurrentValues {
    /// Colour 1 1 1 1, normal 0 0 1, texture coordinates 0 0 0 1; the first unit is active,
    /// also of the client.
    pub fn new() -> CurrentValues
        ensures { result ≡ opening_values }
    {
        CurrentValues {
            unit: TextureUnit::Texture0,
            client_unit: TextureUnit::Texture0,
            color: [Fx::ONE; 4],
            normal: [Fx::ZERO, Fx::ZERO, Fx::ONE],
            texture0: ORIGIN,
            texture1: ORIGIN,
        }
    }

    /// Color4x.
    pub(crate) fn set_color(&mut self, red: Fx, green: Fx, blue: Fx, alpha: Fx)
        ensures { self.new ≡ with_color self.old red green blue alpha }
    {
        self.color = [red, green, blue, alpha];
    }

    /// Color4ub.
    pub(crate) fn set_color_bytes(&mut self, red: u8, green: u8, blue: u8, alpha: u8)
        ensures { self.new ≡ with_color_bytes self.old red green blue alpha }
    {
        self.set_color(
            fixed_from_byte(red),
            fixed_from_byte(green),
            fixed_from_byte(blue),
            fixed_from_byte(alpha),
        );
    }

    /// Normal3x.
    pub(crate) fn set_normal(&mut self, x: Fx, y: Fx, z: Fx)
        ensures { self.new ≡ with_normal self.old x y z }
    {
        self.normal = [x, y, z];
    }

    /// MultiTexCoord4x: InvalidEnum where there is no such unit.
    pub(crate) fn multi_tex_coord(
        &mut self,
        texture: u32,
        s: Fx,
        t: Fx,
        r: Fx,
        q: Fx,
    ) -> Option<GlError>
        ensures run { (self.new, result) ≡ multi_tex_coord_of self.old texture s t r q }
        ensures unchanged { OnSome result (self.new ≡ self.old) }
    {
        match TextureUnit::from_code(texture) {
            Some(unit) => {
                self.set_coordinates(unit, [s, t, r, q]);
                None
            }
            None => Some(GlError::InvalidEnum),
        }
    }

    /// ClientActiveTexture: InvalidEnum where there is no such unit.
    pub(crate) fn client_active_texture(&mut self, texture: u32) -> Option<GlError>
        ensures run { (self.new, result) ≡ client_active_texture_of self.old texture }
        ensures unchanged { OnSome result (self.new ≡ self.old) }
    {
        match TextureUnit::from_code(texture) {
            Some(unit) => {
                self.client_unit = unit;
                None
            }
            None => Some(GlError::InvalidEnum),
        }
    }

    /// The texture coordinates of a unit, s t r q.
    pub fn coordinates(&self, unit: TextureUnit) -> &[Fx; 4]
        ensures { result.now ≡ coordinates_of self.now unit }
    {
        match unit {
            TextureUnit::Texture0 => &self.texture0,
            TextureUnit::Texture1 => &self.texture1,
        }
    }

    fn set_coordinates(&mut self, unit: TextureUnit, coordinates: [Fx; 4])
        ensures { self.new ≡ with_coordinates self.old unit coordinates }
    {
        match unit {
            TextureUnit::Texture0 => self.texture0 = coordinates,
            TextureUnit::Texture1 => self.texture1 = coordinates,
        }
    }

    /// The values as those of a vertex, at the origin.
    pub fn attribs(&self) -> Attribs
        ensures { result ≡ attribs_of self.now }
    {
        Attribs {
            pos: ORIGIN,
            normal: self.normal,
            color: self.color,
            tex: [self.texture0, self.texture1],
        }
    }
}
