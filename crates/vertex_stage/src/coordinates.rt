//! Distances from the user's plane, texture coordinates, colours without lighting.
ghost use Rattle.std.specs.Prelude.{◌≡◌};
ghost use Rattle.vertex_stage.specs.Vertex.{plane_distance as plane_distance_of, stq as stq_of, texture_coordinates as texture_coordinates_of, shown as shown_of};

use fx_arith::{Fx, Mat4, dot4, in_unit};
use matrix_stacks::transform;

/// How far a place in eye coordinates lies from the plane, on its inner side.
pub fn plane_distance(plane: Option<[Fx; 4]>, eye: [Fx; 4]) -> Fx
    ensures { result ≡ plane_distance_of plane eye }
{
    match plane {
        Some(plane) => dot4(plane, eye),
        None => Fx::ZERO,
    }
}

pub fn texture_coordinates(texture: &Mat4, coordinates: [Fx; 4]) -> [Fx; 3]
    ensures { result ≡ texture_coordinates_of texture.now coordinates }
{
    stq(transform(texture, coordinates))
}

fn stq(coordinates: [Fx; 4]) -> [Fx; 3]
    ensures { result ≡ stq_of coordinates }
{
    let [s, t, _, q] = coordinates;
    [s, t, q]
}

/// A colour, R G B A, with each component clamped to 0 to 1.
pub fn shown(color: &[Fx; 4]) -> [Fx; 4]
    ensures { result ≡ shown_of color.now }
{
    let [red, green, blue, alpha] = *color;
    [in_unit(red), in_unit(green), in_unit(blue), in_unit(alpha)]
}
