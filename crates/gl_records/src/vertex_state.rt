use crate::fog_rule::FogRule;
use crate::light::Light;
use crate::material::Material;
use fx_arith::{Fx, Mat4};

/// The state that the vertex stage goes by (OpenGL ES 1.1.12, 2.10 to 2.12). The state of the commands makes it.
#[derive(Clone, Copy, Debug, PartialEq, Eq)]
pub struct VertexState {
    pub modelview: Mat4,
    pub projection: Mat4,
    /// Of both units.
    pub texture: [Mat4; 2],
    /// The user's clip plane in eye coordinates, where it is on.
    pub plane: Option<[Fx; 4]>,
    pub lighting: bool,
    /// Whether a vertex's own colour takes the place of the material's ambient and diffuse colours.
    pub color_material: bool,
    pub normalize: bool,
    pub rescale: bool,
    /// The ambient colour of the scene, R G B A.
    pub scene: [Fx; 4],
    pub material: Material,
    /// The lights that are on.
    pub lights: [Option<Light>; 8],
    /// Where fog is on.
    pub fog: Option<FogRule>,
}
