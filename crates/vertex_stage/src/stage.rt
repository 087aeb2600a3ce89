//! A vertex in clip coordinates.
ghost use Rattle.std.specs.Prelude.{◌≡◌};
ghost use Rattle.gl_records.specs.VertexState.{IsVertexStateInRange};
ghost use Rattle.vertex_stage.specs.Normal.{rescaled as rescaled_of, normalized as normalized_of, eye_normal as eye_normal_of};
ghost use Rattle.vertex_stage.specs.Vertex.{side as side_of, vertex_of};

use crate::coordinates::{plane_distance, shown, texture_coordinates};
use crate::fog::fog_factor;
use fx_arith::{Fx, normalise3};
use gl_records::{Attribs, ClipVertex, VertexState};
use matrix_stacks::{NormalMatrix, transform};
use std::marker::Model;
use vertex_light::{Lights, first_three, reversed};

/// The vertex stage of a draw: the state of its moment, with what is the same for all of its vertices. Contracts see it as the
/// state.
#[derive(Drop)]
pub struct Stage {
    lights: Lights,
    normals: NormalMatrix,
}

impl Model for Stage {
    ghost use Rattle.std.specs.Prelude.{◌≡◌};
    ghost use Rattle.gl_records.specs.declared.vertex_state.VertexState.{VertexState};

    ghost Value = { VertexState };

    ghost view = { λ stage. stage.lights };

    ghost invariant = { λ stage. stage.normals ≡ stage.lights.modelview };
}

impl Stage {
    pub fn new(state: &VertexState) -> Stage
        requires { IsVertexStateInRange state.now }
        ensures { result ≡ state.now }
    {
        Stage {
            lights: Lights::new(state),
            normals: NormalMatrix::new(&state.modelview),
        }
    }

    /// The state.
    pub fn state(&self) -> &VertexState
        ensures value { result.now ≡ self.now }
        ensures ranges { IsVertexStateInRange result.now }
    {
        self.lights.state()
    }

    /// The vertex in clip coordinates (OpenGL ES 1.1.12, 2.10 to 2.12 and 3.8): its position by the modelview and then by the
    /// projection matrix, its distance from the user's plane (0 where that is off), the colours of both sides, lit where
    /// lighting is on and each component 0 to 1, its texture coordinates by the units' texture matrices, and its fog factor.
    #[tactic(auto, unfolding(crate::specs::Vertex::vertex_of))]
    pub fn run(&self, vertex: &Attribs) -> ClipVertex
        ensures { result ≡ vertex_of self.now vertex.now }
    {
        let state = self.state();
        let eye = transform(&state.modelview, vertex.pos);
        let normal = self.eye_normal(vertex.normal);
        let [first, second] = vertex.tex;
        ClipVertex {
            clip: transform(&state.projection, eye),
            plane: plane_distance(state.plane, eye),
            front: self.side(vertex.color, normal, eye),
            back: self.side(vertex.color, reversed(normal), eye),
            tex: [
                texture_coordinates(&state.texture[0], first),
                texture_coordinates(&state.texture[1], second),
            ],
            fog: fog_factor(&state.fog, eye),
        }
    }

    /// The normal x y z in eye coordinates: transformed by the inverse of the modelview matrix, then rescaled where
    /// RESCALE_NORMAL is on, then normalised where NORMALIZE is on (OpenGL ES 1.1.12, 2.10.3).
    pub fn eye_normal(&self, normal: [Fx; 3]) -> [Fx; 3]
        ensures { result ≡ eye_normal_of self.now normal }
    {
        self.normalized(self.rescaled(self.normals.to_eye(normal)))
    }

    fn rescaled(&self, normal: [Fx; 3]) -> [Fx; 3]
        ensures { result ≡ rescaled_of self.now normal }
    {
        if self.state().rescale {
            return self.normals.rescaled(normal);
        }
        normal
    }

    fn normalized(&self, normal: [Fx; 3]) -> [Fx; 3]
        ensures { result ≡ normalized_of self.now normal }
    {
        if self.state().normalize {
            return normalise3(normal);
        }
        normal
    }

    /// The colour of a side of a vertex, of the vertex's colour and of the side's normal and its place in eye coordinates.
    #[tactic(auto, unfolding(crate::specs::Vertex::side))]
    fn side(&self, color: [Fx; 4], normal: [Fx; 3], eye: [Fx; 4]) -> [Fx; 4]
        ensures { result ≡ side_of self.now color normal eye }
    {
        if self.state().lighting {
            return self.lights.light(color, normal, first_three(&eye));
        }
        shown(&color)
    }
}

/// [`Stage::run`] of one vertex by itself.
pub fn run(state: &VertexState, a: &Attribs) -> ClipVertex
    requires { IsVertexStateInRange state.now }
    ensures { result ≡ vertex_of state.now a.now }
{
    Stage::new(state).run(a)
}
