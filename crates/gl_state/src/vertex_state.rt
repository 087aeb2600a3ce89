ghost use Rattle.std.specs.Prelude.{◌≡◌, ◌<◌, All, IfSome};
ghost use Rattle.std.specs.Bool.{then_some};
ghost use Rattle.gl_records.specs.VertexState.{IsFogInRange, IsLightInRange, IsVertexStateInRange};
ghost use Rattle.gl_state.specs.VertexState.{light_on as light_on_of, lights_on as lights_on_of, vertex_state as vertex_state_of};

use crate::state::State;
use gl_records::{FogRule, Light, VertexState};
use gl_tokens::MatrixMode;

impl State {
    /// What happens to the vertices of a draw at this moment. A part is there exactly where it is on.
    pub fn vertex_state(&self) -> VertexState
        ensures value { result ≡ vertex_state_of self.now }
        ensures ranges { IsVertexStateInRange result }
    {
        let stacks = &self.stacks;
        VertexState {
            modelview: *stacks.top(MatrixMode::Modelview, 0),
            projection: *stacks.top(MatrixMode::Projection, 0),
            texture: [
                *stacks.top(MatrixMode::Texture, 0),
                *stacks.top(MatrixMode::Texture, 1),
            ],
            plane: self.switches.clip_plane0.then_some(self.raster.plane),
            lighting: self.switches.lighting,
            color_material: self.switches.color_material,
            normalize: self.switches.normalize,
            rescale: self.switches.rescale_normal,
            scene: self.lighting.scene,
            material: self.lighting.material.get(),
            lights: self.lights_on(),
            fog: self.fog_on(),
        }
    }

    /// The lights, by their numbers, where they are on.
    #[tactic(auto, unfolding(crate::specs::VertexState::lights_on))]
    fn lights_on(&self) -> [Option<Light>; 8]
        ensures value { result ≡ lights_on_of self.now }
        ensures ranges { All (λ light. IfSome light IsLightInRange) result }
    {
        [
            self.light_on(0),
            self.light_on(1),
            self.light_on(2),
            self.light_on(3),
            self.light_on(4),
            self.light_on(5),
            self.light_on(6),
            self.light_on(7),
        ]
    }

    fn light_on(&self, number: usize) -> Option<Light>
        requires { number < 8 }
        ensures value { result ≡ light_on_of self.now number }
        ensures range { IfSome result IsLightInRange }
    {
        if self.switches.lights[number] {
            return Some(self.lights.get(number));
        }
        None
    }

    fn fog_on(&self) -> Option<FogRule>
        ensures value { result ≡ then_some self.now.switches.fog self.now.fog.rule }
        ensures range { IfSome result IsFogInRange }
    {
        if self.switches.fog {
            return Some(self.fog.rule.get());
        }
        None
    }
}
