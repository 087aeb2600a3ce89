//! The lights of a draw.
ghost use Rattle.std.specs.Prelude.{◌≡◌, All, IfSome};
ghost use Rattle.std.specs.List.{fold};
ghost use Rattle.std.specs.Option.{option_map};
ghost use Rattle.fx_arith.specs.Number.{component, fixed};
ghost use Rattle.gl_records.specs.VertexState.{IsLightInRange, IsMaterialInRange, IsVertexStateInRange};
ghost use Rattle.vertex_light.specs.Lit.{lit, material_at, scene_light as scene_light_of, shown as shown_of, with_light as with_light_of};
ghost use Rattle.vertex_light.specs.Prepared.{IsPrepared, lights_of};

use crate::components::{first_three, products, sums};
use crate::prepared_light::PreparedLight;
use fx_arith::{Fx, in_unit};
use gl_records::{Light, Material, VertexState};
use std::marker::Model;

/// The state that the vertices of a draw go by, with what is the same of its lights for all of them. Contracts see it as the
/// state.
#[derive(Drop)]
pub struct Lights {
    state: VertexState,
    /// The sum before the first light, R G B, of the state's material.
    scene: [Fx; 3],
    prepared: [Option<PreparedLight>; 8],
}

impl Model for Lights {
    ghost use Rattle.gl_records.specs.declared.vertex_state.VertexState.{VertexState};
    ghost use Rattle.vertex_light.specs.Prepared.{ArePrepared};

    ghost Value = { VertexState };

    ghost view = { λ lights. lights.state };

    ghost invariant = { λ lights. ArePrepared lights.state lights.scene lights.prepared };
}

impl Lights {
    /// Prepares the lights of a state.
    pub fn new(state: &VertexState) -> Lights
        requires { IsVertexStateInRange state.now }
        ensures { result ≡ state.now }
    {
        let material = &state.material;
        Lights {
            state: *state,
            scene: scene_light(material, &state.scene),
            prepared: prepared_lights(material, &state.lights),
        }
    }

    /// The state.
    pub fn state(&self) -> &VertexState
        ensures value { result.now ≡ self.now }
        ensures ranges { IsVertexStateInRange result.now }
    {
        &self.state
    }

    /// The colour R G B A of a vertex that is lit, each component 0 to 1, of its colour and of its normal and place in eye
    /// coordinates (OpenGL ES 1.1.12, 2.12.1).
    pub fn light(&self, color: [Fx; 4], normal: [Fx; 3], eye: [Fx; 3]) -> [Fx; 4]
        ensures { result ≡ lit self.now color normal eye }
    {
        let scene = scene_at(&self.state, self.scene, &color);
        let sum = light_sum(&self.state, color, normal, eye, scene, &self.prepared);
        shown(sum, alpha_at(&self.state, &color))
    }
}

fn prepared_lights(material: &Material, lights: &[Option<Light>; 8]) -> [Option<PreparedLight>; 8]
    requires material { IsMaterialInRange material.now }
    requires lights { All (λ light. IfSome light IsLightInRange) lights.now }
    ensures lights { lights_of result ≡ lights.now }
    ensures prepared { All (λ prepared. IfSome prepared (IsPrepared material.now)) result }
{
    let [a, b, c, d, e, f, g, h] = *lights;
    [
        prepared(material, a),
        prepared(material, b),
        prepared(material, c),
        prepared(material, d),
        prepared(material, e),
        prepared(material, f),
        prepared(material, g),
        prepared(material, h),
    ]
}

fn prepared(material: &Material, light: Option<Light>) -> Option<PreparedLight>
    requires material { IsMaterialInRange material.now }
    requires light { IfSome light IsLightInRange }
    ensures light { option_map (λ prepared. prepared.light) result ≡ light }
    ensures prepared { IfSome result (IsPrepared material.now) }
{
    match light {
        Some(light) => Some(PreparedLight::new(material, &light)),
        None => None,
    }
}

/// The sum before the first light.
#[tactic(auto, unfolding(crate::specs::Lit::scene_light))]
fn scene_light(material: &Material, scene: &[Fx; 4]) -> [Fx; 3]
    ensures { result ≡ scene_light_of material.now scene.now }
{
    sums(
        first_three(&material.emission),
        products(&material.ambient, scene),
    )
}

/// The same for a vertex with this colour; `base` is that of the state's material.
#[tactic(auto, unfolding(crate::specs::Lit::scene_light, crate::specs::Lit::material_at))]
fn scene_at(state: &VertexState, base: [Fx; 3], color: &[Fx; 4]) -> [Fx; 3]
    requires { base ≡ scene_light_of state.now.material state.now.scene }
    ensures { result ≡ scene_light_of (material_at state.now color.now) state.now.scene }
{
    if state.color_material {
        return sums(
            first_three(&state.material.emission),
            products(color, &state.scene),
        );
    }
    base
}

/// The alpha of the diffuse colour of a vertex with this colour.
#[tactic(auto, unfolding(crate::specs::Lit::material_at))]
fn alpha_at(state: &VertexState, color: &[Fx; 4]) -> Fx
    ensures { result ≡ fixed (component (material_at state.now color.now).diffuse 3) }
{
    if state.color_material {
        return color[3];
    }
    state.material.diffuse[3]
}

/// The sum by the numbers of the lights, from the sum before the first.
#[tactic(auto, using(crate::proofs::Sums::of_lights))]
fn light_sum(
    state: &VertexState,
    color: [Fx; 4],
    normal: [Fx; 3],
    eye: [Fx; 3],
    scene: [Fx; 3],
    lights: &[Option<PreparedLight>; 8],
) -> [Fx; 3]
    requires { All (λ light. IfSome light (IsPrepared state.now.material)) lights.now }
    ensures { result ≡ fold (with_light_of (material_at state.now color) normal eye) scene (lights_of lights.now) }
{
    let mut sum = scene;
    for light in lights {
        let more = with_light(state, color, normal, eye, sum, light);
        sum = more;
    }
    sum
}

/// One more light in the sum, where it is on.
#[tactic(auto, unfolding(crate::specs::Lit::with_light))]
fn with_light(
    state: &VertexState,
    color: [Fx; 4],
    normal: [Fx; 3],
    eye: [Fx; 3],
    sum: [Fx; 3],
    light: &Option<PreparedLight>,
) -> [Fx; 3]
    requires { IfSome light.now (IsPrepared state.now.material) }
    ensures { result ≡ with_light_of (material_at state.now color) normal eye sum (option_map (λ prepared. prepared.light) light.now) }
{
    match light {
        Some(light) => sums(sum, light.term(state, color, normal, eye)),
        None => sum,
    }
}

/// A colour R G B with an alpha, each clamped to 0 to 1.
#[tactic(auto, unfolding(crate::specs::Lit::shown))]
fn shown(color: [Fx; 3], alpha: Fx) -> [Fx; 4]
    ensures { result ≡ shown_of color alpha }
{
    let [red, green, blue] = color;
    [in_unit(red), in_unit(green), in_unit(blue), in_unit(alpha)]
}

/// [`Lights::light`] of one vertex by itself.
pub fn light(state: &VertexState, color: [Fx; 4], normal: [Fx; 3], eye: [Fx; 3]) -> [Fx; 4]
    requires { IsVertexStateInRange state.now }
    ensures { result ≡ lit state.now color normal eye }
{
    Lights::new(state).light(color, normal, eye)
}
