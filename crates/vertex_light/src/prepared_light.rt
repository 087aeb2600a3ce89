//! One light, prepared for the vertices of a draw.
ghost use Rattle.std.specs.Prelude.{◌≡◌, pos, true, false};
ghost use Rattle.fx_arith.specs.Angle.{cosine};
ghost use Rattle.fx_arith.specs.Number.{nearest_fixed};
ghost use Rattle.fx_arith.specs.Vector.{len3 as len3_of, normalise3 as direction_of};
ghost use Rattle.gl_records.specs.VertexState.{IsLightInRange, IsMaterialInRange};
ghost use Rattle.vertex_light.specs.Aim.{aim as aim_of, direction as direction_to, distance as distance_to, is_directional as is_directional_light};
ghost use Rattle.vertex_light.specs.Attenuation.{attenuation as attenuation_of, growth as growth_of, part as part_of};
ghost use Rattle.vertex_light.specs.Cone.{spot as spot_of, within_cone as within_cone_of};
ghost use Rattle.vertex_light.specs.Half.{half as half_of};
ghost use Rattle.vertex_light.specs.Lit.{material_at};
ghost use Rattle.vertex_light.specs.Prepared.{IsPrepared};
ghost use Rattle.vertex_light.specs.Term.{reflectance as reflectance_of, strength as strength_of, term as term_of};

use crate::components::{differences, first_three, over, products, reversed, scaled, whole};
use crate::reflectance::Reflectance;
use fx_arith::{Fx, add, cos_deg, div, dot3, len3, mul, normalise3, powi, saturate};
use gl_records::{Light, Material, VertexState};

/// The cutoff of a light that is no spotlight, in degrees.
const NO_CUTOFF: Fx = Fx(180 * 65536);

/// A light that is on, with what is the same of it for all vertices of a draw.
#[derive(Clone, Copy)]
pub struct PreparedLight {
    pub light: Light,
    /// The direction to a directional light, of length 1, or the place of another.
    pub aim: [Fx; 3],
    /// The half vector of a directional light.
    pub half: [Fx; 3],
    /// The spotlight's direction, of length 1.
    pub axis: [Fx; 3],
    /// The cosine of the cutoff.
    pub edge: Fx,
    /// What the state's material reflects of it.
    pub reflectance: Reflectance,
}

/// What arrives of a light at a vertex: where it comes from, the half vector, and how much it has grown weaker.
#[derive(Clone, Copy)]
struct Ray {
    direction: [Fx; 3],
    half: [Fx; 3],
    attenuation: Fx,
}

impl PreparedLight {
    pub fn new(material: &Material, light: &Light) -> PreparedLight
        requires material { IsMaterialInRange material.now }
        requires light { IsLightInRange light.now }
        ensures light { result.light ≡ light.now }
        ensures prepared { IsPrepared material.now result }
    {
        let aim = aim(light);
        PreparedLight {
            light: *light,
            aim,
            half: half(aim),
            axis: normalise3(light.direction),
            edge: cos_deg(light.cutoff),
            reflectance: Reflectance::new(material, light),
        }
    }

    /// What the light adds to the colour of a vertex, R G B, of its colour and of its normal and place in eye coordinates.
    #[tactic(auto, unfolding(crate::specs::Term::term, crate::specs::Term::strength))]
    pub fn term(
        &self,
        state: &VertexState,
        color: [Fx; 4],
        normal: [Fx; 3],
        eye: [Fx; 3],
    ) -> [Fx; 3]
        requires { IsPrepared state.now.material self.now }
        ensures { result ≡ term_of (material_at state.now color) self.now.light normal eye }
    {
        let ray = self.ray(eye);
        let reflectance = self.reflectance_at(state, color);
        scaled(
            reflectance.reflected(normal, ray.direction, ray.half),
            mul(ray.attenuation, self.spot(ray.direction)),
        )
    }

    fn ray(&self, eye: [Fx; 3]) -> Ray
        requires aim { self.now.aim ≡ aim_of self.now.light }
        requires half { self.now.half ≡ half_of (aim_of self.now.light) }
        ensures direction { result.direction ≡ direction_to self.now.light eye }
        ensures half { result.half ≡ half_of (direction_to self.now.light eye) }
        ensures attenuation { result.attenuation.0 ≡ attenuation_of self.now.light eye }
    {
        if is_directional(&self.light) {
            return self.parallel_ray(eye);
        }
        self.ray_from_place(eye)
    }

    #[tactic(auto, unfolding(crate::specs::Aim::direction, crate::specs::Attenuation::attenuation))]
    fn parallel_ray(&self, eye: [Fx; 3]) -> Ray
        requires directional { is_directional_light self.now.light ≡ true }
        requires aim { self.now.aim ≡ aim_of self.now.light }
        requires half { self.now.half ≡ half_of (aim_of self.now.light) }
        ensures direction { result.direction ≡ direction_to self.now.light eye }
        ensures half { result.half ≡ half_of (direction_to self.now.light eye) }
        ensures attenuation { result.attenuation.0 ≡ attenuation_of self.now.light eye }
    {
        Ray {
            direction: self.aim,
            half: self.half,
            attenuation: Fx::ONE,
        }
    }

    #[tactic(auto, unfolding(crate::specs::Aim::direction, crate::specs::Aim::distance, crate::specs::Attenuation::attenuation))]
    fn ray_from_place(&self, eye: [Fx; 3]) -> Ray
        requires directional { is_directional_light self.now.light ≡ false }
        requires aim { self.now.aim ≡ aim_of self.now.light }
        ensures direction { result.direction ≡ direction_to self.now.light eye }
        ensures half { result.half ≡ half_of (direction_to self.now.light eye) }
        ensures attenuation { result.attenuation.0 ≡ attenuation_of self.now.light eye }
    {
        let toward = differences(self.aim, eye);
        let direction = normalise3(toward);
        Ray {
            direction,
            half: half(direction),
            attenuation: part(growth(self.light.attenuation, length(toward))),
        }
    }

    /// The spot factor, of the direction to the light.
    #[tactic(auto, unfolding(crate::specs::Cone::spot))]
    fn spot(&self, l: [Fx; 3]) -> Fx
        requires axis { self.now.axis ≡ direction_of self.now.light.direction }
        requires edge { self.now.edge.0 ≡ cosine self.now.light.cutoff.0 }
        requires exponent { IsLightInRange self.now.light }
        ensures { result.0 ≡ spot_of self.now.light l }
    {
        if self.light.cutoff.0 == NO_CUTOFF.0 {
            return Fx::ONE;
        }
        let c = dot3(reversed(l), self.axis);
        within_cone(self.edge, whole(self.light.exponent), c)
    }

    /// What the material of a vertex with this colour reflects of it.
    #[tactic(auto, unfolding(crate::specs::Term::reflectance, crate::specs::Lit::material_at))]
    fn reflectance_at(&self, state: &VertexState, color: [Fx; 4]) -> Reflectance
        requires { self.now.reflectance ≡ reflectance_of state.now.material self.now.light }
        ensures { result ≡ reflectance_of (material_at state.now color) self.now.light }
    {
        if state.color_material {
            return Reflectance {
                ambient: products(&color, &self.light.ambient),
                diffuse: products(&color, &self.light.diffuse),
                ..self.reflectance
            };
        }
        self.reflectance
    }
}

/// What is left of light that leaves the axis of a cone by an angle with cosine `c`.
#[tactic(auto, unfolding(crate::specs::Cone::within_cone))]
fn within_cone(edge: Fx, exponent: u8, c: Fx) -> Fx
    ensures { result.0 ≡ within_cone_of edge.0 exponent c.0 }
{
    if c.0 < edge.0 {
        return Fx::ZERO;
    }
    powi(c, exponent)
}

fn is_directional(light: &Light) -> bool
    ensures { result ≡ is_directional_light light.now }
{
    light.position[3].0 == 0
}

/// The direction to a directional light, or the place of another.
#[tactic(auto, unfolding(crate::specs::Aim::aim))]
fn aim(light: &Light) -> [Fx; 3]
    ensures { result ≡ aim_of light.now }
{
    if is_directional(light) {
        return normalise3(first_three(&light.position));
    }
    over(&light.position, light.position[3])
}

/// Halfway between the direction to the light and that to the eye.
#[tactic(auto, unfolding(crate::specs::Half::half))]
fn half(l: [Fx; 3]) -> [Fx; 3]
    ensures { result ≡ half_of l }
{
    normalise3([l[0], l[1], add(l[2], Fx::ONE)])
}

/// A length as a GLfixed.
fn length(v: [Fx; 3]) -> Fx
    ensures { result.0 ≡ nearest_fixed (pos (len3_of v)) }
{
    saturate(len3(v) as i64)
}

/// k0 + k1 d + k2 d d.
#[tactic(auto, unfolding(crate::specs::Attenuation::growth))]
fn growth(k: [Fx; 3], d: Fx) -> Fx
    ensures { result.0 ≡ growth_of k d.0 }
{
    add(add(k[0], mul(k[1], d)), mul(k[2], mul(d, d)))
}

/// The number of which this is one part; 1 where this isn't above 0.
#[tactic(auto, unfolding(crate::specs::Attenuation::part))]
fn part(growth: Fx) -> Fx
    ensures { result.0 ≡ part_of growth.0 }
{
    if 0 < growth.0 {
        return div(Fx::ONE, i64::from(growth.0));
    }
    Fx::ONE
}
