//! The fog factor of a vertex.
ghost use Rattle.std.specs.Prelude.{◌≡◌, ◌≤ℤ◌, IfSome, pos};
ghost use Rattle.gl_records.specs.VertexState.{IsFogInRange};
ghost use Rattle.vertex_stage.specs.Fog.{distance as distance_of, linear as linear_of, thickness as thickness_of, factor as factor_of, fog_factor as fog_factor_of};

use fx_arith::{Fx, div, exp_neg, in_unit, mul, saturate, span, sub};
use gl_records::FogRule;
use gl_tokens::FogMode;

/// The fog factor at a place x y z w in eye coordinates, 0 to 1 (OpenGL ES 1.1.12, 3.8); 1 where fog is off.
#[tactic(auto, unfolding(crate::specs::Fog::fog_factor))]
pub fn fog_factor(rule: &Option<FogRule>, eye: [Fx; 4]) -> Fx
    requires { IfSome rule.now IsFogInRange }
    ensures { result ≡ fog_factor_of rule.now eye }
{
    match rule {
        Some(rule) => in_unit(factor(rule, distance(eye[2]))),
        None => Fx::ONE,
    }
}

/// How far a place with this z lies before the eye or behind it.
#[tactic(auto, unfolding(crate::specs::Fog::distance))]
fn distance(z: Fx) -> Fx
    ensures value { result.0 ≡ distance_of z.0 }
    ensures from { pos 0 ≤ℤ result.0 }
{
    saturate(i64::from(z.0.unsigned_abs()))
}

#[tactic(auto, unfolding(crate::specs::Fog::factor))]
fn factor(rule: &FogRule, c: Fx) -> Fx
    requires rule { IsFogInRange rule.now }
    requires c { pos 0 ≤ℤ c.0 }
    ensures { result.0 ≡ factor_of rule.now c.0 }
{
    match rule.mode {
        FogMode::Linear => linear(rule.start, rule.end, c),
        FogMode::Exp => exp_neg(thickness(rule.density, c)),
        FogMode::Exp2 => {
            let y = thickness(rule.density, c);
            exp_neg(thickness(y, y))
        }
    }
}

#[tactic(auto, unfolding(crate::specs::Fog::linear))]
fn linear(start: Fx, end: Fx, c: Fx) -> Fx
    ensures { result.0 ≡ linear_of start.0 end.0 c.0 }
{
    if start.0 == end.0 {
        return Fx::ONE;
    }
    div(sub(end, c), span(start.0, end.0))
}

#[tactic(auto, unfolding(crate::specs::Fog::thickness), using(crate::proofs::Products::mul_nonnegative))]
fn thickness(density: Fx, c: Fx) -> Fx
    requires density { pos 0 ≤ℤ density.0 }
    requires c { pos 0 ≤ℤ c.0 }
    ensures value { result.0 ≡ thickness_of density.0 c.0 }
    ensures from { pos 0 ≤ℤ result.0 }
{
    mul(density, c)
}
