ghost use Rattle.std.specs.Prelude.{◌≡◌};
ghost use Rattle.matrix_stacks.specs.Transform.{rotation as rotation_of, rotation_by as rotation_by_of, on_diagonal as on_diagonal_of, with_sine as with_sine_of, less_sine as less_sine_of, scaling as scaling_of, translation as translation_of};

use fx_arith::{Fx, Mat4, add, cos_deg, mul, normalise3, sin_deg, sub};

/// The rotation by `angle` degrees counterclockwise about `axis`.
pub(crate) fn rotation(angle: Fx, axis: [Fx; 3]) -> Mat4
    ensures { result ≡ rotation_of angle.0 axis }
{
    rotation_by(normalise3(axis), cos_deg(angle), sin_deg(angle))
}

/// The rotation about an axis of length 1 by an angle with cosine `c` and sine `s`.
#[tactic(auto, unfolding(crate::specs::Transform::rotation_by))]
fn rotation_by(axis: [Fx; 3], c: Fx, s: Fx) -> Mat4
    ensures { result ≡ rotation_by_of axis c.0 s.0 }
{
    let (x, y, z) = (axis[0], axis[1], axis[2]);
    let (o, i) = (Fx::ZERO, Fx::ONE);
    Mat4([
        on_diagonal(x, c),
        with_sine(x, y, z, c, s),
        less_sine(x, z, y, c, s),
        o,
        less_sine(x, y, z, c, s),
        on_diagonal(y, c),
        with_sine(y, z, x, c, s),
        o,
        with_sine(x, z, y, c, s),
        less_sine(y, z, x, c, s),
        on_diagonal(z, c),
        o,
        o,
        o,
        o,
        i,
    ])
}

#[tactic(auto, unfolding(crate::specs::Transform::on_diagonal))]
fn on_diagonal(x: Fx, c: Fx) -> Fx
    ensures { result.0 ≡ on_diagonal_of x.0 c.0 }
{
    add(mul(mul(x, x), sub(Fx::ONE, c)), c)
}

#[tactic(auto, unfolding(crate::specs::Transform::with_sine))]
fn with_sine(x: Fx, y: Fx, z: Fx, c: Fx, s: Fx) -> Fx
    ensures { result.0 ≡ with_sine_of x.0 y.0 z.0 c.0 s.0 }
{
    add(mul(mul(x, y), sub(Fx::ONE, c)), mul(z, s))
}

#[tactic(auto, unfolding(crate::specs::Transform::less_sine))]
fn less_sine(x: Fx, y: Fx, z: Fx, c: Fx, s: Fx) -> Fx
    ensures { result.0 ≡ less_sine_of x.0 y.0 z.0 c.0 s.0 }
{
    sub(mul(mul(x, y), sub(Fx::ONE, c)), mul(z, s))
}

/// `x`, `y` and `z` multiplied by the components of `v`.
pub(crate) fn scaling(v: [Fx; 3]) -> Mat4
    ensures { result ≡ scaling_of v }
{
    let (o, i) = (Fx::ZERO, Fx::ONE);
    Mat4([v[0], o, o, o, o, v[1], o, o, o, o, v[2], o, o, o, o, i])
}

/// `v` added to `x`, `y` and `z`.
pub(crate) fn translation(v: [Fx; 3]) -> Mat4
    ensures { result ≡ translation_of v }
{
    let (o, i) = (Fx::ZERO, Fx::ONE);
    Mat4([i, o, o, o, o, i, o, o, o, o, i, o, v[0], v[1], v[2], i])
}
