ghost use Rattle.std.specs.Prelude.{◌≡◌, ◌≢◌, ◌≤◌, ◌-◌, ◌^◌, ◌+ℤ◌, ◌-ℤ◌, ◌*ℤ◌, ◌<ℤ◌, neg_ℤ, pos, unsigned_abs};
ghost use Rattle.fx_arith.specs.Number.{one};
ghost use Rattle.matrix_stacks.specs.Projection.{left, right, bottom, top, near, far, is_flat as is_flat_of, is_no_frustum as is_no_frustum_of, scale as scale_of, centre as centre_of, centre_turned as centre_turned_of, depth_scale as depth_scale_of, depth_shift as depth_shift_of, frustum as frustum_of, ortho as ortho_of};

use fx_arith::{Fx, Mat4, floor_quotient, product, saturate};

/// Whether two opposite sides of `l r b t n f` are one.
pub(crate) fn is_flat(sides: [Fx; 6]) -> bool
    ensures { result ≡ is_flat_of sides }
{
    sides[0] == sides[1] || sides[2] == sides[3] || sides[4] == sides[5]
}

/// Whether `l r b t n f` span no frustum.
pub(crate) fn is_no_frustum(sides: [Fx; 6]) -> bool
    ensures { result ≡ is_no_frustum_of sides }
{
    sides[4].0 <= 0 || sides[5].0 <= 0 || is_flat(sides)
}

/// The perspective projection of the frustum with the sides `l r b t n f`.
#[tactic(auto, unfolding(crate::specs::Projection::frustum))]
pub(crate) fn frustum(sides: [Fx; 6]) -> Mat4
    requires width { left sides ≢ right sides }
    requires height { bottom sides ≢ top sides }
    requires depth { near sides ≢ far sides }
    requires near { pos 0 <ℤ near sides }
    requires far { pos 0 <ℤ far sides }
    ensures { result ≡ frustum_of sides }
{
    let (l, r, b) = (sides[0], sides[1], sides[2]);
    let (t, n, f) = (sides[3], sides[4], sides[5]);
    let (o, minus_one) = (Fx::ZERO, Fx(-65536));
    let (x, y) = (scale(n, l, r), scale(n, b, t));
    let (u, v) = (centre(l, r), centre(b, t));
    let (z, w) = (centre_turned(n, f), depth_shift(n, f));
    Mat4([x, o, o, o, o, y, o, o, u, v, z, minus_one, o, o, w, o])
}

/// The parallel projection of the box with the sides `l r b t n f`.
#[tactic(auto, unfolding(crate::specs::Projection::ortho))]
pub(crate) fn ortho(sides: [Fx; 6]) -> Mat4
    requires width { left sides ≢ right sides }
    requires height { bottom sides ≢ top sides }
    requires depth { near sides ≢ far sides }
    ensures { result ≡ ortho_of sides }
{
    let (l, r, b) = (sides[0], sides[1], sides[2]);
    let (t, n, f) = (sides[3], sides[4], sides[5]);
    let (o, i) = (Fx::ZERO, Fx::ONE);
    let (x, y, z) = (scale(i, l, r), scale(i, b, t), depth_scale(n, f));
    let (u, v, w) = (
        centre_turned(l, r),
        centre_turned(b, t),
        centre_turned(n, f),
    );
    Mat4([x, o, o, o, o, y, o, o, o, o, z, o, u, v, w, i])
}

#[tactic(auto, unfolding(crate::specs::Projection::scale))]
fn scale(size: Fx, low: Fx, high: Fx) -> Fx
    requires { low.0 ≢ high.0 }
    ensures { result.0 ≡ scale_of size.0 low.0 high.0 }
{
    saturate(floor_quotient(doubled(size), width(low, high)))
}

#[tactic(auto, unfolding(crate::specs::Projection::centre))]
fn centre(low: Fx, high: Fx) -> Fx
    requires { low.0 ≢ high.0 }
    ensures { result.0 ≡ centre_of low.0 high.0 }
{
    saturate(floor_quotient(sum(low, high), width(low, high)))
}

#[tactic(auto, unfolding(crate::specs::Projection::centre_turned))]
fn centre_turned(low: Fx, high: Fx) -> Fx
    requires { low.0 ≢ high.0 }
    ensures { result.0 ≡ centre_turned_of low.0 high.0 }
{
    saturate(floor_quotient(negated(sum(low, high)), width(low, high)))
}

#[tactic(auto, unfolding(crate::specs::Projection::depth_scale))]
fn depth_scale(near: Fx, far: Fx) -> Fx
    requires { near.0 ≢ far.0 }
    ensures { result.0 ≡ depth_scale_of near.0 far.0 }
{
    saturate(floor_quotient(negated(doubled(Fx::ONE)), width(near, far)))
}

#[tactic(auto, unfolding(crate::specs::Projection::depth_shift))]
fn depth_shift(near: Fx, far: Fx) -> Fx
    requires apart { near.0 ≢ far.0 }
    requires near { pos 0 <ℤ near.0 }
    requires far { pos 0 <ℤ far.0 }
    ensures { result.0 ≡ depth_shift_of near.0 far.0 }
{
    saturate(floor_quotient(negated(doubled_product(far, near)), width(near, far)))
}

/// `high - low`, which is no 0.
fn width(low: Fx, high: Fx) -> i64
    requires { low.0 ≢ high.0 }
    ensures value { result ≡ high.0 -ℤ low.0 }
    ensures some { result ≢ pos 0 }
{
    i64::from(high.0) - i64::from(low.0)
}

/// `low + high`, in units of 1/65536 squared.
fn sum(low: Fx, high: Fx) -> i64
    ensures value { result ≡ one *ℤ (high.0 +ℤ low.0) }
    ensures bound { unsigned_abs result ≤ 2 ^ 48 }
{
    65536 * (i64::from(high.0) + i64::from(low.0))
}

/// `2 size`, in units of 1/65536 squared.
fn doubled(size: Fx) -> i64
    ensures value { result ≡ one *ℤ (pos 2 *ℤ size.0) }
    ensures bound { unsigned_abs result ≤ 2 ^ 48 }
{
    65536 * (2 * i64::from(size.0))
}

/// `2 far near`, in units of 1/65536 squared.
fn doubled_product(far: Fx, near: Fx) -> i64
    requires near { pos 0 <ℤ near.0 }
    requires far { pos 0 <ℤ far.0 }
    ensures value { result ≡ pos 2 *ℤ far.0 *ℤ near.0 }
    ensures bound { unsigned_abs result ≤ 2 ^ 63 - 2 }
{
    2 * product(far, near)
}

fn negated(z: i64) -> i64
    requires { unsigned_abs z ≤ 2 ^ 63 - 2 }
    ensures value { result ≡ neg_ℤ z }
    ensures bound { unsigned_abs result ≤ 2 ^ 63 - 2 }
{
    -z
}
