//! Vectors and colours R G B, component by component. Sums and differences saturate, and products are rounded down.
ghost use Rattle.std.specs.Prelude.{◌≡◌, ◌≢◌, ◌≤ℤ◌, ◌≤◌, pos};
ghost use Rattle.vertex_light.specs.Components.{first_three as first_three_of, sums as sums_of, differences as differences_of, products as products_of, scaled as scaled_of, over as over_of, reversed as reversed_of, at_least_zero as at_least_zero_of, whole as whole_of};

use fx_arith::{Fx, add, div, mul, sub};

#[tactic(auto, unfolding(crate::specs::Components::first_three))]
pub fn first_three(a: &[Fx; 4]) -> [Fx; 3]
    ensures { result ≡ first_three_of a.now }
{
    [a[0], a[1], a[2]]
}

#[tactic(auto, unfolding(crate::specs::Components::sums))]
pub fn sums(a: [Fx; 3], b: [Fx; 3]) -> [Fx; 3]
    ensures { result ≡ sums_of a b }
{
    [add(a[0], b[0]), add(a[1], b[1]), add(a[2], b[2])]
}

#[tactic(auto, unfolding(crate::specs::Components::differences))]
pub fn differences(a: [Fx; 3], b: [Fx; 3]) -> [Fx; 3]
    ensures { result ≡ differences_of a b }
{
    [sub(a[0], b[0]), sub(a[1], b[1]), sub(a[2], b[2])]
}

/// The products of two colours, without alpha.
#[tactic(auto, unfolding(crate::specs::Components::products))]
pub fn products(a: &[Fx; 4], b: &[Fx; 4]) -> [Fx; 3]
    ensures { result ≡ products_of a.now b.now }
{
    [mul(a[0], b[0]), mul(a[1], b[1]), mul(a[2], b[2])]
}

#[tactic(auto, unfolding(crate::specs::Components::scaled))]
pub fn scaled(a: [Fx; 3], by: Fx) -> [Fx; 3]
    ensures { result ≡ scaled_of a by.0 }
{
    [mul(a[0], by), mul(a[1], by), mul(a[2], by)]
}

/// The first three components over a number.
#[tactic(auto, unfolding(crate::specs::Components::over))]
pub fn over(a: &[Fx; 4], divisor: Fx) -> [Fx; 3]
    requires { divisor.0 ≢ pos 0 }
    ensures { result ≡ over_of a.now divisor.0 }
{
    let divisor = i64::from(divisor.0);
    [div(a[0], divisor), div(a[1], divisor), div(a[2], divisor)]
}

/// The vector the other way round.
#[tactic(auto, unfolding(crate::specs::Components::reversed))]
pub fn reversed(a: [Fx; 3]) -> [Fx; 3]
    ensures { result ≡ reversed_of a }
{
    [
        sub(Fx::ZERO, a[0]),
        sub(Fx::ZERO, a[1]),
        sub(Fx::ZERO, a[2]),
    ]
}

/// The number, or 0 where it is below.
pub fn at_least_zero(a: Fx) -> Fx
    ensures { result.0 ≡ at_least_zero_of a.0 }
{
    if a.0 < 0 { Fx::ZERO } else { a }
}

/// The whole part of an exponent, which is 0 to 128.
pub fn whole(exponent: Fx) -> u8
    requires from { pos 0 ≤ℤ exponent.0 }
    requires to { exponent.0 ≤ℤ pos 8388608 }
    ensures { result ≡ whole_of exponent }
{
    (exponent.0.unsigned_abs() / 65536) as u8
}
