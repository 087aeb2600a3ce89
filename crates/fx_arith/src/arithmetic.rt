ghost use Rattle.std.specs.Prelude.{◌≡◌, ◌≢◌, ◌≤◌, ◌^◌, ◌*ℤ◌, pos, unsigned_abs};
ghost use Rattle.fx_arith.specs.Number.{add as sum_of, sub as difference_of, mul as product_of, div as quotient_of};

use crate::floor::floor_quotient;
use crate::fx::{Fx, saturate};

/// `a + b`, saturated.
pub fn add(a: Fx, b: Fx) -> Fx
    ensures { result.0 ≡ sum_of a.0 b.0 }
{
    saturate(i64::from(a.0) + i64::from(b.0))
}

/// `a - b`, saturated.
pub fn sub(a: Fx, b: Fx) -> Fx
    ensures { result.0 ≡ difference_of a.0 b.0 }
{
    saturate(i64::from(a.0) - i64::from(b.0))
}

/// `a * b`, rounded down to a GLfixed and saturated.
pub fn mul(a: Fx, b: Fx) -> Fx
    ensures { result.0 ≡ product_of a.0 b.0 }
{
    saturate(product(a, b) >> 16)
}

/// `a / b`, rounded down and saturated; `b` is in units of 1/65536 too, and may be wider than a GLfixed.
pub fn div(a: Fx, b: i64) -> Fx
    requires { b ≢ pos 0 }
    ensures { result.0 ≡ quotient_of a.0 b }
{
    saturate(floor_quotient(product(Fx::ONE, a), b))
}

/// The exact product, in units of 1/65536 squared.
pub fn product(a: Fx, b: Fx) -> i64
    ensures value { result ≡ a.0 *ℤ b.0 }
    ensures bound { unsigned_abs result ≤ 2 ^ 62 }
{
    i64::from(a.0) * i64::from(b.0)
}
