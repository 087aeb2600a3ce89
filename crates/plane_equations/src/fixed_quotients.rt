//! Quotients of linear functions, found once for a tile.
ghost use Rattle.std.specs.Prelude.{◌≡◌, pos, ◌≤◌, ◌^◌, ◌<ℤ◌, ◌≤ℤ◌, ◌+ℤ◌, ◌-ℤ◌, ◌*ℤ◌, IfSome, IfNone, unsigned_abs};
ghost use Rattle.fx_arith.specs.Number.{floor_div};
ghost use Rattle.plane_equations.specs.FixedPlanes.{HasSmallQuotient, IsQuotient, fixed_at};

use crate::fixed_plane::FixedPlane;
use crate::places::narrowed;
use crate::plane::Plane;
use crate::reciprocals::{Reciprocal, rest_of};

/// The quotient of a function by a number, rounded down.
///
/// There is one where the number is at most 2^31 and the quotient's values are within 2^23.
pub fn fixed_quotient(plane: &Plane, divisor: i64) -> Option<FixedPlane>
    requires { pos 0 <ℤ divisor }
    ensures quotient { IfSome result (IsQuotient plane.now (unsigned_abs divisor)) }
    ensures too_wide { IfNone result (HasSmallQuotient plane.now (unsigned_abs divisor) → ⊥) }
{
    if divisor <= 1 << 31 {
        fixed_quotient_by(plane, &Reciprocal::new(divisor))
    } else {
        None
    }
}

/// [`fixed_quotient`] by a number whose reciprocal is known.
pub fn fixed_quotient_by(plane: &Plane, by: &Reciprocal) -> Option<FixedPlane>
    ensures quotient { IfSome result (IsQuotient plane.now (unsigned_abs by.now.divisor)) }
    ensures too_wide { IfNone result (HasSmallQuotient plane.now (unsigned_abs by.now.divisor) → ⊥) }
{
    if by.divisor > 1 << 31 {
        return None;
    }
    let origin = scaled_quotient(plane.origin, by)?;
    let right = scaled_quotient(plane.right, by)?;
    let up = scaled_quotient(plane.up, by)?;
    let scaled = narrowed(rounded_up(origin), right, up)?;
    Some(FixedPlane { scaled })
}

/// With what 33 roundings can have taken.
fn rounded_up(scaled: i128) -> i128
    requires { unsigned_abs scaled ≤ 2 ^ 94 }
    ensures value { result ≡ scaled +ℤ pos 33 }
    ensures bound { unsigned_abs result ≤ 2 ^ 95 }
{
    scaled + 33
}

/// 2^37 times a number over the divisor, rounded down, where the number is within 2^54.
fn scaled_quotient(z: i64, by: &Reciprocal) -> Option<i128>
    requires { unsigned_abs by.now.divisor ≤ 2 ^ 31 }
    ensures value { IfSome result (λ scaled. scaled ≡ floor_div (pos 137438953472 *ℤ z) (unsigned_abs by.now.divisor)) }
    ensures bound { IfSome result (λ scaled. unsigned_abs scaled ≤ 2 ^ 94) }
    ensures too_wide { IfNone result (unsigned_abs z ≤ 2 ^ 54 → ⊥) }
{
    if z.unsigned_abs() <= 1 << 54 {
        Some(two_digits(z, by))
    } else {
        None
    }
}

fn two_digits(z: i64, by: &Reciprocal) -> i128
    requires z { unsigned_abs z ≤ 2 ^ 54 }
    requires divisor { unsigned_abs by.now.divisor ≤ 2 ^ 31 }
    ensures value { result ≡ floor_div (pos 137438953472 *ℤ z) (unsigned_abs by.now.divisor) }
    ensures bound { unsigned_abs result ≤ 2 ^ 94 }
{
    let high = by.floor_quotient(128 * z);
    let rest = remainder(128 * z, high, by.divisor);
    joined(high, by.floor_quotient(1073741824 * rest))
}

/// What a quotient that is rounded down leaves.
fn remainder(z: i64, quotient: i64, divisor: i64) -> i64
    requires z { unsigned_abs z ≤ 2 ^ 61 }
    requires positive { pos 0 <ℤ divisor }
    requires divisor { unsigned_abs divisor ≤ 2 ^ 31 }
    requires quotient { quotient ≡ floor_div z (unsigned_abs divisor) }
    ensures value { result ≡ z -ℤ quotient *ℤ divisor }
    ensures from { pos 0 ≤ℤ result }
    ensures to { result <ℤ divisor }
{
    rest_of(z, quotient, divisor)
}

fn joined(high: i64, low: i64) -> i128
    ensures value { result ≡ pos 1073741824 *ℤ high +ℤ low }
    ensures bound { unsigned_abs result ≤ 2 ^ 94 }
{
    1073741824 * i128::from(high) + i128::from(low)
}

impl FixedPlane {
    /// The quotient in column `i` and row `j`.
    pub fn at(&self, i: u16, j: u16) -> i64
        requires i { i ≤ 16 }
        requires j { j ≤ 16 }
        ensures value { result ≡ fixed_at self.now i j }
        ensures bound { unsigned_abs result ≤ 2 ^ 24 }
    {
        whole_part(self.scaled.at(i, j))
    }
}

fn whole_part(scaled: i64) -> i64
    requires { unsigned_abs scaled ≤ 2 ^ 61 }
    ensures value { result ≡ floor_div scaled 137438953472 }
    ensures bound { unsigned_abs result ≤ 2 ^ 24 }
{
    scaled >> 37
}
