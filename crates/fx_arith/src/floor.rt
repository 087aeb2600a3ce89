ghost use Rattle.std.specs.Prelude.{◌≡◌, ◌≢◌, ◌<◌, ◌≤◌, ◌^◌, ◌<ℤ◌, ◌≤ℤ◌, ◌*ℤ◌, ◌+ℤ◌, pos, negsuc, unsigned_abs};
ghost use Rattle.fx_arith.specs.Number.{floor_div as floor_of, floor_quotient as floor_of_quotient};

/// `z / divisor` rounded down: the greatest whole number whose multiple is at most `z`.
pub fn floor_div(z: i64, divisor: u64) -> i64
    requires { 0 < divisor }
    ensures value { result ≡ floor_of z divisor }
    ensures multiple_within { (result *ℤ pos divisor) ≤ℤ z }
    ensures next_multiple_above { z <ℤ ((result +ℤ pos 1) *ℤ pos divisor) }
    ensures bound { unsigned_abs result ≤ unsigned_abs z }
{
    if 0 <= z {
        (z.unsigned_abs() / divisor) as i64
    } else {
        -1 - ((z + 1).unsigned_abs() / divisor) as i64
    }
}

/// [`floor_div`] on 128 bits.
pub fn floor_div_wide(z: i128, divisor: u64) -> i128
    requires { 0 < divisor }
    ensures value { result ≡ floor_of z divisor }
    ensures bound { unsigned_abs result ≤ unsigned_abs z }
{
    floor_div_128(z, u128::from(divisor))
}

fn floor_div_128(z: i128, divisor: u128) -> i128
    requires { 0 < divisor }
    ensures value { result ≡ floor_of z divisor }
    ensures bound { unsigned_abs result ≤ unsigned_abs z }
{
    if 0 <= z {
        (z.unsigned_abs() / divisor) as i128
    } else {
        -1 - ((z + 1).unsigned_abs() / divisor) as i128
    }
}

/// `z / divisor` rounded down, for a divisor of either sign.
pub fn floor_quotient(z: i64, divisor: i64) -> i64
    requires divisor { divisor ≢ pos 0 }
    requires negatable { negsuc 9223372036854775807 <ℤ z }
    ensures value { result ≡ floor_of_quotient z divisor }
    ensures bound { unsigned_abs result ≤ unsigned_abs z }
{
    if 0 < divisor {
        floor_div(z, divisor.unsigned_abs())
    } else {
        floor_div(-z, divisor.unsigned_abs())
    }
}

/// [`floor_quotient`] on 128 bits.
pub fn floor_quotient_wide(z: i128, divisor: i64) -> i128
    requires divisor { divisor ≢ pos 0 }
    requires negatable { unsigned_abs z < 2 ^ 127 }
    ensures value { result ≡ floor_of_quotient z divisor }
    ensures bound { unsigned_abs result ≤ unsigned_abs z }
{
    if 0 < divisor {
        floor_div_wide(z, divisor.unsigned_abs())
    } else {
        floor_div_wide(-z, divisor.unsigned_abs())
    }
}

/// [`floor_quotient_wide`] by a divisor of 128 bits.
pub fn floor_quotient_128(z: i128, divisor: i128) -> i128
    requires divisor { divisor ≢ pos 0 }
    requires negatable { unsigned_abs z < 2 ^ 127 }
    ensures value { result ≡ floor_of_quotient z divisor }
    ensures bound { unsigned_abs result ≤ unsigned_abs z }
{
    if 0 < divisor {
        floor_div_128(z, divisor.unsigned_abs())
    } else {
        floor_div_128(-z, divisor.unsigned_abs())
    }
}
