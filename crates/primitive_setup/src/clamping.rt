ghost use Rattle.std.specs.Prelude.{◌≡◌, ◌≤ℤ◌};
ghost use Rattle.fx_arith.specs.Number.{clamp};

/// `z`, or the end of `low..=high` that it lies beyond.
pub(crate) fn clamp_to(z: i64, low: i32, high: i32) -> i32
    requires { low ≤ℤ high }
    ensures value { result ≡ clamp low high z }
    ensures lower_bound { low ≤ℤ result }
    ensures upper_bound { result ≤ℤ high }
{
    if z < i64::from(low) {
        low
    } else if i64::from(high) < z {
        high
    } else {
        z as i32
    }
}

/// [`clamp_to`] on 128 bits.
pub(crate) fn clamp_wide(z: i128, low: i32, high: i32) -> i32
    requires { low ≤ℤ high }
    ensures value { result ≡ clamp low high z }
    ensures lower_bound { low ≤ℤ result }
    ensures upper_bound { result ≤ℤ high }
{
    if z < i128::from(low) {
        low
    } else if i128::from(high) < z {
        high
    } else {
        z as i32
    }
}
