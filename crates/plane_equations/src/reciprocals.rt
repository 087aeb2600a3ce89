//! Quotients by a checked guess.
ghost use Rattle.std.specs.Prelude.{◌≡◌, ℤ, pos, ◌≤◌, ◌<◌, ◌+◌, ◌*◌, ◌^◌, ◌<ℤ◌, ◌≤ℤ◌, ◌+ℤ◌, ◌-ℤ◌, ◌*ℤ◌, unsigned_abs};
ghost use Rattle.fx_arith.specs.Number.{floor_div};

/// A divisor with what stands for its reciprocal: the greatest number whose product with it is below 2^63.
#[derive(Clone, Copy)]
pub struct Reciprocal {
    pub divisor: i64,
    inverse: i64,
    ghost positive: { pos 0 <ℤ divisor },
    ghost small: { unsigned_abs divisor ≤ 2 ^ 61 },
    ghost from: { pos 0 ≤ℤ inverse },
    ghost below: { 2 * unsigned_abs inverse * unsigned_abs divisor < 2 ^ 64 },
    ghost next_above: { 2 ^ 64 ≤ (2 * unsigned_abs inverse + 2) * unsigned_abs divisor },
}

impl Reciprocal {
    /// The reciprocal of a divisor from 1 to 2^61.
    pub fn new(divisor: i64) -> Reciprocal
        requires positive { pos 0 <ℤ divisor }
        requires small { unsigned_abs divisor ≤ 2 ^ 61 }
        ensures { result.divisor ≡ divisor }
    {
        Reciprocal {
            divisor,
            inverse: inverse_of(divisor.unsigned_abs()),
        }
    }

    /// `z` over the divisor, rounded down.
    pub fn floor_quotient(&self, z: i64) -> i64
        requires { unsigned_abs z ≤ 2 ^ 61 }
        ensures value { result ≡ floor_div z (unsigned_abs self.now.divisor) }
        ensures bound { unsigned_abs result ≤ unsigned_abs z }
    {
        let doubled = 2 * z;
        let product = product(doubled, self.inverse);
        let guess = high_word(product);
        if high_word(next_product(product, doubled)) == guess {
            // the quotient lies between the two products
            guess
        } else {
            corrected(z, guess, self.divisor)
        }
    }
}

fn inverse_of(divisor: u64) -> i64
    requires { 0 < divisor }
    ensures from { pos 0 ≤ℤ result }
    ensures below { 2 * unsigned_abs result * divisor < 2 ^ 64 }
    ensures next_above { 2 ^ 64 ≤ (2 * unsigned_abs result + 2) * divisor }
{
    (i64::MAX.unsigned_abs() / divisor) as i64
}

fn product(doubled: i64, inverse: i64) -> i128
    requires doubled { unsigned_abs doubled ≤ 2 ^ 62 }
    requires inverse { pos 0 ≤ℤ inverse }
    ensures value { result ≡ doubled *ℤ inverse }
    ensures bound { unsigned_abs result ≤ 2 ^ 125 }
{
    i128::from(doubled) * i128::from(inverse)
}

/// The same by the next number.
fn next_product(product: i128, doubled: i64) -> i128
    requires product { unsigned_abs product ≤ 2 ^ 125 }
    requires doubled { unsigned_abs doubled ≤ 2 ^ 62 }
    ensures value { result ≡ product +ℤ doubled }
    ensures bound { unsigned_abs result < 2 ^ 126 }
{
    product + i128::from(doubled)
}

/// A product over 2^64, rounded down.
fn high_word(product: i128) -> i64
    requires { unsigned_abs product < 2 ^ 126 }
    ensures value { result ≡ floor_div product (2 ^ 64) }
    ensures bound { unsigned_abs result ≤ 2 ^ 62 }
{
    (product >> 64) as i64
}

/// The quotient, from a guess that is at most one off.
fn corrected(z: i64, guess: i64, divisor: i64) -> i64
    requires z { unsigned_abs z ≤ 2 ^ 61 }
    requires guess { unsigned_abs guess ≤ 2 ^ 62 }
    requires positive { pos 0 <ℤ divisor }
    requires small { unsigned_abs divisor ≤ 2 ^ 61 }
    requires not_far_above { (guess *ℤ divisor) ≤ℤ (z +ℤ divisor) }
    requires not_far_below { z <ℤ (guess *ℤ divisor +ℤ divisor +ℤ divisor) }
    ensures { result ≡ floor_div z (unsigned_abs divisor) }
{
    let rest = rest_of(z, guess, divisor);
    if rest < 0 {
        guess - 1
    } else if divisor <= rest {
        guess + 1
    } else {
        guess
    }
}

/// What the guess leaves of `z`.
pub(crate) fn rest_of(z: i64, guess: i64, divisor: i64) -> i64
    requires z { unsigned_abs z ≤ 2 ^ 61 }
    requires product { unsigned_abs (guess *ℤ divisor) < 3 * 2 ^ 61 }
    ensures { result ≡ z -ℤ guess *ℤ divisor }
{
    z - guess * divisor
}
