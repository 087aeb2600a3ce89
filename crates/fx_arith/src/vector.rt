ghost use Rattle.std.specs.Prelude.{◌≡◌, ◌<◌, ◌≤◌, ◌+◌, ◌*◌, ◌^◌};
ghost use Rattle.fx_arith.specs.Vector.{isqrt as root_of, square as square_of, len3 as length_of, normalise3 as direction_of};

use crate::arithmetic::div;
use crate::fx::Fx;

/// The square root of `v`, rounded down.
#[tactic(auto, using(crate::proofs::Roots::root_is))]
pub fn isqrt(v: u64) -> u32
    ensures value { result ≡ root_of v }
    ensures square_within { result * result ≤ v }
    ensures next_square_above { v < (result + 1) * (result + 1) }
{
    v.isqrt() as u32
}

/// The length of `v` in units of 1/65536, rounded down; at most 3719550786.
pub fn len3(v: [Fx; 3]) -> u64
    ensures value { result ≡ length_of v }
    ensures bound { result < 2 ^ 32 }
{
    u64::from(isqrt(square(v[0]) + square(v[1]) + square(v[2])))
}

/// `v` over its length, each component rounded down and saturated; the zero vector stays.
#[tactic(auto, unfolding(crate::specs::Vector::normalise3))]
pub fn normalise3(v: [Fx; 3]) -> [Fx; 3]
    ensures { result ≡ direction_of v }
{
    let length = len3(v) as i64;
    if length == 0 {
        v
    } else {
        [div(v[0], length), div(v[1], length), div(v[2], length)]
    }
}

fn square(a: Fx) -> u64
    ensures value { result ≡ square_of a.0 }
    ensures bound { result ≤ 2 ^ 62 }
{
    let size = u64::from(a.0.unsigned_abs());
    size * size
}
