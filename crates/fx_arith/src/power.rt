ghost use Rattle.std.specs.Prelude.{◌≡◌, ◌≤ℤ◌, pos};
ghost use Rattle.fx_arith.specs.Power.{power as power_of, exp_neg as exp_neg_of};

use crate::arithmetic::mul;
use crate::fx::Fx;

/// 1 / log 2.
const DOUBLINGS: Fx = Fx(94548);

/// `b` to the power of `n`, by `n` products that are each rounded down and saturated.
pub fn powi(b: Fx, n: u8) -> Fx
    ensures { result.0 ≡ power_of b.0 n }
{
    let mut power = Fx::ONE;
    for _ in 0..n {
        power = mul(power, b);
    }
    power
}

/// e to the power of `-x`, 0 to 1, in units of 1/65536 both. It is this project's polynomial and not the
/// nearest number.
#[tactic(auto, using(crate::proofs::Halves::halved_away), unfolding(crate::specs::Power::exp_neg))]
pub fn exp_neg(x: Fx) -> Fx
    requires { pos 0 ≤ℤ x.0 }
    ensures { result.0 ≡ pos (exp_neg_of x.0) }
{
    let doublings = mul(x, DOUBLINGS).0.unsigned_abs();
    let (whole, part) = (doublings / 65536, doublings % 65536);
    let power = 65536 - part * (43691 - 10923 * part / 65536) / 65536;
    if 31 < whole {
        Fx::ZERO
    } else {
        Fx((power >> whole) as i32)
    }
}
