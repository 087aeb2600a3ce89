//! Bits that stand for the pixels of a row.
ghost use Rattle.std.specs.Prelude.{◌≡◌, ◌≢◌, ℕ, ◌<◌};
ghost use Rattle.std.specs.Int.{bit_at};

/// The bits of one pixel.
pub fn one_bit(i: u16) -> u16
    requires { i < 16 }
    ensures set { bit_at result i ≡ 1 }
    ensures others { (j : ℕ) → j ≢ i → bit_at result j ≡ 0 }
{
    1 << i
}
