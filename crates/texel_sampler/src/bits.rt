//! A row of sixteen pixels as bits.
ghost use Rattle.std.specs.Prelude.{◌≡◌, ℕ, ◌<◌, ◌≤◌, true, false};
ghost use Rattle.std.specs.Int.{bit_at};

/// Whether bit i is set.
pub fn is_set(bits: u16, i: usize) -> bool
    requires { i < 16 }
    ensures set { result ≡ true → bit_at bits i ≡ 1 }
    ensures blank { result ≡ false → bit_at bits i ≡ 0 }
{
    bits >> i & 1 == 1
}

/// Places between which all bits that are set lie: the first of them, and the one behind the last.
pub fn run_of(bits: u16) -> (usize, usize)
    ensures end { result.1 ≤ 16 }
    ensures first { (i : ℕ) → bit_at bits i ≡ 1 → result.0 ≤ i }
    ensures last { (i : ℕ) → bit_at bits i ≡ 1 → i < result.1 }
{
    if bits == 0 {
        (0, 0)
    } else {
        (bits.trailing_zeros() as usize, bits.ilog2() as usize + 1)
    }
}
