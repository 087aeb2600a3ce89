//! Bits that stand for the pixels of a row.
ghost use Rattle.std.specs.Prelude.{◌≡◌, ◌≢◌, ℕ, ◌+◌, ◌<◌, ◌≤◌, true, false, if◌then◌else◌};
ghost use Rattle.std.specs.Int.{bit_at};

/// Whether bit i is set.
pub fn is_set(bits: u16, i: u16) -> bool
    requires { i < 16 }
    ensures set { result ≡ true → bit_at bits i ≡ 1 }
    ensures clear { result ≡ false → bit_at bits i ≡ 0 }
{
    bits >> i & 1 == 1
}

/// The bits, with bit k set where `set` says so.
pub fn with_bit(bits: u16, k: u16, set: bool) -> u16
    requires { k < 16 }
    ensures bit { bit_at result k ≡ (if set then 1 else bit_at bits k) }
    ensures others { (j : ℕ) → j ≢ k → bit_at result j ≡ bit_at bits j }
{
    if set { bits | 1 << k } else { bits }
}

/// The bits without bit k.
pub fn without_bit(bits: u16, k: u16) -> u16
    requires { k < 16 }
    ensures bit { bit_at result k ≡ 0 }
    ensures others { (j : ℕ) → j < 16 → j ≢ k → bit_at result j ≡ bit_at bits j }
{
    bits & !(1 << k)
}

/// The place of the first bit that is set.
pub fn first_of(bits: u16) -> u16
    requires { 0 < bits }
    ensures within { result < 16 }
    ensures set { bit_at bits result ≡ 1 }
    ensures none_below { (i : ℕ) → i < result → bit_at bits i ≡ 0 }
{
    bits.trailing_zeros() as u16
}

/// The place behind the last bit that is set.
pub fn end_of(bits: u16) -> u16
    requires { 0 < bits }
    ensures within { result ≤ 16 }
    ensures none_behind { (i : ℕ) → result ≤ i → bit_at bits i ≡ 0 }
{
    bits.ilog2() as u16 + 1
}
