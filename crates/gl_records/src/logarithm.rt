ghost use Rattle.std.specs.Prelude.{◌≡◌, ◌<◌, ◌≤◌, ◌+◌, ◌^◌};
ghost use Rattle.gl_records.specs.TopBit.{top_bit};

/// The place of the highest bit of `n`, counted from 0; 0 for 0.
pub fn top_bit(n: u64) -> u32
    ensures value { result ≡ top_bit n }
    ensures at_least { 0 < n → 2 ^ result ≤ n }
    ensures below { n < 2 ^ (result + 1) }
    ensures bound { result < 64 }
{
    63u32.saturating_sub(n.leading_zeros())
}
