//! A run of pixels, as bits of a row or of a column of a tile.
ghost use Rattle.std.specs.Prelude.{◌≡◌, ◌↔◌, ℕ, pos, ◌+◌, ◌+ℤ◌, ◌<ℤ◌, ◌<◌, ◌≤◌, ◌^◌, ◌&&◌, nat_le, nat_lt, if◌then◌else◌, unsigned_abs};
ghost use Rattle.std.specs.Int.{bit_at};
ghost use Rattle.gl_records.specs.PointCoverage.{is_among};

/// The pixels of a run of `count` that starts at `first`: bit k is for pixel `base + k`.
pub fn run_bits(first: i64, count: u16, base: u16) -> u16
    requires { unsigned_abs first ≤ 2 ^ 57 }
    ensures { (k : ℕ) → k < 16 → bit_at result k ≡ (if is_among first count (pos (base + k)) then 1 else 0) }
{
    mask(
        bits_below(first, base),
        bits_below(first + i64::from(count), base),
    )
}

/// How many of the 16 pixels from `base` on lie below `place`.
fn bits_below(place: i64, base: u16) -> u32
    requires { unsigned_abs place ≤ 2 ^ 58 }
    ensures exact { (k : ℕ) → k < 16 → (k < result) ↔ (pos (base + k) <ℤ place) }
    ensures few { result ≤ 16 }
{
    (place - i64::from(base)).clamp(0, 16) as u32
}

/// The bits from `low` on and below `high`.
pub(crate) fn mask(low: u32, high: u32) -> u16
    requires few { high ≤ 16 }
    ensures { (k : ℕ) → k < 16 → bit_at result k ≡ (if nat_le low k && nat_lt k high then 1 else 0) }
{
    if low < high {
        ((1u32 << high) - (1u32 << low)) as u16
    } else {
        0
    }
}
