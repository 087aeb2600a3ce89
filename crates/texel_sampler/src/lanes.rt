//! The four bytes of a texel at once, each in a lane of its own.
ghost use Rattle.std.specs.Prelude.{◌≡◌, ◌≤◌, ◌+◌, ◌-◌, ◌*◌, ◌/◌, length, slice_index};
ghost use Rattle.gl_records.specs.Color.{color_of};
ghost use Rattle.gl_records.specs.Texel.{weighted as weighted_component};
ghost use Rattle.std.specs.Int.{to_le_bytes, w32};
ghost use Rattle.texel_sampler.specs.FourTexels.{IsAcross, across as across_component, byte_of, mean_of_rows};

use std::simd::prelude::*;

/// Four texels weighted, each a word, R lowest: the higher columns count `a`, the higher rows `b`, in 1/256.
pub fn weighted(a: u8, b: u8, low_low: u32, high_low: u32, low_high: u32, high_high: u32) -> [u8; 4]
    ensures { result
        ≡ color_of (weighted_component a b (to_le_bytes w32 low_low) (to_le_bytes w32 high_low) (to_le_bytes w32 low_high) (to_le_bytes w32 high_high)) }
{
    mean_of(
        b,
        across(a, low_low, high_low),
        across(a, low_high, high_high),
    )
}

/// Two texels of a row, of which the second counts `a`, in 1/256.
fn across(a: u8, low: u32, high: u32) -> u16x4
    ensures value { result ≡ color_of (across_component a low high) }
    ensures bound { IsAcross result }
{
    let a = u16::from(a);
    scaled(256 - a, low).strict_add(scaled(a, high))
}

/// A texel's bytes times a weight.
fn scaled(weight: u16, texel: u32) -> u16x4
    requires { weight ≤ 256 }
    ensures { result ≡ color_of (λ k. weight * byte_of texel k) }
{
    u16x4::splat(weight).strict_mul(bytes_of(texel))
}

/// A texel's bytes, the lowest first.
fn bytes_of(texel: u32) -> u16x4
    ensures { result ≡ color_of (λ k. byte_of texel k) }
{
    u32x1::splat(texel).to_le_bytes().cast::<u16>()
}

/// The mean of two rows in 1/256, of which the second counts `b`, in 1/256, each byte rounded to the nearest.
fn mean_of(b: u8, lower: u16x4, upper: u16x4) -> [u8; 4]
    requires lower { IsAcross lower }
    requires upper { IsAcross upper }
    ensures { result ≡ color_of (mean_of_rows b lower upper) }
{
    let b = u16::from(b);
    rounded(scaled_row(256 - b, lower).strict_add(scaled_row(b, upper)))
}

/// A row's sums times a weight.
fn scaled_row(weight: u16, row: u16x4) -> u32x4
    requires weight { weight ≤ 256 }
    requires row { IsAcross row }
    ensures { result ≡ color_of (λ k. weight * slice_index row k) }
{
    u32x4::splat(u32::from(weight)).strict_mul(widened(row))
}

/// The same sums on 32 bits.
fn widened(row: u16x4) -> u32x4
    requires { length row ≡ 4 }
    ensures { result ≡ color_of (λ k. slice_index row k) }
{
    row.cast::<u32>()
}

/// Sums in 1/65536, each rounded to the nearest.
fn rounded(sums: u32x4) -> [u8; 4]
    requires length { length sums ≡ 4 }
    requires red { slice_index sums 0 ≤ 16711680 }
    requires green { slice_index sums 1 ≤ 16711680 }
    requires blue { slice_index sums 2 ≤ 16711680 }
    requires alpha { slice_index sums 3 ≤ 16711680 }
    ensures { result ≡ color_of (λ k. (slice_index sums k + 32768) / 65536) }
{
    (sums.strict_add(u32x4::splat(32768)) >> 16)
        .cast::<u8>()
        .to_array()
}
