//! The blend of two levels.
ghost use Rattle.std.specs.Prelude.{◌≡◌, ◌≤◌, ◌+◌, ◌*◌, ◌/◌, length, slice_index};
ghost use Rattle.gl_records.specs.Color.{color_of};
ghost use Rattle.gl_records.specs.Sampling.{blended as blended_component};

use std::simd::prelude::*;

/// Two colours, of which the second counts `weight`, in 1/256.
pub fn blended(weight: u8, first: [u8; 4], second: [u8; 4]) -> [u8; 4]
    ensures { result ≡ color_of (blended_component weight first second) }
{
    let weight = u16::from(weight);
    rounded(scaled(256 - weight, first).strict_add(scaled(weight, second)))
}

/// A colour's components times a weight.
fn scaled(weight: u16, color: [u8; 4]) -> u16x4
    requires { weight ≤ 256 }
    ensures { result ≡ color_of (λ k. weight * slice_index color k) }
{
    u16x4::splat(weight).strict_mul(lanes(color))
}

/// A colour's components, each in a lane of its own.
fn lanes(color: [u8; 4]) -> u16x4
    ensures { result ≡ color_of (λ k. slice_index color k) }
{
    u8x4::from_array(color).cast::<u16>()
}

/// Sums in 1/256, each rounded to the nearest.
fn rounded(sums: u16x4) -> [u8; 4]
    requires length { length sums ≡ 4 }
    requires red { slice_index sums 0 ≤ 65280 }
    requires green { slice_index sums 1 ≤ 65280 }
    requires blue { slice_index sums 2 ≤ 65280 }
    requires alpha { slice_index sums 3 ≤ 65280 }
    ensures { result ≡ color_of (λ k. (slice_index sums k + 128) / 256) }
{
    (sums.strict_add(u16x4::splat(128)) >> 8)
        .cast::<u8>()
        .to_array()
}
