ghost use Rattle.std.specs.Prelude.{◌≡◌, ◌≤◌, ◌+◌, ◌-◌, ◌*◌, ◌/◌, ◌∷◌, [], length, min, slice_index};
ghost use Rattle.gl_records.specs.Blending.{factor as factor_of, blended_color, component_of_products};
ghost use Rattle.gl_records.specs.Color.{color_of};
ghost use Rattle.fragment_ops.specs.Quotient.{clamped_bits, quotient};

use gl_tokens::BlendFactor;
use std::simd::prelude::*;

/// The colour of a fragment blended with the one that is there (OpenGL ES 1.1.12, 4.1.7).
pub fn blended(
    factors: (BlendFactor, BlendFactor),
    source: [u8; 4],
    destination: [u8; 4],
) -> [u8; 4]
    ensures { result ≡ blended_color factors source destination }
{
    rounded(sums(factors, source, destination))
}

/// The sum of two colours with their factors.
fn sums(factors: (BlendFactor, BlendFactor), source: [u8; 4], destination: [u8; 4]) -> u32x4
    ensures value { result
        ≡ color_of (λ k. slice_index source k * factor_of factors.0 source destination k + slice_index destination k * factor_of factors.1 source destination k) }
    ensures red { slice_index result 0 ≤ 130050 }
    ensures green { slice_index result 1 ≤ 130050 }
    ensures blue { slice_index result 2 ≤ 130050 }
    ensures alpha { slice_index result 3 ≤ 130050 }
{
    let first = products(source, factor(factors.0, source, destination));
    let second = products(destination, factor(factors.1, source, destination));
    first.strict_add(second)
}

/// A colour's components times their factors.
fn products(color: [u8; 4], factors: u32x4) -> u32x4
    requires length { length factors ≡ 4 }
    requires red { slice_index factors 0 ≤ 255 }
    requires green { slice_index factors 1 ≤ 255 }
    requires blue { slice_index factors 2 ≤ 255 }
    requires alpha { slice_index factors 3 ≤ 255 }
    ensures value { result ≡ color_of (λ k. slice_index color k * slice_index factors k) }
    ensures red { slice_index result 0 ≤ 65025 }
    ensures green { slice_index result 1 ≤ 65025 }
    ensures blue { slice_index result 2 ≤ 65025 }
    ensures alpha { slice_index result 3 ≤ 65025 }
{
    lanes(color).strict_mul(factors)
}

/// What each component is multiplied by.
fn factor(factor: BlendFactor, source: [u8; 4], destination: [u8; 4]) -> u32x4
    ensures value { result ≡ color_of (factor_of factor source destination) }
    ensures red { slice_index result 0 ≤ 255 }
    ensures green { slice_index result 1 ≤ 255 }
    ensures blue { slice_index result 2 ≤ 255 }
    ensures alpha { slice_index result 3 ≤ 255 }
{
    match factor {
        BlendFactor::Zero => u32x4::splat(0),
        BlendFactor::One => u32x4::splat(255),
        BlendFactor::SourceColor => lanes(source),
        BlendFactor::OneMinusSourceColor => one_minus(source),
        BlendFactor::SourceAlpha => all(source[3]),
        BlendFactor::OneMinusSourceAlpha => all(255 - source[3]),
        BlendFactor::DestinationAlpha => all(destination[3]),
        BlendFactor::OneMinusDestinationAlpha => all(255 - destination[3]),
        BlendFactor::DestinationColor => lanes(destination),
        BlendFactor::OneMinusDestinationColor => one_minus(destination),
        BlendFactor::SourceAlphaSaturate => saturated(source[3].min(255 - destination[3])),
    }
}

/// A factor for each component.
fn all(factor: u8) -> u32x4
    ensures { result ≡ color_of (λ k. factor) }
{
    u32x4::splat(u32::from(factor))
}

/// A factor for red, green and blue, and 1 for alpha.
fn saturated(factor: u8) -> u32x4
    ensures { result ≡ factor ∷ factor ∷ factor ∷ 255 ∷ [] }
{
    let factor = u32::from(factor);
    u32x4::from_array([factor, factor, factor, 255])
}

fn one_minus(color: [u8; 4]) -> u32x4
    ensures { result ≡ color_of (λ k. 255 - slice_index color k) }
{
    u32x4::splat(255).strict_sub(lanes(color))
}

/// A colour's components, each in a lane of its own.
fn lanes(color: [u8; 4]) -> u32x4
    ensures { result ≡ color_of (λ k. slice_index color k) }
{
    u8x4::from_array(color).cast::<u32>()
}

/// Sums of two products as components, rounded to the nearest and at most 255.
fn rounded(sums: u32x4) -> [u8; 4]
    requires length { length sums ≡ 4 }
    requires red { slice_index sums 0 ≤ 130050 }
    requires green { slice_index sums 1 ≤ 130050 }
    requires blue { slice_index sums 2 ≤ 130050 }
    requires alpha { slice_index sums 3 ≤ 130050 }
    ensures { result ≡ color_of (λ k. min (component_of_products (slice_index sums k)) 255) }
{
    clamped(quotients(sums))
}

/// Sums of products over 255, rounded to the nearest; from 255 on it may be less, and at least 255.
fn quotients(sums: u32x4) -> u32x4
    requires length { length sums ≡ 4 }
    requires red { slice_index sums 0 ≤ 130050 }
    requires green { slice_index sums 1 ≤ 130050 }
    requires blue { slice_index sums 2 ≤ 130050 }
    requires alpha { slice_index sums 3 ≤ 130050 }
    ensures { result ≡ color_of (λ k. quotient (slice_index sums k)) }
{
    let halves_up = sums.strict_add(u32x4::splat(127));
    halves_up
        .strict_add(u32x4::splat(1))
        .strict_add(halves_up >> 8)
        >> 8
}

/// Numbers below 512 as components of at most 255.
fn clamped(numbers: u32x4) -> [u8; 4]
    requires length { length numbers ≡ 4 }
    requires red { slice_index numbers 0 ≤ 511 }
    requires green { slice_index numbers 1 ≤ 511 }
    requires blue { slice_index numbers 2 ≤ 511 }
    requires alpha { slice_index numbers 3 ≤ 511 }
    ensures { result ≡ color_of (λ k. clamped_bits (slice_index numbers k)) }
{
    let over = numbers >> 8;
    ((numbers | u32x4::splat(256).strict_sub(over)) & u32x4::splat(255))
        .cast::<u8>()
        .to_array()
}
