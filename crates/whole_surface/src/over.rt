//! Blending by the alpha of what comes in, on the four components at once.
ghost use Rattle.std.specs.Prelude.{◌≡◌, ◌≤◌, ◌*◌, length, min, slice_index};
ghost use Rattle.gl_tokens.specs.declared.blend_factor.BlendFactor.TheVariants.{OneMinusSourceAlpha, SourceAlpha};
ghost use Rattle.gl_records.specs.Blending.{blended_color, component_of_products};
ghost use Rattle.gl_records.specs.Color.{color_of};

use std::simd::prelude::*;

/// The colour blended by its alpha and one less its alpha with the one that is there (OpenGL ES 1.1.12, 4.1.7).
pub fn over(color: [u8; 4], under: [u8; 4]) -> [u8; 4]
    ensures { result ≡ blended_color (SourceAlpha, OneMinusSourceAlpha) color under }
{
    let alpha = u16::from(color[3]);
    rounded(scaled(color, alpha).strict_add(scaled(under, 255 - alpha)))
}

/// A colour's components times a factor.
fn scaled(color: [u8; 4], factor: u16) -> u16x4
    requires { factor ≤ 255 }
    ensures { result ≡ color_of (λ k. slice_index color k * factor) }
{
    lanes(color).strict_mul(u16x4::splat(factor))
}

/// A colour's components, each in a lane of its own.
fn lanes(color: [u8; 4]) -> u16x4
    ensures { result ≡ color_of (λ k. slice_index color k) }
{
    u8x4::from_array(color).cast::<u16>()
}

/// Sums of products over 255, rounded to the nearest.
fn rounded(sums: u16x4) -> [u8; 4]
    requires length { length sums ≡ 4 }
    requires red { slice_index sums 0 ≤ 65025 }
    requires green { slice_index sums 1 ≤ 65025 }
    requires blue { slice_index sums 2 ≤ 65025 }
    requires alpha { slice_index sums 3 ≤ 65025 }
    ensures { result ≡ color_of (λ k. min (component_of_products (slice_index sums k)) 255) }
{
    let up = sums.strict_add(u16x4::splat(128));
    let halves_up = sums.strict_add(u16x4::splat(127));
    (up.strict_add(halves_up >> 8) >> 8).cast::<u8>().to_array()
}
