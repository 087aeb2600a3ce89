//! The texture functions REPLACE, MODULATE, DECAL, BLEND and ADD (OpenGL ES 1.1.12, 3.7.12).
ghost use Rattle.std.specs.Prelude.{◌≡◌, ◌≤◌, ◌*◌, length, slice_index};
ghost use Rattle.gl_records.specs.Blending.{component_of_products};
ghost use Rattle.gl_records.specs.Color.{color_of};
ghost use Rattle.gl_records.specs.TextureFunction.{added as added_color, blended as blended_color, decaled as decaled_color, kept as kept_components, mixed as mixed_component, modulated as modulated_color, product as product_of, replaced as replaced_color};

use gl_tokens::BaseFormat;
use std::simd::prelude::*;

/// REPLACE: the texel.
pub fn replaced(format: BaseFormat, incoming: [u8; 4], texel: [u8; 4]) -> [u8; 4]
    ensures { result ≡ replaced_color format incoming texel }
{
    kept(format, incoming, texel)
}

/// MODULATE: the product of both colours.
pub fn modulated(format: BaseFormat, incoming: [u8; 4], texel: [u8; 4]) -> [u8; 4]
    ensures { result ≡ modulated_color format incoming texel }
{
    kept(format, incoming, over_255(products(incoming, texel)))
}

/// BLEND: from the incoming colour to the constant one, by the texel's colour.
pub fn blended(format: BaseFormat, constant: [u8; 4], incoming: [u8; 4], texel: [u8; 4]) -> [u8; 4]
    ensures { result ≡ blended_color format constant incoming texel }
{
    let made = [
        mixed(texel[0], incoming[0], constant[0]),
        mixed(texel[1], incoming[1], constant[1]),
        mixed(texel[2], incoming[2], constant[2]),
        product(incoming[3], texel[3]),
    ];
    kept(format, incoming, made)
}

/// ADD: the sum of both colours, at most 255.
pub fn added(format: BaseFormat, incoming: [u8; 4], texel: [u8; 4]) -> [u8; 4]
    ensures { result ≡ added_color format incoming texel }
{
    let made = [
        incoming[0].saturating_add(texel[0]),
        incoming[1].saturating_add(texel[1]),
        incoming[2].saturating_add(texel[2]),
        product(incoming[3], texel[3]),
    ];
    kept(format, incoming, made)
}

/// DECAL: the texel's colour as far as its alpha says, and the incoming alpha.
pub fn decaled(format: BaseFormat, incoming: [u8; 4], texel: [u8; 4]) -> [u8; 4]
    ensures { result ≡ decaled_color format incoming texel }
{
    match format {
        BaseFormat::Rgb => [texel[0], texel[1], texel[2], incoming[3]],
        BaseFormat::Rgba => [
            mixed(texel[3], incoming[0], texel[0]),
            mixed(texel[3], incoming[1], texel[1]),
            mixed(texel[3], incoming[2], texel[2]),
            incoming[3],
        ],
        BaseFormat::Alpha => [incoming[0], incoming[1], incoming[2], incoming[3]],
        BaseFormat::Luminance => [incoming[0], incoming[1], incoming[2], incoming[3]],
        BaseFormat::LuminanceAlpha => [incoming[0], incoming[1], incoming[2], incoming[3]],
    }
}

/// Of what was made, the components that texels of this format have; the others are left as they come in.
fn kept(format: BaseFormat, incoming: [u8; 4], made: [u8; 4]) -> [u8; 4]
    ensures { result ≡ kept_components format incoming made }
{
    match format {
        BaseFormat::Rgba => [made[0], made[1], made[2], made[3]],
        BaseFormat::LuminanceAlpha => [made[0], made[1], made[2], made[3]],
        BaseFormat::Rgb => [made[0], made[1], made[2], incoming[3]],
        BaseFormat::Luminance => [made[0], made[1], made[2], incoming[3]],
        BaseFormat::Alpha => [incoming[0], incoming[1], incoming[2], made[3]],
    }
}

/// The products of components.
fn products(a: [u8; 4], b: [u8; 4]) -> u16x4
    ensures { result ≡ color_of (λ k. slice_index a k * slice_index b k) }
{
    lanes(a).strict_mul(lanes(b))
}

/// A colour's components, each in a lane of its own.
fn lanes(color: [u8; 4]) -> u16x4
    ensures { result ≡ color_of (λ k. slice_index color k) }
{
    u8x4::from_array(color).cast::<u16>()
}

/// Products as components, rounded to the nearest.
fn over_255(products: u16x4) -> [u8; 4]
    requires length { length products ≡ 4 }
    requires red { slice_index products 0 ≤ 65025 }
    requires green { slice_index products 1 ≤ 65025 }
    requires blue { slice_index products 2 ≤ 65025 }
    requires alpha { slice_index products 3 ≤ 65025 }
    ensures { result ≡ color_of (λ k. component_of_products (slice_index products k)) }
{
    let halves_up = products.strict_add(u16x4::splat(127));
    (halves_up
        .strict_add(u16x4::splat(1))
        .strict_add(halves_up >> 8)
        >> 8)
        .cast::<u8>()
        .to_array()
}

/// The product of two components.
pub fn product(a: u8, b: u8) -> u8
    ensures { result ≡ product_of a b }
{
    ((u32::from(a) * u32::from(b) + 127) / 255) as u8
}

/// The first of two components, and the second as much as the weight says.
pub fn mixed(weight: u8, first: u8, second: u8) -> u8
    ensures { result ≡ mixed_component weight first second }
{
    let weight = u32::from(weight);
    ((u32::from(first) * (255 - weight) + u32::from(second) * weight + 127) / 255) as u8
}
