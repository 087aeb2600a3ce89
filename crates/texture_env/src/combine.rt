//! The texture function COMBINE (OpenGL ES 1.1.12, 3.7.12).
ghost use Rattle.std.specs.Prelude.{◌≡◌, ◌<◌, ◌≤◌, ◌+ℤ◌, ◌*ℤ◌, unsigned_abs};
ghost use Rattle.gl_records.specs.Color.{color_of};
ghost use Rattle.gl_records.specs.Combining.{argument as argument_of, combined as combined_color, function_of, gives_alpha as gives_alpha_of, is_dot as is_dot_of, operand_of, rgb_component, result_of, scaled as scaled_result, signed_component, signed_product as signed_product_of, source_color as source_color_of};
ghost use Rattle.texture_env.specs.Combining.{dot_of, made_of};

use crate::functions::{mixed, product};
use fx_arith::floor_div;
use gl_records::{Combine, Env};
use gl_tokens::{CombineFunc, CombineOperand, CombineSource};

/// The combined colour of a unit: of its texel, its constant colour, the colour before texturing and the one that comes
/// in.
#[tactic(auto, unfolding(gl_records::specs::Combining::combined))]
pub fn combined(env: &Env, texel: [u8; 4], primary: [u8; 4], previous: [u8; 4]) -> [u8; 4]
    ensures { result ≡ combined_color env.now texel primary previous }
{
    let constant = env.color;
    let rgb = colors(&env.rgb, texel, constant, primary, previous);
    let alpha = if gives_alpha(env.rgb.func) {
        rgb[3]
    } else {
        alpha(&env.alpha, texel, constant, primary, previous)
    };
    [rgb[0], rgb[1], rgb[2], alpha]
}

/// What the function for the colour makes of each component; a dot product is the same for all.
#[tactic(auto, unfolding(gl_records::specs::Combining::result_of, gl_records::specs::Combining::dot_product))]
fn colors(
    rgb: &Combine,
    texel: [u8; 4],
    constant: [u8; 4],
    primary: [u8; 4],
    previous: [u8; 4],
) -> [u8; 4]
    ensures { result ≡ color_of (rgb_component rgb.now (λ source. source_color_of source texel constant primary previous)) }
{
    let a = argument(rgb, 0, texel, constant, primary, previous);
    let b = argument(rgb, 1, texel, constant, primary, previous);
    if is_dot(rgb.func) {
        return [scaled(rgb.scale, dot(a, b)); 4];
    }
    let c = argument(rgb, 2, texel, constant, primary, previous);
    [
        made(rgb.func, rgb.scale, a[0], b[0], c[0]),
        made(rgb.func, rgb.scale, a[1], b[1], c[1]),
        made(rgb.func, rgb.scale, a[2], b[2], c[2]),
        made(rgb.func, rgb.scale, a[3], b[3], c[3]),
    ]
}

/// What the function for alpha makes of the alphas.
#[tactic(auto, unfolding(gl_records::specs::Combining::result_of))]
fn alpha(
    alpha: &Combine,
    texel: [u8; 4],
    constant: [u8; 4],
    primary: [u8; 4],
    previous: [u8; 4],
) -> u8
    ensures { result ≡ result_of alpha.now (λ source. source_color_of source texel constant primary previous) 3 }
{
    let a = argument(alpha, 0, texel, constant, primary, previous);
    let b = argument(alpha, 1, texel, constant, primary, previous);
    let c = argument(alpha, 2, texel, constant, primary, previous);
    made(alpha.func, alpha.scale, a[3], b[3], c[3])
}

/// Argument `i`, each component of it.
fn argument(
    combine: &Combine,
    i: usize,
    texel: [u8; 4],
    constant: [u8; 4],
    primary: [u8; 4],
    previous: [u8; 4],
) -> [u8; 4]
    requires { i < 3 }
    ensures { result ≡ color_of (argument_of combine.now (λ source. source_color_of source texel constant primary previous) i) }
{
    operand(
        combine.operands[i],
        source_color(combine.sources[i], texel, constant, primary, previous),
    )
}

fn source_color(
    source: CombineSource,
    texel: [u8; 4],
    constant: [u8; 4],
    primary: [u8; 4],
    previous: [u8; 4],
) -> [u8; 4]
    ensures { result ≡ source_color_of source texel constant primary previous }
{
    match source {
        CombineSource::Texture => texel,
        CombineSource::Constant => constant,
        CombineSource::PrimaryColor => primary,
        CombineSource::Previous => previous,
    }
}

/// What an operand takes of a source's colour.
fn operand(operand: CombineOperand, color: [u8; 4]) -> [u8; 4]
    ensures { result ≡ color_of (operand_of operand color) }
{
    match operand {
        CombineOperand::SourceColor => [color[0], color[1], color[2], color[3]],
        CombineOperand::OneMinusSourceColor => [
            255 - color[0],
            255 - color[1],
            255 - color[2],
            255 - color[3],
        ],
        CombineOperand::SourceAlpha => [color[3]; 4],
        CombineOperand::OneMinusSourceAlpha => [255 - color[3]; 4],
    }
}

fn is_dot(func: CombineFunc) -> bool
    ensures { result ≡ is_dot_of func }
{
    matches!(func, CombineFunc::Dot3Rgb | CombineFunc::Dot3Rgba)
}

fn gives_alpha(func: CombineFunc) -> bool
    ensures { result ≡ gives_alpha_of func }
{
    matches!(func, CombineFunc::Dot3Rgba)
}

/// What a function makes of its arguments, with its scale.
fn made(func: CombineFunc, scale: u8, a: u8, b: u8, c: u8) -> u8
    ensures { result ≡ made_of func scale a b c }
{
    scaled(scale, of_arguments(func, a, b, c))
}

fn of_arguments(func: CombineFunc, a: u8, b: u8, c: u8) -> i64
    ensures value { result ≡ function_of func a b c }
    ensures bound { unsigned_abs result ≤ 1000000 }
{
    match func {
        CombineFunc::Replace => i64::from(a),
        CombineFunc::Modulate => i64::from(product(a, b)),
        CombineFunc::Add => i64::from(a) + i64::from(b),
        CombineFunc::AddSigned => i64::from(a) + i64::from(b) - 128,
        CombineFunc::Interpolate => i64::from(mixed(c, b, a)),
        CombineFunc::Subtract => i64::from(a) - i64::from(b),
        CombineFunc::Dot3Rgb => i64::from(a),
        CombineFunc::Dot3Rgba => i64::from(a),
    }
}

/// A value times its scale, between 0 and 255.
fn scaled(scale: u8, value: i64) -> u8
    requires { unsigned_abs value ≤ 1000000 }
    ensures { result ≡ scaled_result scale value }
{
    (value * i64::from(scale)).clamp(0, 255) as u8
}

/// The dot product of two arguments, over red, green and blue.
fn dot(a: [u8; 4], b: [u8; 4]) -> i64
    ensures value { result ≡ dot_of a b }
    ensures bound { unsigned_abs result ≤ 1000000 }
{
    floor_div(
        sum_of(
            signed_product(a[0], b[0]),
            signed_product(a[1], b[1]),
            signed_product(a[2], b[2]),
        ),
        255,
    )
}

fn sum_of(red: i64, green: i64, blue: i64) -> i64
    requires red { unsigned_abs red ≤ 65025 }
    requires green { unsigned_abs green ≤ 65025 }
    requires blue { unsigned_abs blue ≤ 65025 }
    ensures value { result ≡ red +ℤ green +ℤ blue }
    ensures bound { unsigned_abs result ≤ 195075 }
{
    red + green + blue
}

/// The product of two components as numbers between -1 and 1, in 255ths.
fn signed_product(a: u8, b: u8) -> i64
    ensures value { result ≡ signed_product_of a b }
    ensures bound { unsigned_abs result ≤ 65025 }
{
    times(centered(a), centered(b))
}

fn centered(a: u8) -> i64
    ensures value { result ≡ signed_component a }
    ensures bound { unsigned_abs result ≤ 255 }
{
    2 * i64::from(a) - 255
}

fn times(a: i64, b: i64) -> i64
    requires a { unsigned_abs a ≤ 255 }
    requires b { unsigned_abs b ≤ 255 }
    ensures value { result ≡ a *ℤ b }
    ensures bound { unsigned_abs result ≤ 65025 }
{
    a * b
}
