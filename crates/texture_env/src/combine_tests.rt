//! Tables of combining functions. The bytes come from a script outside of the program, over fractions.
use crate::combine::combined;
use crate::environment_tests::{
    ALPHA, COLOR, CONSTANT, KEEP, NOT_ALPHA, NOT_COLOR, PREVIOUS, PRIMARY, TEXEL,
};
use gl_records::{Combine, Env};
use gl_tokens::{CombineFunc, CombineOperand, CombineSource, EnvMode};

/// The combined colour of a texel (140, 90, 200, 90), a constant (120, 60, 140, 77), a primary (200, 100, 50, 128) and an
/// incoming (100, 150, 60, 201).
fn combined_of(rgb: Combine, alpha: Combine) -> [u8; 4] {
    let env = Env {
        mode: EnvMode::Combine,
        color: [120, 60, 140, 77],
        rgb,
        alpha,
    };
    combined(
        &env,
        [140, 90, 200, 90],
        [200, 100, 50, 128],
        [100, 150, 60, 201],
    )
}

/// Functions, sources, operands and scales, and the colour that they make; alpha stays.
const COLORS: [(
    CombineFunc,
    [CombineSource; 3],
    [CombineOperand; 3],
    u8,
    [u8; 3],
); 27] = [
    // each source
    (
        CombineFunc::Replace,
        [TEXEL, PREVIOUS, PREVIOUS],
        [COLOR, COLOR, COLOR],
        1,
        [140, 90, 200],
    ),
    (
        CombineFunc::Replace,
        [CONSTANT, PREVIOUS, PREVIOUS],
        [COLOR, COLOR, COLOR],
        1,
        [120, 60, 140],
    ),
    (
        CombineFunc::Replace,
        [PRIMARY, PREVIOUS, PREVIOUS],
        [COLOR, COLOR, COLOR],
        1,
        [200, 100, 50],
    ),
    (
        CombineFunc::Replace,
        [PREVIOUS, PREVIOUS, PREVIOUS],
        [COLOR, COLOR, COLOR],
        1,
        [100, 150, 60],
    ),
    // each operand
    (
        CombineFunc::Replace,
        [TEXEL, PREVIOUS, PREVIOUS],
        [NOT_COLOR, COLOR, COLOR],
        1,
        [115, 165, 55],
    ),
    (
        CombineFunc::Replace,
        [TEXEL, PREVIOUS, PREVIOUS],
        [ALPHA, COLOR, COLOR],
        1,
        [90, 90, 90],
    ),
    (
        CombineFunc::Replace,
        [TEXEL, PREVIOUS, PREVIOUS],
        [NOT_ALPHA, COLOR, COLOR],
        1,
        [165, 165, 165],
    ),
    // each function
    (
        CombineFunc::Modulate,
        [TEXEL, PREVIOUS, CONSTANT],
        [COLOR, COLOR, COLOR],
        1,
        [55, 53, 47],
    ),
    (
        CombineFunc::Add,
        [TEXEL, CONSTANT, PREVIOUS],
        [COLOR, COLOR, COLOR],
        1,
        [255, 150, 255],
    ),
    (
        CombineFunc::AddSigned,
        [TEXEL, PREVIOUS, CONSTANT],
        [COLOR, COLOR, COLOR],
        1,
        [112, 112, 132],
    ),
    (
        CombineFunc::Interpolate,
        [TEXEL, PREVIOUS, CONSTANT],
        [COLOR, COLOR, COLOR],
        1,
        [119, 136, 137],
    ),
    (
        CombineFunc::Subtract,
        [PREVIOUS, TEXEL, CONSTANT],
        [COLOR, COLOR, COLOR],
        1,
        [0, 60, 0],
    ),
    (
        CombineFunc::Subtract,
        [TEXEL, PREVIOUS, CONSTANT],
        [COLOR, COLOR, COLOR],
        1,
        [40, 0, 140],
    ),
    (
        CombineFunc::Interpolate,
        [TEXEL, PREVIOUS, CONSTANT],
        [COLOR, NOT_COLOR, NOT_ALPHA],
        1,
        [145, 95, 198],
    ),
    (
        CombineFunc::Subtract,
        [PRIMARY, TEXEL, CONSTANT],
        [NOT_ALPHA, COLOR, ALPHA],
        1,
        [0, 37, 0],
    ),
    // each scale
    (
        CombineFunc::Replace,
        [CONSTANT, PREVIOUS, PREVIOUS],
        [COLOR, COLOR, COLOR],
        2,
        [240, 120, 255],
    ),
    (
        CombineFunc::Replace,
        [CONSTANT, PREVIOUS, PREVIOUS],
        [COLOR, COLOR, COLOR],
        4,
        [255, 240, 255],
    ),
    (
        CombineFunc::Modulate,
        [TEXEL, PREVIOUS, CONSTANT],
        [COLOR, COLOR, COLOR],
        2,
        [110, 106, 94],
    ),
    (
        CombineFunc::AddSigned,
        [CONSTANT, PREVIOUS, CONSTANT],
        [COLOR, COLOR, COLOR],
        2,
        [184, 164, 144],
    ),
    (
        CombineFunc::AddSigned,
        [CONSTANT, PREVIOUS, CONSTANT],
        [COLOR, COLOR, COLOR],
        4,
        [255, 255, 255],
    ),
    (
        CombineFunc::Subtract,
        [PREVIOUS, TEXEL, CONSTANT],
        [COLOR, COLOR, COLOR],
        4,
        [0, 240, 0],
    ),
    // dot products: 13375 over 255 is 52, and no sum of three floors
    (
        CombineFunc::Dot3Rgb,
        [TEXEL, CONSTANT, PREVIOUS],
        [COLOR, COLOR, COLOR],
        1,
        [52, 52, 52],
    ),
    (
        CombineFunc::Dot3Rgb,
        [TEXEL, CONSTANT, PREVIOUS],
        [COLOR, COLOR, COLOR],
        2,
        [104, 104, 104],
    ),
    (
        CombineFunc::Dot3Rgb,
        [TEXEL, CONSTANT, PREVIOUS],
        [COLOR, COLOR, COLOR],
        4,
        [208, 208, 208],
    ),
    (
        CombineFunc::Dot3Rgb,
        [TEXEL, PREVIOUS, PREVIOUS],
        [COLOR, COLOR, COLOR],
        1,
        [0, 0, 0],
    ),
    (
        CombineFunc::Dot3Rgba,
        [TEXEL, PREVIOUS, PREVIOUS],
        [NOT_COLOR, COLOR, COLOR],
        1,
        [95, 95, 95],
    ),
    (
        CombineFunc::Dot3Rgb,
        [TEXEL, PRIMARY, PREVIOUS],
        [ALPHA, ALPHA, ALPHA],
        1,
        [0, 0, 0],
    ),
];

#[test]
fn colors_combined(rt: HostRuntime) {
    for (func, sources, operands, scale, want) in COLORS {
        let rgb = Combine {
            func,
            sources,
            operands,
            scale,
        };
        let got = combined_of(rgb, KEEP);
        let dot = matches!(func, CombineFunc::Dot3Rgba);
        let alpha = if dot { want[0] } else { 201 };
        assert_eq!(rt; got, [want[0], want[1], want[2], alpha]);
    }
}

/// The same for alpha. A dot product that stands there is REPLACE, and the operands of colours are those of alpha.
const ALPHAS: [(CombineFunc, [CombineSource; 3], [CombineOperand; 3], u8, u8); 11] = [
    (
        CombineFunc::Replace,
        [TEXEL, PREVIOUS, PREVIOUS],
        [COLOR, COLOR, COLOR],
        1,
        90,
    ),
    (
        CombineFunc::Replace,
        [CONSTANT, PREVIOUS, PREVIOUS],
        [NOT_COLOR, COLOR, COLOR],
        1,
        178,
    ),
    (
        CombineFunc::Replace,
        [PRIMARY, PREVIOUS, PREVIOUS],
        [NOT_ALPHA, COLOR, COLOR],
        1,
        127,
    ),
    (
        CombineFunc::Replace,
        [CONSTANT, PREVIOUS, PREVIOUS],
        [ALPHA, COLOR, COLOR],
        2,
        154,
    ),
    (
        CombineFunc::Modulate,
        [TEXEL, PREVIOUS, CONSTANT],
        [ALPHA, ALPHA, ALPHA],
        1,
        71,
    ),
    (
        CombineFunc::Add,
        [TEXEL, CONSTANT, PREVIOUS],
        [COLOR, ALPHA, ALPHA],
        1,
        167,
    ),
    (
        CombineFunc::AddSigned,
        [TEXEL, PREVIOUS, CONSTANT],
        [ALPHA, ALPHA, ALPHA],
        1,
        163,
    ),
    (
        CombineFunc::Interpolate,
        [TEXEL, PREVIOUS, CONSTANT],
        [ALPHA, NOT_COLOR, NOT_ALPHA],
        1,
        79,
    ),
    (
        CombineFunc::Subtract,
        [PREVIOUS, TEXEL, CONSTANT],
        [ALPHA, ALPHA, ALPHA],
        2,
        222,
    ),
    (
        CombineFunc::Dot3Rgb,
        [TEXEL, PREVIOUS, CONSTANT],
        [ALPHA, ALPHA, ALPHA],
        2,
        180,
    ),
    (
        CombineFunc::Dot3Rgba,
        [PRIMARY, PREVIOUS, CONSTANT],
        [NOT_ALPHA, ALPHA, ALPHA],
        1,
        127,
    ),
];

#[test]
fn alphas_combined(rt: HostRuntime) {
    for (func, sources, operands, scale, want) in ALPHAS {
        let alpha = Combine {
            func,
            sources,
            operands,
            scale,
        };
        assert_eq!(rt; combined_of(KEEP, alpha), [201, 201, 201, want]);
        // 13375 over 255 is 52, rounded down, for all four with the scale of the colour
        let dot = Combine {
            func: CombineFunc::Dot3Rgba,
            sources: [TEXEL, CONSTANT, PREVIOUS],
            operands: [COLOR; 3],
            scale: 2,
        };
        assert_eq!(rt; combined_of(dot, alpha), [104; 4]);
    }
}
