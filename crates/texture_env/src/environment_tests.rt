//! Tables of texture functions. The bytes come from a script outside of the program, over fractions.
use crate::environment::environment;
use gl_records::{Combine, Env, Sampler, UnitState, VersionId};
use gl_tokens::{BaseFormat, CombineFunc, CombineOperand, CombineSource, EnvMode, Filter, Wrap};

pub(crate) const TEXEL: CombineSource = CombineSource::Texture;

pub(crate) const CONSTANT: CombineSource = CombineSource::Constant;

pub(crate) const PRIMARY: CombineSource = CombineSource::PrimaryColor;

pub(crate) const PREVIOUS: CombineSource = CombineSource::Previous;

pub(crate) const COLOR: CombineOperand = CombineOperand::SourceColor;

pub(crate) const NOT_COLOR: CombineOperand = CombineOperand::OneMinusSourceColor;

pub(crate) const ALPHA: CombineOperand = CombineOperand::SourceAlpha;

pub(crate) const NOT_ALPHA: CombineOperand = CombineOperand::OneMinusSourceAlpha;

/// What comes in, alone.
pub(crate) const KEEP: Combine = Combine {
    func: CombineFunc::Replace,
    sources: [PREVIOUS; 3],
    operands: [ALPHA; 3],
    scale: 1,
};

/// A unit that reads level 0 alone, and takes the nearest texel.
pub(crate) const UNIT: UnitState = UnitState {
    version: VersionId(0),
    format: BaseFormat::Rgba,
    sampler: Sampler {
        mag: Filter::Nearest,
        min: Filter::Nearest,
        wrap_s: Wrap::Repeat,
        wrap_t: Wrap::Repeat,
    },
    env: Env {
        mode: EnvMode::Replace,
        color: [0; 4],
        rgb: KEEP,
        alpha: KEEP,
    },
};

pub(crate) fn unit(mode: EnvMode, format: BaseFormat, color: [u8; 4]) -> UnitState {
    UnitState {
        format,
        env: Env {
            mode,
            color,
            ..UNIT.env
        },
        ..UNIT
    }
}

/// The texel of each format as it is unpacked, and what each mode makes of it and of an incoming (200, 100, 50, 128), with
/// the constant (10, 250, 128, 77).
const MODES: [(EnvMode, BaseFormat, [u8; 4], [u8; 4]); 25] = [
    (
        EnvMode::Replace,
        BaseFormat::Alpha,
        [0, 0, 0, 90],
        [200, 100, 50, 90],
    ),
    (
        EnvMode::Replace,
        BaseFormat::Rgb,
        [60, 180, 240, 255],
        [60, 180, 240, 128],
    ),
    (
        EnvMode::Replace,
        BaseFormat::Rgba,
        [60, 180, 240, 90],
        [60, 180, 240, 90],
    ),
    (
        EnvMode::Replace,
        BaseFormat::Luminance,
        [60, 60, 60, 255],
        [60, 60, 60, 128],
    ),
    (
        EnvMode::Replace,
        BaseFormat::LuminanceAlpha,
        [60, 60, 60, 90],
        [60, 60, 60, 90],
    ),
    (
        EnvMode::Modulate,
        BaseFormat::Alpha,
        [0, 0, 0, 90],
        [200, 100, 50, 45],
    ),
    (
        EnvMode::Modulate,
        BaseFormat::Rgb,
        [60, 180, 240, 255],
        [47, 71, 47, 128],
    ),
    (
        EnvMode::Modulate,
        BaseFormat::Rgba,
        [60, 180, 240, 90],
        [47, 71, 47, 45],
    ),
    (
        EnvMode::Modulate,
        BaseFormat::Luminance,
        [60, 60, 60, 255],
        [47, 24, 12, 128],
    ),
    (
        EnvMode::Modulate,
        BaseFormat::LuminanceAlpha,
        [60, 60, 60, 90],
        [47, 24, 12, 45],
    ),
    (
        EnvMode::Decal,
        BaseFormat::Alpha,
        [0, 0, 0, 90],
        [200, 100, 50, 128],
    ),
    (
        EnvMode::Decal,
        BaseFormat::Rgb,
        [60, 180, 240, 255],
        [60, 180, 240, 128],
    ),
    (
        EnvMode::Decal,
        BaseFormat::Rgba,
        [60, 180, 240, 90],
        [151, 128, 117, 128],
    ),
    (
        EnvMode::Decal,
        BaseFormat::Luminance,
        [60, 60, 60, 255],
        [200, 100, 50, 128],
    ),
    (
        EnvMode::Decal,
        BaseFormat::LuminanceAlpha,
        [60, 60, 60, 90],
        [200, 100, 50, 128],
    ),
    (
        EnvMode::Blend,
        BaseFormat::Alpha,
        [0, 0, 0, 90],
        [200, 100, 50, 45],
    ),
    (
        EnvMode::Blend,
        BaseFormat::Rgb,
        [60, 180, 240, 255],
        [155, 206, 123, 128],
    ),
    (
        EnvMode::Blend,
        BaseFormat::Rgba,
        [60, 180, 240, 90],
        [155, 206, 123, 45],
    ),
    (
        EnvMode::Blend,
        BaseFormat::Luminance,
        [60, 60, 60, 255],
        [155, 135, 68, 128],
    ),
    (
        EnvMode::Blend,
        BaseFormat::LuminanceAlpha,
        [60, 60, 60, 90],
        [155, 135, 68, 45],
    ),
    (
        EnvMode::Add,
        BaseFormat::Alpha,
        [0, 0, 0, 90],
        [200, 100, 50, 45],
    ),
    (
        EnvMode::Add,
        BaseFormat::Rgb,
        [60, 180, 240, 255],
        [255, 255, 255, 128],
    ),
    (
        EnvMode::Add,
        BaseFormat::Rgba,
        [60, 180, 240, 90],
        [255, 255, 255, 45],
    ),
    (
        EnvMode::Add,
        BaseFormat::Luminance,
        [60, 60, 60, 255],
        [255, 160, 110, 128],
    ),
    (
        EnvMode::Add,
        BaseFormat::LuminanceAlpha,
        [60, 60, 60, 90],
        [255, 160, 110, 45],
    ),
];

#[test]
fn each_mode_with_each_format(rt: HostRuntime) {
    for (mode, format, texel, want) in MODES {
        let unit = unit(mode, format, [10, 250, 128, 77]);
        let got = environment(&unit, texel, [1, 2, 3, 4], [200, 100, 50, 128]);
        assert_eq!(rt; got, want);
    }
}
