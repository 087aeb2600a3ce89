//! Commands of the subjects that no query answers, in tables: their errors, the ends of their ranges, and what is kept
//! after an error; and what set-up and fragments are told of the state.
use super::*;
use fx_arith::Fx;
use gl_records::{
    Combine, Env, FogRule, FragState, Material, Params, PixelBox, Rec, Sampler, SetupRules, Size,
    StencilState, UnitState, VersionId,
};
use gl_tokens::*;
use std::process::Abort;

const SIZE: Size = Size { w: 16, h: 8 };

const NONE: Option<GlError> = None;

const ENUM: Option<GlError> = Some(GlError::InvalidEnum);

const VALUE: Option<GlError> = Some(GlError::InvalidValue);

const ONE: i32 = 65536;

/// A parameter whose first word is this one.
fn first(word: i32) -> Params {
    Params(Fx(word), Fx(2), Fx(3), Fx(4))
}

fn color(red: i32) -> [Fx; 4] {
    [Fx(red), Fx(2), Fx(3), Fx(4)]
}

/// Runs commands, each of which makes this error or none.
fn run<R: Abort>(rt: &R, state: &mut State, table: &[(Rec, Option<GlError>)]) {
    for (rec, error) in table {
        assert_eq!(rt; state.apply(rec), *error);
    }
}

#[test]
fn the_clients_unit_is_another_than_the_active_one(rt: HostRuntime) {
    let mut state = State::new(SIZE);
    let table = [
        (Rec::ClientActiveTexture { texture: 0x84C1 }, NONE),
        (Rec::ClientActiveTexture { texture: 0x84C2 }, ENUM),
        (Rec::ActiveTexture { texture: 0x84C0 }, NONE),
    ];
    run(&rt, &mut state, &table);
    assert_eq!(rt; state.current.client_unit, TextureUnit::Texture1);
    assert_eq!(rt; state.unit(), 0);
}

#[test]
fn the_state_that_set_up_goes_by(rt: HostRuntime) {
    let mut state = State::new(SIZE);
    let opening = SetupRules {
        viewport: [0, 0, 16, 8],
        range: [Fx(0), Fx(ONE)],
        front_ccw: true,
        cull: None,
        two_side: false,
        offset: None,
        point: 1,
        line: 1,
    };
    assert_eq!(rt; state.setup_rules(), opening);
    let [x, y, width, height] = [-4097, 4097, 2049, i32::MAX];
    let (factor, units) = (Fx(-3), Fx(5));
    run(
        &rt,
        &mut state,
        &[
            (
                Rec::Viewport {
                    x,
                    y,
                    width,
                    height,
                },
                NONE,
            ),
            (Rec::CullFace { face: 0x0408 }, NONE),
            (Rec::FrontFace { winding: 0x0900 }, NONE),
            (Rec::ShadeModel { model: 0x1D00 }, NONE),
            (Rec::PointSizex { size: Fx(i32::MAX) }, NONE),
            (Rec::LineWidthx { width: Fx(98304) }, NONE),
            (Rec::PolygonOffsetx { factor, units }, NONE),
            (Rec::Enable { capability: 0x0B44 }, NONE),
            (Rec::Enable { capability: 0x8037 }, NONE),
        ],
    );
    let want = SetupRules {
        viewport: [-4096, 4096, 2048, 2048],
        range: [Fx(0), Fx(ONE)],
        front_ccw: false,
        cull: Some([true, true]),
        two_side: false,
        offset: Some([factor, units]),
        point: 64,
        line: 2,
    };
    assert_eq!(rt; state.setup_rules(), want);
    assert!(rt; state.flat());
    run(
        &rt,
        &mut state,
        &[(Rec::LineWidthx { width: Fx(98303) }, NONE)],
    );
    assert_eq!(rt; state.setup_rules().line, 1);
}

fn fog_rule(state: &State) -> FogRule {
    state.fog.rule.get()
}

fn material(state: &State) -> Material {
    state.lighting.material.get()
}

#[test]
fn fog(rt: HostRuntime) {
    let mut state = State::new(SIZE);
    let set = |parameter, word| Rec::Fogx {
        parameter,
        values: first(word),
    };
    run(
        &rt,
        &mut state,
        &[
            (set(0x0B65, 0x2601), NONE),
            (set(0x0B65, 0x2600), ENUM),
            (set(0x0B62, 0), NONE),
            (set(0x0B62, -1), VALUE),
            (set(0x0B63, -5), NONE),
            (set(0x0B64, i32::MAX), NONE),
            (set(0x0B66, 2 * ONE), NONE),
            (set(0x0B61, -1), ENUM),
            (set(0x0B67, -1), ENUM),
        ],
    );
    let want = FogRule {
        mode: FogMode::Linear,
        density: Fx(0),
        start: Fx(-5),
        end: Fx(i32::MAX),
    };
    assert_eq!(rt; fog_rule(&state), want);
    assert_eq!(rt; state.fog.color, color(2 * ONE));
}

#[test]
fn materials_and_scene(rt: HostRuntime) {
    let mut state = State::new(SIZE);
    let both = |parameter, word| Rec::Materialx {
        face: 0x0408,
        parameter,
        values: first(word),
    };
    let front = |parameter, word| Rec::Materialx {
        face: 0x0404,
        parameter,
        values: first(word),
    };
    let model = |parameter, word| Rec::LightModelx {
        parameter,
        values: first(word),
    };
    run(&rt, &mut state, &[(both(0x1602, 7), NONE)]);
    let kept = material(&state);
    assert_eq!(rt; kept.ambient, color(7));
    assert_eq!(rt; kept.diffuse, color(7));
    run(
        &rt,
        &mut state,
        &[
            (both(0x1200, 8), NONE),
            (both(0x1201, 9), NONE),
            (both(0x1202, 10), NONE),
            (both(0x1600, 11), NONE),
            (both(0x1601, 128 * ONE), NONE),
            (both(0x1601, 128 * ONE + 1), VALUE),
            (both(0x1601, -1), VALUE),
            (both(0x1603, -1), ENUM),
            (both(0x1203, -1), ENUM),
            (front(0x1601, -1), ENUM),
            (front(0x1200, 1), ENUM),
        ],
    );
    let material = material(&state);
    assert_eq!(rt; (material.ambient, material.diffuse), (color(8), color(9)));
    assert_eq!(rt;
        (material.specular, material.emission),
        (color(10), color(11))
    );
    assert_eq!(rt; material.shininess, Fx(128 * ONE));
    run(
        &rt,
        &mut state,
        &[
            (model(0x0B53, -1), NONE),
            (model(0x0B52, 256), NONE),
            (model(0x0B54, 0), ENUM),
        ],
    );
    assert_eq!(rt; state.lighting.scene, color(-1));
    assert!(rt; state.lighting.two_side);
    assert!(rt; !state.setup_rules().two_side);
    run(
        &rt,
        &mut state,
        &[(Rec::Enable { capability: 0x0B50 }, NONE)],
    );
    assert!(rt; state.setup_rules().two_side);
}

#[test]
fn a_material_that_follows_the_color(rt: HostRuntime) {
    let mut state = State::new(SIZE);
    let both = |parameter, word| Rec::Materialx {
        face: 0x0408,
        parameter,
        values: first(word),
    };
    let given = |red| Rec::Color4x {
        red: Fx(red),
        green: Fx(2),
        blue: Fx(3),
        alpha: Fx(4),
    };
    run(
        &rt,
        &mut state,
        &[(given(5), NONE), (Rec::Enable { capability: 0x0B57 }, NONE)],
    );
    let kept = material(&state);
    assert_eq!(rt; kept.ambient, color(5));
    assert_eq!(rt; kept.diffuse, color(5));
    run(
        &rt,
        &mut state,
        &[
            (given(6), NONE),
            (both(0x1200, 7), NONE),
            (both(0x1201, 7), NONE),
            (both(0x1602, 7), NONE),
            (both(0x1202, 8), NONE),
            (both(0x1601, -1), VALUE),
        ],
    );
    let kept = material(&state);
    assert_eq!(rt; kept.ambient, color(6));
    assert_eq!(rt; kept.diffuse, color(6));
    assert_eq!(rt; kept.specular, color(8));
    run(
        &rt,
        &mut state,
        &[
            (Rec::Disable { capability: 0x0B57 }, NONE),
            (given(9), NONE),
        ],
    );
    let kept = material(&state);
    assert_eq!(rt; kept.diffuse, color(6));
    run(&rt, &mut state, &[(both(0x1602, 10), NONE)]);
    let kept = material(&state);
    assert_eq!(rt; kept.diffuse, color(10));
}

#[test]
fn environments_and_rows_of_pixels(rt: HostRuntime) {
    let mut state = State::new(SIZE);
    let set = |parameter, word| Rec::TexEnvx {
        target: 0x2300,
        parameter,
        values: first(word),
    };
    let other = |parameter, word| Rec::TexEnvx {
        target: 0x2301,
        parameter,
        values: first(word),
    };
    let opening = state.environments.texture1;
    run(
        &rt,
        &mut state,
        &[
            (set(0x2200, 0x8570), NONE),
            (set(0x2200, 0x8571), ENUM),
            (set(0x2201, -1), NONE),
            (set(0x8571, 0x86AF), NONE),
            (set(0x8572, 0x86AF), ENUM),
            (set(0x8572, 0x8575), NONE),
            (set(0x8573, 4 * ONE), NONE),
            (set(0x8573, 3 * ONE), VALUE),
            (set(0x0D1C, 2 * ONE), NONE),
            (set(0x0D1C, 0), VALUE),
            (set(0x8582, 0x8578), NONE),
            (set(0x858A, 0x8577), NONE),
            (set(0x8581, 0x84C0), ENUM),
            (set(0x8590, 0x0303), NONE),
            (set(0x859A, 0x0303), NONE),
            (set(0x8599, 0x0301), ENUM),
            (set(0x8574, ONE), ENUM),
            (other(0x8573, 3 * ONE), ENUM),
            (other(0x8574, 0), ENUM),
        ],
    );
    assert_eq!(rt; state.environments.texture1, opening);
    let got = state.environments.texture0;
    assert_eq!(rt; (got.mode, got.color), (EnvMode::Combine, color(-1)));
    assert_eq!(rt; (got.rgb.func, got.rgb.scale), (CombineFunc::Dot3Rgba, 4));
    assert_eq!(rt;
        (got.alpha.func, got.alpha.scale),
        (CombineFunc::Interpolate, 2)
    );
    assert_eq!(rt; got.rgb.sources[2], CombineSource::Previous);
    assert_eq!(rt; got.alpha.sources[2], CombineSource::PrimaryColor);
    assert_eq!(rt; got.rgb.operands[0], CombineOperand::OneMinusSourceAlpha);
    assert_eq!(rt; got.alpha.operands[1], CombineOperand::SourceAlpha);
    let rows = |parameter, value| Rec::PixelStorei { parameter, value };
    run(
        &rt,
        &mut state,
        &[
            (rows(0x0CF5, 1), NONE),
            (rows(0x0D05, 8), NONE),
            (rows(0x0CF5, 3), VALUE),
            (rows(0x0D05, -8), VALUE),
            (rows(0x0D06, 3), ENUM),
        ],
    );
    assert_eq!(rt; state.aligns(), (1, 8));
}

const IMAGE: UnitImage = (
    VersionId(7),
    BaseFormat::Rgb,
    Sampler {
        mag: Filter::Linear,
        min: Filter::Nearest,
        wrap_s: Wrap::Repeat,
        wrap_t: Wrap::ClampToEdge,
    },
);

/// What happens to fragments where nothing is on.
const ALL_OFF: FragState = FragState {
    units: [None; 2],
    fog: None,
    scissor: None,
    alpha: None,
    stencil: None,
    depth: None,
    blend: None,
    logic: None,
    mask: [true; 4],
};

/// The texture unit of [`IMAGE`], with a constant colour and otherwise as it is before the first command.
const UNIT: UnitState = UnitState {
    version: VersionId(7),
    format: BaseFormat::Rgb,
    sampler: Sampler {
        mag: Filter::Linear,
        min: Filter::Nearest,
        wrap_s: Wrap::Repeat,
        wrap_t: Wrap::ClampToEdge,
    },
    env: Env {
        mode: EnvMode::Modulate,
        color: [128, 0, 255, 0],
        rgb: Combine {
            func: CombineFunc::Modulate,
            sources: [
                CombineSource::Texture,
                CombineSource::Previous,
                CombineSource::Constant,
            ],
            operands: [
                CombineOperand::SourceColor,
                CombineOperand::SourceColor,
                CombineOperand::SourceAlpha,
            ],
            scale: 1,
        },
        alpha: Combine {
            func: CombineFunc::Modulate,
            sources: [
                CombineSource::Texture,
                CombineSource::Previous,
                CombineSource::Constant,
            ],
            operands: [CombineOperand::SourceAlpha; 3],
            scale: 1,
        },
    },
};

#[test]
fn states_of_fragments(rt: HostRuntime) {
    let mut state = State::new(SIZE);
    assert_eq!(rt; state.frag_state([Some(IMAGE), Some(IMAGE)]), ALL_OFF);
    let commands = [
        Rec::AlphaFuncx {
            comparison: 0x0204,
            reference: Fx(32768),
        },
        Rec::StencilFunc {
            comparison: 0x0202,
            reference: 300,
            mask: 0x1F3,
        },
        Rec::StencilOp {
            stencil_fail: 0x1E02,
            depth_fail: 0x150A,
            depth_pass: 0,
        },
        Rec::StencilMask { mask: 0x10F },
        Rec::DepthMask { write: false },
        Rec::Scissor {
            x: -3,
            y: 2147483640,
            width: 5,
            height: 8,
        },
        Rec::BlendFunc {
            source: 0x0308,
            destination: 0x0301,
        },
        Rec::Fogx {
            parameter: 0x0B66,
            values: Params(Fx(ONE), Fx(-1), Fx(32768), Fx(99999)),
        },
        Rec::TexEnvx {
            target: 0x2300,
            parameter: 0x2201,
            values: Params(Fx(32768), Fx(0), Fx(ONE), Fx(-ONE)),
        },
    ];
    for command in &commands {
        assert_eq!(rt; state.apply(command), NONE);
    }
    for capability in [0x0B60, 0x0C11, 0x0BC0, 0x0B90, 0x0B71, 0x0BE2, 0x0DE1] {
        run(&rt, &mut state, &[(Rec::Enable { capability }, NONE)]);
    }
    let on = FragState {
        units: [Some(UNIT), None],
        fog: Some([255, 0, 128, 255]),
        scissor: Some(PixelBox {
            x0: -3,
            y0: 2147483640,
            x1: 2,
            y1: 2147483647,
        }),
        alpha: Some((Compare::Greater, 128)),
        stencil: Some(StencilState {
            func: Compare::Equal,
            reference: 255,
            mask: 0xF3,
            write: 0x0F,
            ops: [StencilOp::Increment, StencilOp::Invert, StencilOp::Zero],
        }),
        depth: Some((Compare::Less, false)),
        blend: Some((
            BlendFactor::SourceAlphaSaturate,
            BlendFactor::OneMinusSourceColor,
        )),
        logic: None,
        mask: [true; 4],
    };
    assert_eq!(rt; state.frag_state([Some(IMAGE), Some(IMAGE)]), on);
    run(
        &rt,
        &mut state,
        &[(Rec::Enable { capability: 0x0BF2 }, NONE)],
    );
    let combined = FragState {
        units: [None; 2],
        blend: None,
        logic: Some(LogicOp::Copy),
        ..on
    };
    assert_eq!(rt; state.frag_state([None, Some(IMAGE)]), combined);
}
