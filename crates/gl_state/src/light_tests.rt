//! Lights by numbers worked out by hand: the errors of Lightx in their order, the ends of its ranges, and what is kept, in eye
//! coordinates.
use super::*;
use fx_arith::Fx;
use gl_records::{FogRule, Light, Params, Rec, Size};
use gl_tokens::{FogMode, GlError};
use std::process::Abort;

const SIZE: Size = Size { w: 16, h: 8 };

const ENUM: Option<GlError> = Some(GlError::InvalidEnum);

const VALUE: Option<GlError> = Some(GlError::InvalidValue);

const ONE: i32 = 65536;

fn lightx(light: u32, parameter: u32, words: [i32; 4]) -> Rec {
    let [a, b, c, d] = words;
    Rec::Lightx {
        light,
        parameter,
        values: Params(Fx(a), Fx(b), Fx(c), Fx(d)),
    }
}

// A wrong light stands before a wrong parameter, and that before a wrong value; after an error the light is as it was.
#[test]
fn errors_of_lights(rt: HostRuntime) {
    let mut state = State::new(SIZE);
    let before = state.lights;
    for (light, parameter, word, error) in [
        (0x3FFF, 0x1200, 0, ENUM),
        (0x4008, 0x120A, -1, ENUM),
        (0x4000, 0x11FF, 0, ENUM),
        (0x4000, 0x120A, -1, ENUM),
        (0x4007, 0x1205, -1, VALUE),
        (0x4007, 0x1205, 128 * ONE + 1, VALUE),
        (0x4000, 0x1206, -1, VALUE),
        (0x4000, 0x1206, 90 * ONE + 1, VALUE),
        (0x4000, 0x1206, 180 * ONE - 1, VALUE),
        (0x4000, 0x1206, 180 * ONE + 1, VALUE),
        (0x4001, 0x1207, -1, VALUE),
        (0x4001, 0x1208, -1, VALUE),
        (0x4001, 0x1209, i32::MIN, VALUE),
    ] {
        assert_eq!(rt;
            state.apply(&lightx(light, parameter, [word, -1, -1, -1])),
            error
        );
    }
    assert_eq!(rt; state.lights, before);
}

fn apply_all<R: Abort>(rt: &R, state: &mut State, table: &[Rec]) {
    for rec in table {
        assert_eq!(rt; state.apply(rec), None);
    }
}

// The modelview doubles x and moves by (1, 2, 3): 1 1 1 1 becomes 3 3 4 1, the direction 1 1 1 becomes 2 1 1, and a later
// matrix changes neither.
#[test]
fn lights_are_kept_in_eye_coordinates(rt: HostRuntime) {
    let mut state = State::new(SIZE);
    let one = [ONE; 4];
    let translation = Rec::Translatex {
        x: Fx(ONE),
        y: Fx(2 * ONE),
        z: Fx(3 * ONE),
    };
    let scaling = Rec::Scalex {
        x: Fx(2 * ONE),
        y: Fx(ONE),
        z: Fx(ONE),
    };
    apply_all(
        &rt,
        &mut state,
        &[
            translation,
            scaling,
            lightx(0x4002, 0x1203, one),
            lightx(0x4002, 0x1204, one),
            lightx(0x4002, 0x1205, [128 * ONE, -1, -1, -1]),
            lightx(0x4002, 0x1206, [90 * ONE, -1, -1, -1]),
            lightx(0x4002, 0x1207, [0, -1, -1, -1]),
            lightx(0x4002, 0x1208, [5, -1, -1, -1]),
            lightx(0x4002, 0x1209, [i32::MAX, -1, -1, -1]),
            lightx(0x4002, 0x1200, [-1, 2, 3, 4]),
            lightx(0x4002, 0x1201, [5, 6, 7, 8]),
            lightx(0x4002, 0x1202, [9, 10, 11, 12]),
            Rec::LoadIdentity,
            Rec::Enable { capability: 0x4002 },
        ],
    );
    let want = Light {
        ambient: [Fx(-1), Fx(2), Fx(3), Fx(4)],
        diffuse: [Fx(5), Fx(6), Fx(7), Fx(8)],
        specular: [Fx(9), Fx(10), Fx(11), Fx(12)],
        position: [Fx(3 * ONE), Fx(3 * ONE), Fx(4 * ONE), Fx(ONE)],
        direction: [Fx(2 * ONE), Fx(ONE), Fx(ONE)],
        exponent: Fx(128 * ONE),
        cutoff: Fx(90 * ONE),
        attenuation: [Fx(0), Fx(5), Fx(i32::MAX)],
    };
    let lights = state.vertex_state().lights;
    assert_eq!(rt; lights[2], Some(want));
    assert_eq!(rt; lights[0], None);
    assert_eq!(rt; lights[7], None);
}

// At first light 0 is white and the others are black, and fog is exponential.
#[test]
fn lights_and_fog_at_first(rt: HostRuntime) {
    let mut state = State::new(SIZE);
    let (o, i) = (Fx(0), Fx(ONE));
    assert_eq!(rt; state.vertex_state().lights, [None; 8]);
    assert_eq!(rt; state.vertex_state().fog, None);
    for capability in [0x4000, 0x4007, 0x0B60] {
        assert_eq!(rt; state.apply(&Rec::Enable { capability }), None);
    }
    let made = state.vertex_state();
    let white = Light {
        ambient: [o, o, o, i],
        diffuse: [i, i, i, i],
        specular: [i, i, i, i],
        position: [o, o, i, o],
        direction: [o, o, Fx(-ONE)],
        exponent: o,
        cutoff: Fx(180 * ONE),
        attenuation: [i, o, o],
    };
    let black = Light {
        diffuse: [o, o, o, i],
        specular: [o, o, o, i],
        ..white
    };
    assert_eq!(rt; made.lights[0], Some(white));
    assert_eq!(rt; made.lights[6], None);
    assert_eq!(rt; made.lights[7], Some(black));
    let fog = FogRule {
        mode: FogMode::Exp,
        density: i,
        start: o,
        end: i,
    };
    assert_eq!(rt; made.fog, Some(fog));
}
