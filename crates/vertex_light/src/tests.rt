//! Lights by numbers worked out by hand. A number is raw: 65536 is 1. The eye is at 0 0 0 where nothing else is said, and the
//! normal is taken as it is, of any length.
ghost use Rattle.std.specs.Prelude.{IfSome};
ghost use Rattle.gl_records.specs.VertexState.{IsExponent, IsLightInRange, IsMaterialInRange, IsVertexStateInRange};

use super::*;
use fx_arith::{Fx, Mat4};
use gl_records::{Light, Material, VertexState};
use std::process::Abort;

const ONE: i32 = 65536;

const HALF: i32 = 32768;

const MOST: i32 = i32::MAX;

const BLACK: [Fx; 4] = [Fx::ZERO; 4];

const WHITE: [Fx; 4] = [Fx::ONE; 4];

/// The normal along the z axis, of this length.
fn along_z(length: i32) -> [Fx; 3] {
    [Fx::ZERO, Fx::ZERO, Fx(length)]
}

fn color(red: i32, green: i32, blue: i32, alpha: i32) -> [Fx; 4] {
    [Fx(red), Fx(green), Fx(blue), Fx(alpha)]
}

/// An exponent of 0 to 128; of others 0.
fn exponent(raw: i32) -> Fx
    ensures { IsExponent result }
{
    if 0 <= raw && raw <= 8388608 {
        Fx(raw)
    } else {
        Fx::ZERO
    }
}

/// A material that reflects nothing.
fn black() -> Material
    ensures { IsMaterialInRange result }
{
    Material {
        ambient: BLACK,
        diffuse: BLACK,
        specular: BLACK,
        emission: BLACK,
        shininess: Fx::ZERO,
    }
}

/// A light from this place or direction that gives nothing, everywhere and without attenuation.
fn from(x: i32, y: i32, z: i32, w: i32) -> Light
    ensures { IsLightInRange result }
{
    Light {
        ambient: BLACK,
        diffuse: BLACK,
        specular: BLACK,
        position: [Fx(x), Fx(y), Fx(z), Fx(w)],
        direction: [Fx::ZERO, Fx::ZERO, Fx(-65536)],
        exponent: Fx::ZERO,
        cutoff: Fx(11796480),
        attenuation: [Fx::ONE, Fx::ZERO, Fx::ZERO],
    }
}

/// The state with this material and these lights, under a black scene.
fn state(
    material: &Material,
    first: Option<Light>,
    second: Option<Light>,
    third: Option<Light>,
) -> VertexState
    requires material { IsMaterialInRange material.now }
    requires first { IfSome first IsLightInRange }
    requires second { IfSome second IsLightInRange }
    requires third { IfSome third IsLightInRange }
    ensures { IsVertexStateInRange result }
{
    let identity = Mat4::identity();
    VertexState {
        modelview: identity,
        projection: identity,
        texture: [identity, identity],
        plane: None,
        lighting: true,
        color_material: false,
        normalize: false,
        rescale: false,
        scene: BLACK,
        material: *material,
        lights: [first, None, None, second, None, None, None, third],
        fog: None,
    }
}

fn shows<R: Abort>(rt: &R, state: &VertexState, normal: [Fx; 3], eye: [Fx; 3], want: [i32; 4])
    requires { IsVertexStateInRange state.now }
{
    let [red, green, blue, alpha] = want;
    assert_eq!(rt;
        light(state, WHITE, normal, eye),
        color(red, green, blue, alpha)
    );
}

// n.L is 1, then 4/5 (52428), then below 0; alpha is that of the diffuse colour, 1/4.
#[test]
fn a_directional_light(rt: HostRuntime) {
    let material = Material {
        ambient: color(HALF, 0, 0, ONE),
        diffuse: color(0, ONE, HALF, 16384),
        ..black()
    };
    let sun = Light {
        ambient: color(HALF, ONE, ONE, ONE),
        diffuse: WHITE,
        ..from(0, 0, 2 * ONE, 0)
    };
    let state = state(&material, Some(sun), None, None);
    let eye = [Fx(-5 * ONE), Fx(7), Fx(9 * ONE)];
    for (normal, green, blue) in [
        (along_z(ONE), ONE, HALF),
        ([Fx(39321), Fx::ZERO, Fx(52428)], 52428, 26214),
        (along_z(-ONE), 0, 0),
    ] {
        shows(&rt, &state, normal, eye, [16384, green, blue, 16384]);
    }
}

// The place is 0 0 2, at the distance 2 of the eye, and at 3 of 0 0 -1: k0 = 2 gives 1/2, k1 = 1 gives 1/2 and 1/3, k2 = 1
// gives 1/4, all three 1 give 1/7, and all 0 give 1.
#[test]
fn attenuations(rt: HostRuntime) {
    let material = Material {
        diffuse: WHITE,
        ..black()
    };
    for (k0, k1, k2, z, want) in [
        (2 * ONE, 0, 0, 0, HALF),
        (0, ONE, 0, 0, HALF),
        (0, ONE, 0, -ONE, 21845),
        (0, 0, ONE, 0, 16384),
        (ONE, ONE, ONE, 0, 9362),
        (0, 0, 0, 0, ONE),
    ] {
        let lamp = Light {
            diffuse: WHITE,
            attenuation: [Fx(k0), Fx(k1), Fx(k2)],
            ..from(0, 0, 4 * ONE, 2 * ONE)
        };
        let state = state(&material, Some(lamp), None, None);
        shows(
            &rt,
            &state,
            along_z(ONE),
            along_z(z),
            [want, want, want, ONE],
        );
    }
}

// The place is far beyond what a length can be: each component of L is MOST over 3719550785.
#[test]
fn a_far_place(rt: HostRuntime) {
    let material = Material {
        diffuse: WHITE,
        ..black()
    };
    let lamp = Light {
        diffuse: WHITE,
        ..from(MOST, MOST, MOST, ONE)
    };
    let state = state(&material, Some(lamp), None, None);
    shows(
        &rt,
        &state,
        along_z(ONE),
        along_z(0),
        [37837, 37837, 37837, ONE],
    );
}

// The light is at 0 0 2, so -L is 0 0 -1 and c is the third component of the direction, the other way round. The cosine of
// 60 degrees is 32768, that of 90 is 0, that of 0 is 1.
#[test]
fn spotlights(rt: HostRuntime) {
    let material = Material {
        diffuse: WHITE,
        ..black()
    };
    for (x, z, cutoff, spot, want) in [
        (0, -ONE, 60, ONE, ONE),
        (56756, -32768, 60, 0, ONE),
        (56756, -32768, 60, ONE, HALF),
        (56756, -32768, 60, ONE + HALF, HALF),
        (56756, -32768, 60, 2 * ONE, 16384),
        (56757, -32766, 60, 0, 0),
        (0, -ONE, 0, 128 * ONE, ONE),
        (ONE, 0, 90, 0, ONE),
        (ONE, 0, 90, ONE, 0),
        (ONE, 1, 90, 0, 0),
        (0, ONE, 180, ONE, ONE),
    ] {
        let lamp = Light {
            diffuse: WHITE,
            direction: [Fx(x), Fx::ZERO, Fx(z)],
            cutoff: Fx(65536 * cutoff),
            exponent: exponent(spot),
            ..from(0, 0, 2 * ONE, ONE)
        };
        let state = state(&material, Some(lamp), None, None);
        shows(
            &rt,
            &state,
            along_z(ONE),
            along_z(0),
            [want, want, want, ONE],
        );
    }
}

// The half vector of L 0 0 1 is 0 0 1, so n.L and n.h are the length of the normal; where that is 0 or below there is no
// specular part. Of L 1 0 0 it is 1/2 0 1/2 made longer, 46341 0 46341.
#[test]
fn specular_parts(rt: HostRuntime) {
    for (shininess, length, want) in [
        (0, HALF, ONE),
        (ONE, HALF, HALF),
        (ONE + HALF, HALF, HALF),
        (2 * ONE, HALF, 16384),
        (128 * ONE, HALF, 0),
        (128 * ONE, ONE, ONE),
        (0, 0, 0),
        (0, -ONE, 0),
    ] {
        let material = Material {
            specular: WHITE,
            shininess: exponent(shininess),
            ..black()
        };
        let sun = Light {
            specular: WHITE,
            ..from(0, 0, ONE, 0)
        };
        let state = state(&material, Some(sun), None, None);
        shows(
            &rt,
            &state,
            along_z(length),
            along_z(0),
            [want, want, want, 0],
        );
    }
    let material = Material {
        specular: WHITE,
        shininess: exponent(ONE),
        ..black()
    };
    let sun = Light {
        specular: WHITE,
        ..from(ONE, 0, 0, 0)
    };
    let state = state(&material, Some(sun), None, None);
    let normal = [Fx(HALF), Fx::ZERO, Fx(HALF)];
    shows(&rt, &state, normal, along_z(0), [46341, 46341, 46341, 0]);
}

// Lights 0 and 3 are on. A light at 0 0 0 0 has no direction, and gives its ambient part alone.
#[test]
fn two_lights(rt: HostRuntime) {
    let material = Material {
        ambient: WHITE,
        diffuse: WHITE,
        specular: WHITE,
        emission: color(1, 2, 3, 4),
        ..black()
    };
    let first = Light {
        diffuse: color(16384, 0, 0, 0),
        ..from(0, 0, ONE, 0)
    };
    let second = Light {
        ambient: color(0, 8192, 0, 0),
        diffuse: color(HALF, HALF, HALF, 0),
        ..from(0, 0, ONE, 0)
    };
    let both = state(&material, Some(first), Some(second), None);
    shows(
        &rt,
        &both,
        along_z(ONE),
        along_z(0),
        [49153, 40962, 32771, ONE],
    );
    let nowhere = Light {
        ambient: color(16384, 0, 0, 0),
        diffuse: WHITE,
        specular: WHITE,
        ..from(0, 0, 0, 0)
    };
    let dark = state(&material, None, Some(nowhere), None);
    shows(&rt, &dark, along_z(ONE), along_z(0), [16385, 2, 3, ONE]);
}

// The vertex's colour takes the place of both, and isn't clamped: 1/2 1/4 2 times 1/2, and the scene's 1/8 times as much.
#[test]
fn a_material_that_follows_the_color(rt: HostRuntime) {
    let material = Material {
        ambient: WHITE,
        diffuse: WHITE,
        ..black()
    };
    let sun = Light {
        ambient: color(HALF, HALF, HALF, ONE),
        ..from(0, 0, ONE, 0)
    };
    let state = VertexState {
        color_material: true,
        scene: color(8192, 8192, 0, 0),
        ..state(&material, Some(sun), None, None)
    };
    let vertex = color(HALF, 16384, 2 * ONE, 49152);
    assert_eq!(rt;
        light(&state, vertex, along_z(0), along_z(0)),
        color(20480, 10240, ONE, 49152)
    );
}

// With M the greatest number: M + 1 is M, and less M - 1/2 it is 1/2. Then (M + 1) - (M - 1/4) of a light's three parts, and
// lights in the order M, 1, -(M - 1/8).
#[test]
fn each_addition_saturates(rt: HostRuntime) {
    let grey = |raw| color(raw, raw, raw, 0);
    let less = |part| grey(part - MOST);
    let material = Material {
        ambient: WHITE,
        diffuse: WHITE,
        specular: WHITE,
        ..black()
    };
    let scene = VertexState {
        scene: WHITE,
        ..state(
            &Material {
                emission: grey(MOST),
                ..material
            },
            Some(Light {
                ambient: less(HALF),
                ..from(0, 0, ONE, 0)
            }),
            None,
            None,
        )
    };
    shows(
        &rt,
        &scene,
        along_z(ONE),
        along_z(0),
        [HALF, HALF, HALF, ONE],
    );
    let parts = Light {
        ambient: grey(MOST),
        diffuse: WHITE,
        specular: less(16384),
        ..from(0, 0, ONE, 0)
    };
    let one = state(&material, Some(parts), None, None);
    shows(
        &rt,
        &one,
        along_z(ONE),
        along_z(0),
        [16384, 16384, 16384, ONE],
    );
    let three = state(
        &material,
        Some(Light {
            ambient: grey(MOST),
            ..from(0, 0, ONE, 0)
        }),
        Some(Light {
            ambient: WHITE,
            ..from(0, 0, ONE, 0)
        }),
        Some(Light {
            ambient: less(8192),
            ..from(0, 0, ONE, 0)
        }),
    );
    shows(
        &rt,
        &three,
        along_z(ONE),
        along_z(0),
        [8192, 8192, 8192, ONE],
    );
}
