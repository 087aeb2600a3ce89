ghost use Rattle.gl_records.specs.VertexState.{IsFogInRange, IsVertexStateInRange};

use super::*;
use fx_arith::{Fx, Mat4};
use gl_records::{Attribs, ClipVertex, FogRule, Light, Material, VertexState};
use gl_tokens::FogMode;
use std::process::Abort;

/// Matrices in these tests are columns of halves.
fn matrix(x: [i32; 4], y: [i32; 4], z: [i32; 4], w: [i32; 4]) -> Mat4 {
    let [a, b, c, d] = x;
    let [e, f, g, h] = y;
    let [i, j, k, l] = z;
    let [m, n, o, p] = w;
    Mat4([
        half(a),
        half(b),
        half(c),
        half(d),
        half(e),
        half(f),
        half(g),
        half(h),
        half(i),
        half(j),
        half(k),
        half(l),
        half(m),
        half(n),
        half(o),
        half(p),
    ])
}

fn half(a: i32) -> Fx {
    Fx(a.wrapping_mul(32768))
}

fn four(a: i32, b: i32, c: i32, d: i32) -> [Fx; 4] {
    [half(a), half(b), half(c), half(d)]
}

/// Nothing but matrices.
fn state(modelview: Mat4, projection: Mat4) -> VertexState
    ensures { IsVertexStateInRange result }
{
    let grey = four(1, 1, 1, 2);
    VertexState {
        modelview,
        projection,
        texture: [Mat4::identity(), Mat4::identity()],
        plane: None,
        lighting: false,
        color_material: false,
        normalize: false,
        rescale: false,
        scene: grey,
        material: Material {
            ambient: grey,
            diffuse: grey,
            specular: grey,
            emission: grey,
            shininess: Fx::ZERO,
        },
        lights: [None; 8],
        fog: None,
    }
}

// The modelview doubles x, halves y and moves by (1, 0, -1): (1, 2, -3, 1) becomes (3, 1, -4, 1). The projection takes
// z to -z - 2 w and w to -z: (3, 1, 2, 4). The plane's distance is -z + w / 2. The first unit's matrix doubles s, the
// second's adds q / 2 to t.
#[test]
fn a_vertex(rt: HostRuntime) {
    let modelview = matrix([4, 0, 0, 0], [0, 1, 0, 0], [0, 0, 2, 0], [2, 0, -2, 2]);
    let projection = matrix([2, 0, 0, 0], [0, 2, 0, 0], [0, 0, -2, -2], [0, 0, -4, 0]);
    let mut state = state(modelview, projection);
    state.texture = [
        matrix([4, 0, 0, 0], [0, 2, 0, 0], [0, 0, 2, 0], [0, 0, 0, 2]),
        matrix([2, 0, 0, 0], [0, 2, 0, 0], [0, 0, 2, 0], [0, 1, 0, 2]),
    ];
    let vertex = Attribs {
        pos: four(2, 4, -6, 2),
        normal: [Fx::ZERO; 3],
        color: four(1, -2, 4, 2),
        tex: [four(2, 4, 6, 8), four(2, 4, 6, 8)],
    };
    let made = run(&state, &vertex);
    assert_eq!(rt; made.clip, four(6, 2, 4, 8));
    assert_eq!(rt; made.plane, Fx::ZERO);
    assert_eq!(rt; made.front, four(1, 0, 2, 2));
    assert_eq!(rt; made.back, made.front);
    assert_eq!(rt; made.tex[0], [half(4), half(4), half(8)]);
    assert_eq!(rt; made.tex[1], [half(2), half(8), half(8)]);
    assert_eq!(rt; made.fog, Fx::ONE);
    state.plane = Some(four(0, 0, -2, 1));
    assert_eq!(rt; run(&state, &vertex).plane, half(9));
}

fn has_normal(
    rt: &impl Abort,
    modelview: &Mat4,
    rescale: bool,
    normalize: bool,
    normal: [i32; 3],
    want: [i32; 3],
) {
    let mut state = state(*modelview, Mat4::identity());
    state.rescale = rescale;
    state.normalize = normalize;
    let [x, y, z] = normal;
    let [a, b, c] = want;
    assert_eq!(rt;
        Stage::new(&state).eye_normal([half(x), half(y), half(z)]),
        [Fx(a), Fx(b), Fx(c)]
    );
}

// By 2, 1/2 and 4 along the axes a normal goes by 1/2, 2 and 1/4, and the third row of the inverse is 0 0 1/4. The shear that
// adds x to z has the inverse that takes it away: its third row is -1 0 1, of length 92681, and 2^32 / 92681 is 46341.4.
// 3 4 0 has length 5.
#[test]
fn normals(rt: HostRuntime) {
    let scales = matrix([4, 0, 0, 0], [0, 1, 0, 0], [0, 0, 8, 0], [2, 6, -4, 2]);
    let shear = matrix([2, 0, 2, 0], [0, 2, 0, 0], [0, 0, 2, 0], [0, 0, 0, 2]);
    let flat = matrix([2, 0, 0, 0], [0, 2, 0, 0], [0, 0, 0, 0], [0, 0, 0, 2]);
    let one = 65536;
    for (rescale, normalize, normal, want) in [
        (false, false, [2, 2, 2], [one / 2, 2 * one, one / 4]),
        (true, false, [2, 2, 2], [2 * one, 8 * one, one]),
        (false, true, [12, 4, 0], [39321, 52428, 0]),
        (true, true, [12, 4, 0], [39321, 52428, 0]),
        (true, true, [0, 0, 0], [0, 0, 0]),
    ] {
        has_normal(&rt, &scales, rescale, normalize, normal, want);
    }
    has_normal(&rt, &shear, false, false, [0, 0, 2], [-one, 0, one]);
    has_normal(&rt, &shear, true, false, [2, 0, 0], [46341, 0, 0]);
    has_normal(&rt, &flat, true, false, [2, 4, 6], [one, 2 * one, 3 * one]);
    has_normal(&rt, &flat, true, true, [6, 8, 0], [39321, 52428, 0]);
}

/// A vertex at the eye, at this place along z, grey, with this normal along z.
fn vertex(z: i32, normal: i32) -> Attribs {
    Attribs {
        pos: [Fx::ZERO, Fx::ZERO, Fx(z), Fx::ONE],
        normal: [Fx::ZERO, Fx::ZERO, Fx(normal)],
        color: four(1, 1, 1, 2),
        tex: [four(0, 0, 0, 2), four(0, 0, 0, 2)],
    }
}

// The light shines from 0 0 1, and the normal faces it at the front: 1/2 of its diffuse 1/2 there, nothing at the back. The
// material's ambient part is 1/2 of the light's 1/4, the scene's is 1/2 of 1/2, what it emits is 0: 3/8, and 5/8 at the front.
#[test]
fn both_sides(rt: HostRuntime) {
    let black = four(0, 0, 0, 0);
    let grey = four(1, 1, 1, 1);
    let sun = Light {
        ambient: [Fx(16384); 4],
        diffuse: grey,
        specular: black,
        position: four(0, 0, 2, 0),
        direction: [Fx::ZERO; 3],
        exponent: Fx::ZERO,
        cutoff: Fx(11796480),
        attenuation: [Fx::ONE, Fx::ZERO, Fx::ZERO],
    };
    let identity = Mat4::identity();
    let lit = VertexState {
        lighting: true,
        material: Material {
            ambient: grey,
            diffuse: grey,
            specular: black,
            emission: black,
            shininess: Fx::ZERO,
        },
        lights: [None, Some(sun), None, None, None, None, None, None],
        ..state(identity, identity)
    };
    let made = run(&lit, &vertex(0, 65536));
    assert_eq!(rt; made.front, [Fx(40960), Fx(40960), Fx(40960), Fx(32768)]);
    assert_eq!(rt; made.back, [Fx(24576), Fx(24576), Fx(24576), Fx(32768)]);
    let turned = run(&lit, &vertex(0, -65536));
    assert_eq!(rt; turned.front, made.back);
    assert_eq!(rt; turned.back, made.front);
}

/// The vertex at this place along z, under fog.
fn fogged(mode: FogMode, density: i32, start: i32, end: i32, z: i32) -> ClipVertex {
    let identity = Mat4::identity();
    let rule = FogRule {
        mode,
        density: Fx(density.max(0)),
        start: Fx(start),
        end: Fx(end),
    };
    let state = VertexState {
        fog: Some(rule),
        ..state(identity, identity)
    };
    run(&state, &vertex(z, 65536))
}

// LINEAR from 1 to 3: 1 up to there, 1/2 at 2 on either side of the eye, 0 from 3 on; where the ends are the same it is 1. The
// least z is as far as the greatest number. EXP: 24167 is e to the power of -1. EXP2: of density 2 at 1/2 it is the same, of
// density 1/2 at 2 too.
#[test]
fn fog_factors(rt: HostRuntime) {
    let one = 65536;
    for (mode, density, start, end, z, want) in [
        (FogMode::Linear, 0, one, 3 * one, 0, one),
        (FogMode::Linear, 0, one, 3 * one, -one, one),
        (FogMode::Linear, 0, one, 3 * one, -2 * one, one / 2),
        (FogMode::Linear, 0, one, 3 * one, 2 * one, one / 2),
        (FogMode::Linear, 0, one, 3 * one, -3 * one, 0),
        (FogMode::Linear, 0, one, 3 * one, -9 * one, 0),
        (FogMode::Linear, 0, 3 * one, one, -9 * one, one),
        (FogMode::Linear, 0, one, one, -9 * one, one),
        (FogMode::Linear, 0, 0, i32::MAX, i32::MIN, 0),
        (FogMode::Exp, one, 0, 0, 0, one),
        (FogMode::Exp, one, 0, 0, -one, 24167),
        (FogMode::Exp, one, 0, 0, one, 24167),
        (FogMode::Exp, one, 0, 0, i32::MIN, 0),
        (FogMode::Exp, 0, 0, 0, i32::MIN, one),
        (FogMode::Exp2, one, 0, 0, 0, one),
        (FogMode::Exp2, 2 * one, 0, 0, -one / 2, 24167),
        (FogMode::Exp2, one / 2, 0, 0, 2 * one, 24167),
        (FogMode::Exp2, one, 0, 0, i32::MAX, 0),
    ] {
        assert_eq!(rt; fogged(mode, density, start, end, z).fog, Fx(want));
    }
}
