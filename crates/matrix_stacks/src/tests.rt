use super::*;
use fx_arith::{Fx, Mat4};
use gl_tokens::{GlError, MatrixMode};
use std::process::Abort;

/// 1.
const F: i32 = 65536;

fn sides(l: i32, r: i32, b: i32, t: i32, n: i32, f: i32) -> [Fx; 6] {
    [Fx(l), Fx(r), Fx(b), Fx(t), Fx(n), Fx(f)]
}

fn matrix(x: [i32; 4], y: [i32; 4], z: [i32; 4], w: [i32; 4]) -> Mat4 {
    Mat4([
        Fx(x[0]),
        Fx(x[1]),
        Fx(x[2]),
        Fx(x[3]),
        Fx(y[0]),
        Fx(y[1]),
        Fx(y[2]),
        Fx(y[3]),
        Fx(z[0]),
        Fx(z[1]),
        Fx(z[2]),
        Fx(z[3]),
        Fx(w[0]),
        Fx(w[1]),
        Fx(w[2]),
        Fx(w[3]),
    ])
}

// A quarter turn about z takes x to y and y to -x. The axis 1 2 2 has length 3, so it is 21845 43690 43690; the
// cosine of 30 degrees is 56737, the sine 32767, and 1 less the cosine 8799. The products of two components are
// 7281, 14563 and 29126, and times 8799 they are 977, 1955 and 3910; the components times the sine are 10922,
// 21844 and 21844.
#[test]
fn rotations(rt: HostRuntime) {
    let mut stacks = Stacks::new();
    stacks.rotate(Fx(90 * F), [Fx(0), Fx(0), Fx(5 * F)]);
    assert_eq!(rt;
        *stacks.top(MatrixMode::Modelview, 0),
        matrix([0, F, 0, 0], [-F, 0, 0, 0], [0, 0, F, 0], [0, 0, 0, F])
    );
    stacks.load(&Mat4::identity());
    stacks.rotate(Fx(30 * F), [Fx(F), Fx(2 * F), Fx(2 * F)]);
    assert_eq!(rt;
        *stacks.top(MatrixMode::Modelview, 0),
        matrix(
            [977 + 56737, 1955 + 21844, 1955 - 21844, 0],
            [1955 - 21844, 3910 + 56737, 3910 + 10922, 0],
            [1955 + 21844, 3910 - 10922, 3910 + 56737, 0],
            [0, 0, 0, F]
        )
    );
}

// -(20 + 1.5) / 18.5 is -76163.5 units and -2 20 1.5 / 18.5 is -212549.2; 2 / 3, 5 / 3 and 8 / 3 are 43690.7,
// 109226.7 and 174762.7. Each is rounded down.
#[test]
fn projections(rt: HostRuntime) {
    let mut stacks = Stacks::new();
    stacks.set_mode(MatrixMode::Projection);
    assert_eq!(rt;
        stacks.frustum(sides(-F, F, -49152, 49152, 98304, 20 * F)),
        None
    );
    assert_eq!(rt;
        *stacks.top(MatrixMode::Projection, 0),
        matrix(
            [98304, 0, 0, 0],
            [0, 2 * F, 0, 0],
            [0, 0, -76164, -F],
            [0, 0, -212550, 0]
        )
    );
    stacks.load(&Mat4::identity());
    assert_eq!(rt; stacks.frustum(sides(0, 3 * F, -F, F, F, 4 * F)), None);
    assert_eq!(rt;
        *stacks.top(MatrixMode::Projection, 0),
        matrix(
            [43690, 0, 0, 0],
            [0, F, 0, 0],
            [F, 0, -109227, -F],
            [0, 0, -174763, 0]
        )
    );
    stacks.load(&Mat4::identity());
    assert_eq!(rt; stacks.ortho(sides(F, 4 * F, 0, 3 * F, F, 4 * F)), None);
    assert_eq!(rt;
        *stacks.top(MatrixMode::Projection, 0),
        matrix(
            [43690, 0, 0, 0],
            [0, 43690, 0, 0],
            [0, 0, -43691, 0],
            [-109227, -F, -109227, F]
        )
    );
}

// The scaling comes first to a vertex where it is given last.
#[test]
fn products_stand_on_the_right(rt: HostRuntime) {
    let mut stacks = Stacks::new();
    stacks.translate([Fx(0), Fx(0), Fx(-5 * F)]);
    stacks.scale([Fx(2 * F), Fx(F), Fx(-3 * F)]);
    let modelview = stacks.top(MatrixMode::Modelview, 1);
    assert_eq!(rt;
        transform(modelview, [Fx(F), Fx(F), Fx(F), Fx(F)]),
        [Fx(2 * F), Fx(F), Fx(-8 * F), Fx(F)]
    );
}

fn fill(rt: &impl Abort, stacks: &mut Stacks, limit: u8) {
    assert_eq!(rt; stacks.pop(), Some(GlError::StackUnderflow));
    for _ in 1..limit {
        assert_eq!(rt; stacks.push(), None);
    }
    assert_eq!(rt; stacks.push(), Some(GlError::StackOverflow));
    stacks.translate([Fx(i32::from(limit)), Fx(0), Fx(0)]);
}

// Each stack takes as many matrices as its limit says and no more, and a refused command leaves it in use.
#[test]
fn depths(rt: HostRuntime) {
    let mut stacks = Stacks::new();
    fill(&rt, &mut stacks, 16);
    stacks.set_mode(MatrixMode::Projection);
    fill(&rt, &mut stacks, 2);
    stacks.set_mode(MatrixMode::Texture);
    fill(&rt, &mut stacks, 2);
    assert_eq!(rt; stacks.depth(MatrixMode::Texture, 1), 1);
    stacks.set_unit(1);
    fill(&rt, &mut stacks, 2);
    assert_eq!(rt; stacks.pop(), None);
    assert_eq!(rt; *stacks.top(MatrixMode::Texture, 1), Mat4::identity());
    assert_eq!(rt; stacks.top(MatrixMode::Texture, 0).0[12], Fx(2));
    assert_eq!(rt; stacks.top(MatrixMode::Modelview, 0).0[12], Fx(16));
    assert_eq!(rt; stacks.depth(MatrixMode::Modelview, 0), 16);
    assert_eq!(rt; stacks.depth(MatrixMode::Projection, 0), 2);
}

#[test]
fn refused_projections(rt: HostRuntime) {
    let refused = Some(GlError::InvalidValue);
    let mut stacks = Stacks::new();
    stacks.set_mode(MatrixMode::Projection);
    stacks.translate([Fx(7), Fx(0), Fx(0)]);
    assert_eq!(rt; stacks.frustum(sides(-F, F, -F, F, 0, F)), refused);
    assert_eq!(rt; stacks.frustum(sides(-F, F, -F, F, F, -F)), refused);
    assert_eq!(rt; stacks.frustum(sides(F, F, -F, F, F, 2 * F)), refused);
    assert_eq!(rt; stacks.ortho(sides(-F, F, 0, 0, F, 2 * F)), refused);
    assert_eq!(rt; stacks.ortho(sides(-F, F, -F, F, F, F)), refused);
    stacks.translate([Fx(1), Fx(0), Fx(0)]);
    assert_eq!(rt; stacks.top(MatrixMode::Projection, 0).0[12], Fx(8));
    assert_eq!(rt; stacks.ortho(sides(-F, F, -F, F, 0, -2 * F)), None);
}

// By a scaling of 2, 4 and 1 the normal 1 1 1 becomes 0.5 0.25 1; a quarter turn about z takes x to y; where
// y is added to x, the plane x = 0 becomes x - y = 0. With the translation 0 0 -5 the plane z = 0 of the object is
// z = -5 in eye coordinates. Without an inverse the normal stays.
#[test]
fn normals_and_planes(rt: HostRuntime) {
    let x = [Fx(F), Fx(0), Fx(0)];
    let scaled = matrix(
        [2 * F, 0, 0, 0],
        [0, 4 * F, 0, 0],
        [0, 0, F, 0],
        [0, 0, -5 * F, F],
    );
    let turned = matrix([0, F, 0, 0], [-F, 0, 0, 0], [0, 0, F, 0], [0, 0, 0, F]);
    let sheared = matrix([F, 0, 0, 0], [F, F, 0, 0], [0, 0, F, 0], [0, 0, 0, F]);
    let flat = matrix(
        [2 * F, 0, 0, 0],
        [0, 4 * F, 0, 0],
        [0, 0, 0, 0],
        [0, 0, -5 * F, F],
    );
    assert_eq!(rt; determinant(&scaled), 8 << 48);
    assert_eq!(rt; cofactor(&scaled, 2, 2), 8 << 32);
    assert_eq!(rt; cofactor(&sheared, 1, 0), -1 << 32);
    assert_eq!(rt;
        normal_to_eye(&scaled, [Fx(F); 3]),
        [Fx(F / 2), Fx(F / 4), Fx(F)]
    );
    assert_eq!(rt; normal_to_eye(&turned, x), [Fx(0), Fx(F), Fx(0)]);
    assert_eq!(rt; normal_to_eye(&sheared, x), [Fx(F), Fx(-F), Fx(0)]);
    assert_eq!(rt;
        plane_to_eye(&scaled, [Fx(0), Fx(0), Fx(F), Fx(0)]),
        [Fx(0), Fx(0), Fx(F), Fx(5 * F)]
    );
    assert_eq!(rt;
        plane_to_eye(&flat, [Fx(F), Fx(0), Fx(F), Fx(F)]),
        [Fx(F), Fx(0), Fx(F), Fx(6 * F)]
    );
}

// What is prepared of a matrix keeps it: scaled by 2, 4 and 1 the normal 1 1 1 becomes 1/2 1/4 1, and the third row of the
// inverse, 0 0 1, has length 1; scaled by 2 throughout that is 0 0 1/2, and a normal doubles. A direction isn't moved.
#[test]
fn prepared_normals_and_directions(rt: HostRuntime) {
    let ones = [Fx(F); 3];
    let scaled = matrix(
        [2 * F, 0, 0, 0],
        [0, 4 * F, 0, 0],
        [0, 0, F, 0],
        [9 * F, 0, -5 * F, F],
    );
    let doubled = matrix(
        [2 * F, 0, 0, 0],
        [0, 2 * F, 0, 0],
        [0, 0, 2 * F, 0],
        [0, 0, 0, F],
    );
    let sheared = matrix([F, 0, 0, 0], [F, F, 0, 0], [0, 0, F, 0], [0, 0, 0, F]);
    let normals = NormalMatrix::new(&scaled);
    assert_eq!(rt; *normals.modelview(), scaled);
    assert_eq!(rt; normals.to_eye(ones), [Fx(F / 2), Fx(F / 4), Fx(F)]);
    assert_eq!(rt; normals.rescaled(ones), ones);
    assert_eq!(rt; NormalMatrix::new(&doubled).rescaled(ones), [Fx(2 * F); 3]);
    assert_eq!(rt; rescale_normal(&doubled, ones), [Fx(2 * F); 3]);
    assert_eq!(rt;
        direction_to_eye(&scaled, ones),
        [Fx(2 * F), Fx(4 * F), Fx(F)]
    );
    assert_eq!(rt; direction_to_eye(&sheared, ones), [Fx(2 * F), Fx(F), Fx(F)]);
}
