use super::*;
use arrayvec::ArrayVec;
use fx_arith::Fx;
use gl_records::ClipVertex;
use std::process::Abort;

/// x y z w.
fn vertex(clip: [i32; 4]) -> ClipVertex {
    let [x, y, z, w] = clip;
    ClipVertex {
        clip: [Fx(x), Fx(y), Fx(z), Fx(w)],
        ..ClipVertex::default()
    }
}

fn at_distance(clip: [i32; 4], plane: i32) -> ClipVertex {
    ClipVertex {
        plane: Fx(plane),
        ..vertex(clip)
    }
}

/// The clip coordinates of these corners are those.
fn has(rt: &impl Abort, corners: &[ClipVertex], wanted: &[[i32; 4]]) {
    assert_eq!(rt; corners.len(), wanted.len());
    for (corner, clip) in corners.iter().zip(wanted) {
        assert_eq!(rt; corner.clip, vertex(*clip).clip);
    }
}

fn triangle(rt: &impl Abort, corners: [[i32; 4]; 3], wanted: &[[i32; 4]]) {
    let [a, b, c] = corners;
    let polygon = clip_triangle(&[vertex(a), vertex(b), vertex(c)], false);
    has(rt, &polygon, wanted);
}

fn line(rt: &impl Abort, a: [i32; 4], b: [i32; 4], wanted: &[[i32; 4]]) {
    match clip_line(&[vertex(a), vertex(b)], false) {
        Some(ends) => has(rt, &ends, wanted),
        None => assert!(rt; wanted.is_empty()),
    }
}

#[test]
fn points_at_the_planes(rt: HostRuntime) {
    let points = [
        ([0, 0, 0, 1], true),
        ([0, 0, 0, 0], false),
        ([5, 5, 5, 5], true),
        ([-5, -5, -5, 5], true),
        ([6, 0, 0, 5], false),
        ([-6, 0, 0, 5], false),
        ([0, 6, 0, 5], false),
        ([0, -6, 0, 5], false),
        ([0, 0, 6, 5], false),
        ([0, 0, -6, 5], false),
        ([i32::MIN, 0, 0, i32::MAX], false),
        ([i32::MAX, 0, 0, i32::MAX], true),
    ];
    for (clip, inside) in points {
        assert_eq!(rt; clip_point(&vertex(clip), false), inside);
        assert_eq!(rt; clip_point(&at_distance(clip, -1), false), inside);
        assert_eq!(rt; clip_point(&at_distance(clip, -1), true), false);
        assert_eq!(rt; clip_point(&vertex(clip), true), inside);
    }
}

#[test]
fn lines_across_planes(rt: HostRuntime) {
    line(
        &rt,
        [0, 0, 0, 4],
        [1, 2, 3, 4],
        &[[0, 0, 0, 4], [1, 2, 3, 4]],
    );
    line(
        &rt,
        [0, 0, 0, 4],
        [8, 0, 0, 4],
        &[[0, 0, 0, 4], [4, 0, 0, 4]],
    );
    line(
        &rt,
        [8, 0, 0, 4],
        [0, 0, 0, 4],
        &[[4, 0, 0, 4], [0, 0, 0, 4]],
    );
    line(
        &rt,
        [0, 0, 0, 4],
        [-7, -1, 1, 4],
        &[[0, 0, 0, 4], [-4, -1, 0, 4]],
    );
    line(
        &rt,
        [-8, 0, 0, 4],
        [8, 0, 0, 4],
        &[[-4, 0, 0, 4], [4, 0, 0, 4]],
    );
    line(
        &rt,
        [0, 0, 0, 8],
        [0, 0, 0, -6],
        &[[0, 0, 0, 8], [0, 0, 0, 1]],
    );
    line(&rt, [5, 0, 0, 4], [6, 0, 0, 4], &[]);
    line(&rt, [-10, 0, 0, 4], [0, -10, 0, 4], &[]);
}

#[test]
fn triangles_across_planes(rt: HostRuntime) {
    let inside = [[4, 0, 0, 4], [4, 3, 0, 4], [4, 0, 3, 4]];
    triangle(&rt, inside, &inside);
    triangle(&rt, [[5, 0, 0, 4], [5, 3, 0, 4], [6, 0, 3, 4]], &[]);
    triangle(
        &rt,
        [[0, 0, 0, 4], [9, 1, 0, 4], [0, 3, 0, 4]],
        &[[4, 2, 0, 4], [0, 3, 0, 4], [0, 0, 0, 4], [4, 0, 0, 4]],
    );
    triangle(
        &rt,
        [[0, 0, 0, 4], [9, -2, 0, 4], [7, 3, 0, 4]],
        &[[4, 1, 0, 4], [0, 0, 0, 4], [4, -1, 0, 4]],
    );
    triangle(
        &rt,
        [[-4, -4, 0, 4], [12, -4, 0, 4], [-4, 12, 0, 4]],
        &[
            [-4, 4, 0, 4],
            [-4, -4, 0, 4],
            [4, -4, 0, 4],
            [4, 4, 0, 4],
            [4, 4, 0, 4],
        ],
    );
    triangle(
        &rt,
        [[0, 0, 0, 8], [4, 0, 0, 8], [0, 0, 0, -6]],
        &[
            [1, 0, 0, 1],
            [0, 0, 0, 1],
            [0, 0, 0, 8],
            [4, 0, 0, 8],
            [2, 0, 0, 2],
        ],
    );
    triangle(
        &rt,
        [[0, 0, 0, 8], [4, 0, 0, -2], [0, 4, 0, -6]],
        &[
            [0, 1, 0, 1],
            [0, 0, 0, 8],
            [1, 0, 0, 1],
            [1, 1, 0, 1],
            [1, 1, 0, 1],
        ],
    );
    triangle(
        &rt,
        [[-40, 20, 20, 10], [20, -40, 20, 10], [20, 20, -40, 10]],
        &[
            [0, -10, 10, 10],
            [10, -10, 0, 10],
            [10, 0, -10, 10],
            [0, 10, -10, 10],
            [-10, 10, 0, 10],
            [-10, 0, 10, 10],
        ],
    );
}

/// Rounding can make a list go out of a plane twice: this one does at the fourth plane.
#[test]
fn two_ways_out(rt: HostRuntime) {
    triangle(
        &rt,
        [[2, -3, 0, 2], [-4, 1, 0, 0], [-1, -2, -1, 2]],
        &[[-1, -2, -1, 2]; 3],
    );
}

#[test]
fn the_user_plane(rt: HostRuntime) {
    let a = at_distance([0, 0, 0, 9], 6);
    let b = at_distance([8, 0, 0, 9], -2);
    let c = at_distance([0, 8, 0, 9], -6);
    has(
        &rt,
        &clip_triangle(&[a, b, c], true),
        &[[0, 4, 0, 9], [0, 0, 0, 9], [6, 0, 0, 9]],
    );
    assert_eq!(rt; clip_triangle(&[a, b, c], false).len(), 3);
    let nine: ArrayVec<ClipVertex, 11> = clip_triangle(
        &[
            at_distance([-25, -31, 35, 14], 12),
            at_distance([6, 22, -38, 8], 0),
            at_distance([51, 50, -6, 29], -6),
        ],
        true,
    );
    has(
        &rt,
        &nine,
        &[
            [23, 20, 8, 23],
            [23, 20, 8, 23],
            [2, -3, 18, 18],
            [-14, -14, 12, 12],
            [-14, -13, 10, 12],
            [-12, -8, 2, 11],
            [-7, 0, -10, 10],
            [6, 13, -14, 13],
            [6, 13, -14, 13],
        ],
    );
}

#[test]
fn each_component_of_a_crossing(rt: HostRuntime) {
    let inner = ClipVertex {
        clip: [Fx(0), Fx(1), Fx(2), Fx(4)],
        plane: Fx(3),
        front: [Fx(0), Fx(10), Fx(20), Fx(30)],
        back: [Fx(-1), Fx(-2), Fx(-3), Fx(-4)],
        tex: [[Fx(1), Fx(2), Fx(3)], [Fx(i32::MIN), Fx(0), Fx(i32::MAX)]],
        fog: Fx(65536),
    };
    let outer = ClipVertex {
        clip: [Fx(12), Fx(4), Fx(-4), Fx(4)],
        plane: Fx(-6),
        front: [Fx(1), Fx(8), Fx(29), Fx(-30)],
        back: [Fx(2), Fx(1), Fx(0), Fx(-5)],
        tex: [[Fx(4), Fx(1), Fx(3)], [Fx(i32::MAX), Fx(-1), Fx(i32::MIN)]],
        fog: Fx(0),
    };
    let crossing = ClipVertex {
        clip: [Fx(4), Fx(2), Fx(0), Fx(4)],
        plane: Fx(0),
        front: [Fx(0), Fx(9), Fx(23), Fx(10)],
        back: [Fx(0), Fx(-1), Fx(-2), Fx(-5)],
        tex: [
            [Fx(2), Fx(1), Fx(3)],
            [Fx(-715827883), Fx(-1), Fx(715827882)],
        ],
        fog: Fx(43690),
    };
    assert_eq!(rt; clip_line(&[inner, outer], true), Some([inner, crossing]));
}
