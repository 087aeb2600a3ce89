use super::*;
use std::process::Abort;

/// A draw of `n` vertices makes the first `amount` of these primitives.
fn makes(rt: &impl Abort, mode: Mode, n: u32, amount: u32, all: &[[u32; 3]]) {
    assert_eq!(rt; count(mode, n), amount);
    for k in 0..count(mode, n) {
        assert_eq!(rt; Some(&corners(mode, n, k)), all.get(k as usize));
    }
}

/// Draws of 0 to 7 vertices make so many of these primitives.
fn grows(rt: &impl Abort, mode: Mode, amounts: [u32; 8], all: &[[u32; 3]]) {
    for (n, amount) in amounts.iter().enumerate() {
        makes(rt, mode, n as u32, *amount, all);
    }
}

#[test]
fn points_lines_and_triangles(rt: HostRuntime) {
    grows(
        &rt,
        Mode::Points,
        [0, 1, 2, 3, 4, 5, 6, 7],
        &[
            [0, 0, 0],
            [1, 1, 1],
            [2, 2, 2],
            [3, 3, 3],
            [4, 4, 4],
            [5, 5, 5],
            [6, 6, 6],
        ],
    );
    grows(
        &rt,
        Mode::Lines,
        [0, 0, 1, 1, 2, 2, 3, 3],
        &[[0, 1, 1], [2, 3, 3], [4, 5, 5]],
    );
    grows(
        &rt,
        Mode::LineStrip,
        [0, 0, 1, 2, 3, 4, 5, 6],
        &[
            [0, 1, 1],
            [1, 2, 2],
            [2, 3, 3],
            [3, 4, 4],
            [4, 5, 5],
            [5, 6, 6],
        ],
    );
    grows(
        &rt,
        Mode::Triangles,
        [0, 0, 0, 1, 1, 1, 2, 2],
        &[[0, 1, 2], [3, 4, 5]],
    );
    grows(
        &rt,
        Mode::TriangleStrip,
        [0, 0, 0, 1, 2, 3, 4, 5],
        &[[0, 1, 2], [2, 1, 3], [2, 3, 4], [4, 3, 5], [4, 5, 6]],
    );
    grows(
        &rt,
        Mode::TriangleFan,
        [0, 0, 0, 1, 2, 3, 4, 5],
        &[[0, 1, 2], [0, 2, 3], [0, 3, 4], [0, 4, 5], [0, 5, 6]],
    );
}

#[test]
fn loops(rt: HostRuntime) {
    makes(&rt, Mode::LineLoop, 0, 0, &[]);
    makes(&rt, Mode::LineLoop, 1, 0, &[]);
    makes(&rt, Mode::LineLoop, 2, 2, &[[0, 1, 1], [1, 0, 0]]);
    makes(
        &rt,
        Mode::LineLoop,
        3,
        3,
        &[[0, 1, 1], [1, 2, 2], [2, 0, 0]],
    );
    makes(
        &rt,
        Mode::LineLoop,
        4,
        4,
        &[[0, 1, 1], [1, 2, 2], [2, 3, 3], [3, 0, 0]],
    );
    makes(
        &rt,
        Mode::LineLoop,
        5,
        5,
        &[[0, 1, 1], [1, 2, 2], [2, 3, 3], [3, 4, 4], [4, 0, 0]],
    );
    makes(
        &rt,
        Mode::LineLoop,
        6,
        6,
        &[
            [0, 1, 1],
            [1, 2, 2],
            [2, 3, 3],
            [3, 4, 4],
            [4, 5, 5],
            [5, 0, 0],
        ],
    );
    makes(
        &rt,
        Mode::LineLoop,
        7,
        7,
        &[
            [0, 1, 1],
            [1, 2, 2],
            [2, 3, 3],
            [3, 4, 4],
            [4, 5, 5],
            [5, 6, 6],
            [6, 0, 0],
        ],
    );
}
