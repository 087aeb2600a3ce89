//! Tables of values and quotients. The quotients come from whole numbers without bound, outside of the program.
use super::*;
use fx_arith::floor_div;

const END: i64 = 1 << 61;

/// None beyond what a quotient takes.
fn quotient(z: i64, divisor: i64) -> Option<i64> {
    if 0 < divisor && divisor <= END && -END <= z && z <= END {
        Some(Reciprocal::new(divisor).floor_quotient(z))
    } else {
        None
    }
}

#[test]
fn quotients_at_the_ends(rt: HostRuntime) {
    let wide = (1 << 42) - 1;
    let table = [
        (END, 1, END),
        (-END, 1, -END),
        (END - 1, 2, (1 << 60) - 1),
        (-1, 2, -1),
        (-3, 2, -2),
        (END, 3, 768614336404564650),
        (-END, 3, -768614336404564651),
        (END, wide, 524288),
        (-END, wide, -524289),
        (wide, wide, 1),
        (wide - 1, wide, 0),
        (-wide, wide, -1),
        (-wide - 1, wide, -2),
        (END, END - 1, 1),
        (-END, END - 1, -2),
        (END - 1, END, 0),
        (-END, END, -1),
        (0, END, 0),
    ];
    for (z, divisor, want) in table {
        assert_eq!(rt; quotient(z, divisor), Some(want));
    }
}

fn plane(origin: i64, right: i64, up: i64) -> Option<Plane> {
    narrowed(i128::from(origin), i128::from(right), i128::from(up))
}

/// The value in the last column and row that a plane has, and whether it is above 0 everywhere, and constant.
fn seen(origin: i64, right: i64, up: i64) -> Option<(i64, bool, bool)> {
    let plane = plane(origin, right, up)?;
    Some((plane.at(16, 16), plane.is_positive(), plane.is_constant()))
}

#[test]
fn planes_at_corners(rt: HostRuntime) {
    let step = 1 << 57;
    let table = [
        ((5, 3, -1), Some((37, false, false))),
        ((17, 3, -1), Some((49, true, false))),
        ((17, -1, 0), Some((1, true, false))),
        ((16, -1, 0), Some((0, false, false))),
        ((7, 0, 0), Some((7, true, true))),
        ((END, 0, 0), Some((END, true, true))),
        ((END, 1, -1), None),
        ((END, 0, 1), None),
        ((0, step, step), None),
        ((-END, step, step), Some((END, false, false))),
        ((i64::MIN, 0, 0), None),
    ];
    for ((origin, right, up), want) in table {
        assert_eq!(rt; seen(origin, right, up), want);
    }
}

/// Whether each quotient of the tile is the plain one, where there is a plane of them.
fn agrees(origin: i64, right: i64, up: i64, divisor: u32) -> Option<bool> {
    if divisor == 0 {
        return None;
    }
    let plane = plane(origin, right, up)?;
    let fixed = fixed_quotient(&plane, i64::from(divisor))?;
    for j in 0..17 {
        for i in 0..17 {
            if fixed.at(i, j) != floor_div(plane.at(i, j), u64::from(divisor)) {
                return Some(false);
            }
        }
    }
    Some(true)
}

#[test]
fn fixed_quotients(rt: HostRuntime) {
    let table = [
        ((218396424, -109394415, 196949188, 69755596), Some(true)),
        ((-3, 1, 1, 3), Some(true)),
        ((-1, 0, 0, 1 << 31), Some(true)),
        ((1 << 53, -(1 << 48), 12345, (1 << 31) - 1), Some(true)),
        ((16777000, 1, -7, 1), Some(true)),
        ((0, 0, 0, (1 << 31) + 1), None),
        ((1 << 55, 0, 0, 1 << 31), None),
        ((1 << 25, 0, 0, 1), None),
    ];
    for ((origin, right, up, divisor), want) in table {
        assert_eq!(rt; agrees(origin, right, up, divisor), want);
    }
}
