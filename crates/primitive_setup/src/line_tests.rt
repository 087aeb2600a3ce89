//! Worked lines and points. Their bounds come from a script outside of the program, which takes the formulas for
//! columns and rows in exact fractions.
ghost use Rattle.std.specs.Prelude.{◌≤ℤ◌, pos};
ghost use Rattle.gl_records.specs.ClipVertex.{w_of};

use crate::setup;
use crate::tests::{FRONT, SIZE, rules, vertex};
use fx_arith::Fx;
use gl_records::{ClipVertex, Prim, PrimKind};
use std::test::Fail;

/// The vertex that a viewport of 16 by 16 pixels puts at this place, in 1/16 pixel from its lower left corner.
fn vertex_at(place: (i32, i32)) -> ClipVertex
    ensures { pos 1 ≤ℤ w_of result }
{
    let clip = |at: i32| 512 * (at.clamp(0, 256) - 128);
    vertex([clip(place.0), clip(place.1), 0, 65536])
}

/// What is made of a line, or of a point, of this width in a viewport that starts at (start, start). Its rules cull
/// both sides, light both and offset depths, which lines and points do not go by.
fn made(
    kind: PrimKind,
    width: u16,
    start: i32,
    first: (i32, i32),
    second: (i32, i32),
) -> Option<Prim> {
    let mut rules = rules(
        start.clamp(-4096, 4096),
        false,
        Some([true, true]),
        Some([Fx::ONE, Fx::ONE]),
    );
    rules.line = width.clamp(1, 16);
    rules.point = width.clamp(1, 64);
    let (a, b) = (vertex_at(first), vertex_at(second));
    setup(&rules, kind, &[a, b, a], SIZE)
}

fn bounds(prim: Prim) -> [i32; 4] {
    let area = prim.bounds;
    [area.x0, area.y0, area.x1, area.y1]
}

#[test]
fn bounds_of_lines(rt: HostRuntime) {
    let table = [
        (1, 0, (40, 136), (104, 136), Some([1, 7, 8, 10])),
        (4, 0, (40, 136), (104, 136), Some([0, 4, 11, 13])),
        (4, 0, (104, 136), (40, 136), Some([0, 4, 11, 13])),
        (16, 0, (136, 40), (140, 104), Some([0, 0, 16, 16])),
        (1, 0, (41, 136), (42, 136), Some([1, 7, 4, 10])),
        (1, 0, (40, 136), (40, 136), None),
        (1, 16, (0, 0), (8, 0), Some([15, 15, 16, 16])),
        (1, 17, (0, 0), (8, 0), None),
        (2, 17, (0, 0), (8, 0), Some([15, 15, 16, 16])),
        (3, -16, (0, 0), (0, 16), None),
        (16, -32, (0, 256), (256, 256), Some([0, 0, 1, 1])),
        (1, -16, (256, 200), (0, 250), Some([0, 0, 2, 1])),
    ];
    for (width, start, first, second, expected) in table {
        let prim = made(PrimKind::Line, width, start, first, second);
        assert_eq!(rt; prim.map(bounds), expected);
    }
}

#[test]
fn bounds_of_points(rt: HostRuntime) {
    let table = [
        (1, 0, (136, 136), Some([8, 8, 9, 9])),
        (2, 0, (136, 136), Some([8, 8, 10, 10])),
        (63, 0, (136, 136), Some([0, 0, 16, 16])),
        (64, 0, (0, 256), Some([0, 0, 16, 16])),
        (1, 16, (0, 0), None),
        (2, 16, (0, 0), Some([15, 15, 16, 16])),
        (63, 16, (256, 256), Some([1, 1, 16, 16])),
        (64, 16, (256, 256), Some([0, 0, 16, 16])),
        (32, -16, (0, 0), None),
        (33, -16, (0, 0), Some([0, 0, 1, 1])),
        (63, -32, (256, 0), None),
        (64, -32, (0, 256), None),
    ];
    for (size, start, place, expected) in table {
        let prim = made(PrimKind::Point, size, start, place, (0, 0));
        assert_eq!(rt; prim.map(bounds), expected);
    }
}

#[test]
fn corners(rt: HostRuntime) -> Result<(), Fail> {
    let prim = made(PrimKind::Line, 3, 0, (40, 136), (104, 7)).ok_or("line")?;
    let [a, b, c] = prim.verts;
    assert_eq!(rt; (prim.kind, prim.width), (PrimKind::Line, 3));
    assert_eq!(rt;
        ((a.x, a.y), (b.x, b.y), (c.x, c.y)),
        ((40, 136), (104, 7), (104, 7))
    );
    assert_eq!(rt; (a.z, b.z), (8388607, 8388607), "no offset");
    let first = a.rgba;
    let second = b.rgba;
    assert_eq!(rt; first, FRONT);
    assert_eq!(rt; second, FRONT);
    let prim = made(PrimKind::Point, 40, 0, (40, 136), (104, 7)).ok_or("point")?;
    let [a, b, c] = prim.verts;
    assert_eq!(rt; (prim.kind, prim.width), (PrimKind::Point, 40));
    assert_eq!(rt;
        ((a.x, a.y), (b.x, b.y), (c.x, c.y)),
        ((40, 136), (40, 136), (40, 136))
    );
    let color = a.rgba;
    assert_eq!(rt; color, FRONT);
    assert_eq!(rt; a.z, 8388607);
    Ok(())
}
