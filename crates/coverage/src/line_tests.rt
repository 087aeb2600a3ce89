//! Lines, points, their weights and depths. The covered pixels come from a script outside of the program, which
//! tests each pixel by the formulas for its column and its row in exact fractions.
ghost use Rattle.gl_records.specs.Valid.{IsCornerInRange, IsInRange};

use super::*;
use crate::tests::{ORIGIN, corner, depth_in_tile};
use gl_records::{PixelBox, Prim, PrimKind, VertexOut};

fn at(place: (i32, i32), z: i32) -> VertexOut
    ensures { IsCornerInRange result }
{
    corner(
        place.0.clamp(-65536, 98304),
        place.1.clamp(-65536, 98304),
        z.clamp(0, 16777215),
    )
}

fn line(start: VertexOut, end: VertexOut, width: u16) -> Prim
    requires start { IsCornerInRange start }
    requires end { IsCornerInRange end }
    ensures { IsInRange result }
{
    Prim {
        kind: PrimKind::Line,
        verts: [start, end, end],
        width: width.clamp(1, 16),
        bounds: PixelBox {
            x0: 0,
            y0: 0,
            x1: 16,
            y1: 16,
        },
    }
}

fn point(v: VertexOut, size: u16) -> Prim
    requires { IsCornerInRange v }
    ensures { IsInRange result }
{
    Prim {
        kind: PrimKind::Point,
        verts: [v, v, v],
        width: size.clamp(1, 64),
        bounds: PixelBox {
            x0: 0,
            y0: 0,
            x1: 16,
            y1: 16,
        },
    }
}

/// The rows of the first tile, of which these six, from row `first` on, may not be blank.
fn six_rows(first: usize, six: [u16; 6]) -> [u16; 16] {
    let mut rows = [0; 16];
    for k in 0..6 {
        if first < 10 {
            rows[first + k] = six[k];
        }
    }
    rows
}

/// The rows of the first tile, of which `count` have these bits, from row `first` on, and the others are blank.
fn equal_rows(first: usize, count: usize, bits: u16) -> [u16; 16] {
    let mut rows = [0; 16];
    for r in 0..16 {
        if first <= r && r - first < count {
            rows[r] = bits;
        }
    }
    rows
}

#[test]
fn eight_directions(rt: HostRuntime) {
    // from the centre of pixel (8, 8), which is covered; where neither axis is the longer one, it is x
    let table = [
        ((232, 176), 1, 8, [0x0300, 0x0c00, 0x3000, 0, 0, 0]),
        (
            (176, 232),
            1,
            8,
            [0x0100, 0x0100, 0x0200, 0x0200, 0x0400, 0x0400],
        ),
        (
            (96, 232),
            1,
            8,
            [0x0100, 0x0100, 0x0080, 0x0080, 0x0040, 0x0040],
        ),
        ((40, 176), 1, 8, [0x0180, 0x0060, 0x0018, 0, 0, 0]),
        ((40, 96), 1, 6, [0x0018, 0x0060, 0x0180, 0, 0, 0]),
        (
            (96, 40),
            1,
            3,
            [0x0040, 0x0040, 0x0080, 0x0080, 0x0100, 0x0100],
        ),
        (
            (176, 40),
            1,
            3,
            [0x0400, 0x0400, 0x0200, 0x0200, 0x0100, 0x0100],
        ),
        ((232, 96), 1, 6, [0x3000, 0x0c00, 0x0300, 0, 0, 0]),
        ((184, 184), 2, 8, [0x0100, 0x0300, 0x0600, 0x0400, 0, 0]),
        ((88, 184), 2, 8, [0x0100, 0x0180, 0x00c0, 0x0040, 0, 0]),
        ((88, 88), 2, 6, [0x0040, 0x00c0, 0x0180, 0x0100, 0, 0]),
        ((184, 88), 2, 6, [0x0400, 0x0600, 0x0300, 0x0100, 0, 0]),
    ];
    for (end, width, first, six) in table {
        let p = line(at((136, 136), 0), at(end, 0), width);
        assert_eq!(rt; rows(&p, ORIGIN), six_rows(first, six));
    }
}

#[test]
fn between_centers_and_over_the_tile(rt: HostRuntime) {
    let p = line(at((3, 5), 0), at((250, 100), 0), 1);
    let expected = [
        0x0003, 0x001c, 0x0060, 0x0380, 0x0c00, 0x7000, 0x8000, 0, 0, 0, 0, 0, 0, 0, 0, 0,
    ];
    assert_eq!(rt; rows(&p, ORIGIN), expected);
    let p = line(at((20, 250), 0), at((90, -30), 0), 3);
    let expected = [
        0x0070, 0x0038, 0x0038, 0x0038, 0x0038, 0x001c, 0x001c, 0x001c, 0x001c, 0x000e, 0x000e,
        0x000e, 0x000e, 0x0007, 0x0007, 0x0007,
    ];
    assert_eq!(rt; rows(&p, ORIGIN), expected);
    let p = line(at((-65536, -65536), 0), at((98304, 98303), 0), 2);
    let expected = [
        0x0001, 0x0003, 0x0006, 0x000c, 0x0018, 0x0030, 0x0060, 0x00c0, 0x0180, 0x0300, 0x0600,
        0x0c00, 0x1800, 0x3000, 0x6000, 0xc000,
    ];
    assert_eq!(rt; rows(&p, ORIGIN), expected);
}

#[test]
fn widths(rt: HostRuntime) {
    // of even widths one pixel more lies above, or to the right
    let table = [
        (1, 8, 1, 0x0100),
        (2, 8, 2, 0x0300),
        (3, 7, 3, 0x0380),
        (4, 7, 4, 0x0780),
        (16, 1, 15, 0xfffe),
    ];
    for (width, first, count, across) in table {
        let p = line(at((40, 136), 0), at((104, 136), 0), width);
        assert_eq!(rt; rows(&p, ORIGIN), equal_rows(first, count, 0x003c));
        let p = line(at((136, 40), 0), at((136, 104), 0), width);
        assert_eq!(rt; rows(&p, ORIGIN), equal_rows(2, 4, across));
    }
}

#[test]
fn ends(rt: HostRuntime) {
    // a centre at the start is drawn and one at the end isn't; the last two have none between, and no length
    let table = [
        ((40, 136), (104, 136), 8, 1, 0x003c),
        ((104, 136), (40, 136), 8, 1, 0x0078),
        ((41, 136), (105, 136), 8, 1, 0x0078),
        ((136, 40), (136, 104), 2, 4, 0x0100),
        ((136, 104), (136, 40), 3, 4, 0x0100),
        ((41, 136), (50, 136), 0, 0, 0x0000),
        ((40, 136), (40, 136), 0, 0, 0x0000),
    ];
    for (start, end, first, count, bits) in table {
        let p = line(at(start, 0), at(end, 0), 1);
        assert_eq!(rt; rows(&p, ORIGIN), equal_rows(first, count, bits));
    }
}

#[test]
fn points(rt: HostRuntime) {
    let table = [
        ((136, 136), 1, 8, 1, 0x0100),
        ((136, 136), 2, 8, 2, 0x0300),
        ((136, 136), 63, 0, 16, 0xffff),
        ((136, 136), 64, 0, 16, 0xffff),
        ((0, 0), 1, 0, 1, 0x0001),
        ((0, 0), 2, 0, 1, 0x0001),
        ((255, 255), 2, 15, 1, 0x8000),
        ((-1, 8), 1, 0, 0, 0x0000),
        ((256, 8), 1, 0, 0, 0x0000),
        ((256, 8), 2, 0, 2, 0x8000),
        ((-500, 8), 63, 0, 0, 0x0000),
        ((-500, 8), 64, 0, 16, 0x0001),
        ((8, 752), 63, 0, 0, 0x0000),
        ((8, 752), 64, 15, 1, 0xffff),
    ];
    for (place, size, first, count, bits) in table {
        let p = point(at(place, 0), size);
        assert_eq!(rt; rows(&p, ORIGIN), equal_rows(first, count, bits));
    }
}

#[test]
fn weights_and_depths(rt: HostRuntime) {
    // along the axis that is longer, from each end: 160 units for 1600 of depth
    let (left, right) = ((40, 136), (200, 136));
    let (below, above) = ((136, 40), (140, 200));
    let table = [
        (left, right, (2, 8), [160, 0, 0], Some(0)),
        (left, right, (6, 8), [96, 64, 0], Some(640)),
        (left, right, (12, 8), [0, 160, 0], None),
        (left, right, (15, 8), [-48, 208, 0], None),
        (right, left, (6, 8), [64, 96, 0], Some(960)),
        (right, left, (2, 8), [0, 160, 0], None),
        (below, above, (8, 2), [160, 0, 0], Some(0)),
        (below, above, (8, 11), [16, 144, 0], Some(1440)),
        (left, left, (2, 8), [0, 0, 0], None),
    ];
    for (start, end, (x, y), expected, depth) in table {
        let p = line(at(start, 0), at(end, 1600), 1);
        assert_eq!(rt; weights(&p, x, y), expected);
        let (x, y) = (x.clamp(0, 15) as u8, y.clamp(0, 15) as u8);
        assert_eq!(rt; depth_in_tile(&p, x, y), depth);
    }
    let p = point(at((136, 136), 7), 1);
    assert_eq!(rt; weights(&p, 8, 8), [1, 0, 0]);
    assert_eq!(rt; depth_in_tile(&p, 8, 8), Some(7));
    assert_eq!(rt; depth_in_tile(&p, 9, 8), None);
}
