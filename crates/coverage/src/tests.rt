ghost use Rattle.std.specs.Prelude.{◌≤ℤ◌, ◌<◌, pos, negsuc};
ghost use Rattle.gl_records.specs.Valid.{IsCornerInRange, IsInRange};

use super::*;
use gl_records::{PixelBox, Prim, PrimKind, TileRect, VertexOut};
use std::process::Abort;

pub(crate) const ORIGIN: TileRect = TileRect { x0: 0, y0: 0 };

pub(crate) fn corner(x: i32, y: i32, z: i32) -> VertexOut
    requires x_from { negsuc 65535 ≤ℤ x }
    requires x_to { x ≤ℤ pos 98304 }
    requires y_from { negsuc 65535 ≤ℤ y }
    requires y_to { y ≤ℤ pos 98304 }
    requires z_from { negsuc 33554431 ≤ℤ z }
    requires z_to { z ≤ℤ pos 50331647 }
    ensures { IsCornerInRange result }
{
    VertexOut {
        x,
        y,
        z,
        q: 1,
        rgba: [0; 4],
        tex: [[0; 3]; 2],
        fog: 0,
    }
}

fn triangle(a: VertexOut, b: VertexOut, c: VertexOut) -> Prim
    requires first { IsCornerInRange a }
    requires second { IsCornerInRange b }
    requires third { IsCornerInRange c }
    ensures { IsInRange result }
{
    Prim {
        kind: PrimKind::Triangle,
        verts: [a, b, c],
        width: 1,
        bounds: PixelBox {
            x0: 0,
            y0: 0,
            x1: 16,
            y1: 16,
        },
    }
}

/// A row of a table: the triangle covers these rows of the first tile.
fn covers(rt: &impl Abort, p: Prim, expected: [u16; 16])
    requires { IsInRange p }
{
    assert_eq!(rt; rows(&p, ORIGIN), expected);
}

#[test]
fn covered_rows(rt: HostRuntime) {
    let mut half = [0; 16];
    for r in 0..16 {
        half[r] = u16::MAX >> r;
    }
    let mut green = [0; 16];
    green[0] = 0b01;
    green[1] = 0b11;
    let mut red = [0; 16];
    red[0] = 0b10;
    // the diagonal from (0, 0) to (32, 32) goes through two centres, which the triangle above it owns
    covers(
        &rt,
        triangle(corner(0, 0, 0), corner(32, 32, 0), corner(0, 32, 0)),
        green,
    );
    covers(
        &rt,
        triangle(corner(0, 0, 0), corner(32, 0, 0), corner(32, 32, 0)),
        red,
    );
    // the hypotenuse goes through sixteen centres, which are this triangle's
    covers(
        &rt,
        triangle(corner(0, 0, 0), corner(256, 0, 0), corner(0, 256, 0)),
        half,
    );
    // a triangle that runs clockwise, one without area, one that is far away, one that is much larger
    covers(
        &rt,
        triangle(corner(0, 0, 0), corner(0, 256, 0), corner(256, 0, 0)),
        [0; 16],
    );
    covers(
        &rt,
        triangle(corner(0, 0, 0), corner(128, 128, 0), corner(256, 256, 0)),
        [0; 16],
    );
    covers(
        &rt,
        triangle(corner(-900, 0, 0), corner(-800, 0, 0), corner(-850, 99, 0)),
        [0; 16],
    );
    covers(
        &rt,
        triangle(
            corner(-65536, -65536, 0),
            corner(98304, -65536, 0),
            corner(-65536, 98304, 0),
        ),
        [u16::MAX; 16],
    );
}

#[test]
fn fan_covers_each_pixel_once(rt: HostRuntime) {
    let hub = corner(131, 123, 0);
    let (a, b) = (corner(0, 0, 0), corner(256, 0, 0));
    let (c, d) = (corner(256, 256, 0), corner(0, 256, 0));
    let first = rows(&triangle(hub, a, b), ORIGIN);
    let second = rows(&triangle(hub, b, c), ORIGIN);
    let third = rows(&triangle(hub, c, d), ORIGIN);
    let fourth = rows(&triangle(hub, d, a), ORIGIN);
    for r in 0..16 {
        let all = first[r] | second[r] | third[r] | fourth[r];
        let times = first[r].count_ones()
            + second[r].count_ones()
            + third[r].count_ones()
            + fourth[r].count_ones();
        assert_eq!(rt; all, u16::MAX);
        assert_eq!(rt; times, 16);
    }
}

#[test]
fn weights_of_corners(rt: HostRuntime) {
    let p = triangle(corner(0, 0, 0), corner(256, 0, 0), corner(0, 256, 0));
    assert_eq!(rt; weights(&p, 0, 0), [61440, 2048, 2048]);
    assert_eq!(rt; weights(&p, 15, 15), [-61440, 63488, 63488]);
    shared_edge();
}

/// The depth at a pixel of the first tile, where the primitive covers it.
pub(crate) fn depth_in_tile(p: &Prim, x: u8, y: u8) -> Option<u32>
    requires in_range { IsInRange p.now }
    requires column { x < 16 }
    requires row { y < 16 }
{
    let row = rows(p, ORIGIN)[usize::from(y)];
    if row >> x & 1 == 1 {
        Some(depth_at(p, i32::from(x), i32::from(y)))
    } else {
        None
    }
}

#[test]
fn depths(rt: HostRuntime) {
    // 16 for each 1/16 pixel to the right
    let p = triangle(corner(0, 0, 0), corner(256, 0, 4096), corner(0, 256, 0));
    assert_eq!(rt; depth_in_tile(&p, 0, 0), Some(128));
    assert_eq!(rt; depth_in_tile(&p, 3, 2), Some(896));
    assert_eq!(rt; depth_in_tile(&p, 15, 1), None);
    // rounded down, and clamped to the depths that there are
    let p = triangle(corner(0, 0, 0), corner(256, 0, 255), corner(0, 256, 0));
    assert_eq!(rt; depth_in_tile(&p, 0, 0), Some(7));
    let p = triangle(corner(0, 0, -9), corner(256, 0, 1), corner(0, 256, 1));
    assert_eq!(rt; depth_in_tile(&p, 0, 0), Some(0));
    let p = triangle(
        corner(0, 0, 16777216),
        corner(256, 0, 50331647),
        corner(0, 256, 16777216),
    );
    assert_eq!(rt; depth_in_tile(&p, 9, 3), Some(16777215));
}
