//! Depths that are prepared for a tile beside the plain ones, on primitives from a fixed sequence of numbers.
ghost use Rattle.std.specs.Prelude.{◌≡◌, ℕ, ◌<◌, ◌≤◌, IsTrue, if◌then◌else◌};
ghost use Rattle.std.specs.Int.{bit_at};
ghost use Rattle.gl_records.specs.Coverage.{covers};
ghost use Rattle.gl_records.specs.Valid.{IsCornerInRange, IsInRange};
ghost use Rattle.interpolation.specs.TileValues.{x_of, y_of};

use crate::depths::TileDepths;
use coverage::rows;
use gl_records::{PixelBox, Prim, PrimKind, TileRect, VertexOut};
use std::process::Abort;
use std::test::Fail;

const BOUNDS: PixelBox = PixelBox {
    x0: 0,
    y0: 0,
    x1: 32,
    y1: 32,
};

/// The number behind this one in the sequence.
fn behind(number: u64) -> u64 {
    number
        .wrapping_mul(6364136223846793005)
        .wrapping_add(1442695040888963407)
}

/// A corner by a number. Some lie below the least depth, some beyond the greatest.
fn corner(number: u64) -> VertexOut
    ensures { IsCornerInRange result }
{
    let [a, b, c, d, ..] = number.to_le_bytes();
    VertexOut {
        x: 4 * i32::from(a) - 256,
        y: 4 * i32::from(b) - 256,
        z: 250000 * i32::from(c) + 997 * i32::from(d) - 20000000,
        q: 1,
        rgba: [0; 4],
        tex: [[0; 3]; 2],
        fog: 0,
    }
}

fn triangle(a: VertexOut, b: VertexOut, c: VertexOut) -> Prim
    requires first { IsCornerInRange a }
    requires second { IsCornerInRange b }
    requires third { IsCornerInRange c }
    ensures { IsInRange result }
{
    Prim {
        kind: PrimKind::Triangle,
        verts: [a, b, c],
        width: 1,
        bounds: BOUNDS,
    }
}

fn line(a: VertexOut, b: VertexOut, c: VertexOut) -> Prim
    requires first { IsCornerInRange a }
    requires second { IsCornerInRange b }
    requires third { IsCornerInRange c }
    ensures { IsInRange result }
{
    Prim {
        kind: PrimKind::Line,
        verts: [a, b, c],
        width: 5,
        bounds: BOUNDS,
    }
}

fn point(a: VertexOut, b: VertexOut, c: VertexOut) -> Prim
    requires first { IsCornerInRange a }
    requires second { IsCornerInRange b }
    requires third { IsCornerInRange c }
    ensures { IsInRange result }
{
    Prim {
        kind: PrimKind::Point,
        verts: [a, b, c],
        width: 20,
        bounds: BOUNDS,
    }
}

/// A primitive of each kind, and a triangle whose corners have one depth.
fn compare_number(rt: &impl Abort, number: u64) {
    let a = corner(number);
    let b = corner(behind(number));
    let c = corner(behind(behind(number)));
    compare(rt, &triangle(a, b, c));
    compare(rt, &line(a, b, c));
    compare(rt, &point(a, b, c));
    let z = a.z;
    compare(rt, &triangle(a, VertexOut { z, ..b }, VertexOut { z, ..c }));
}

fn compare(rt: &impl Abort, prim: &Prim)
    requires { IsInRange prim.now }
{
    compare_on(rt, prim, TileRect { x0: 0, y0: 0 });
    compare_on(rt, prim, TileRect { x0: 16, y0: 16 });
}

fn compare_on(rt: &impl Abort, prim: &Prim, rect: TileRect)
    requires in_range { IsInRange prim.now }
    requires column { rect.x0 ≤ 16 }
    requires band { rect.y0 ≤ 16 }
{
    let depths = TileDepths::new(prim, rect);
    let rows = rows(prim, rect);
    for r in 0..16u16 {
        compare_row(rt, &depths, rows[usize::from(r)], r);
    }
}

fn compare_row(rt: &impl Abort, depths: &TileDepths<'_>, bits: u16, r: u16)
    requires row { r < 16 }
    requires bits { (i : ℕ) → i < 16 → bit_at bits i ≡ (if covers depths.now.prim (x_of depths.now i) (y_of depths.now r) then 1 else 0) }
{
    for i in 0..16u16 {
        if bits >> i & 1 == 1 {
            compare_pixel(rt, depths, i, r);
        }
    }
}

fn compare_pixel(rt: &impl Abort, depths: &TileDepths<'_>, column: u16, row: u16)
    requires column { column < 16 }
    requires row { row < 16 }
    requires covered { IsTrue (covers depths.now.prim (x_of depths.now column) (y_of depths.now row)) }
{
    assert_eq!(rt; depths.depth(column, row), depths.plain_depth(column, row));
}

#[test]
fn prepared_depths_are_the_plain_ones(rt: HostRuntime) {
    let mut number = 5u64;
    for _ in 0..200 {
        number = behind(number);
        compare_number(&rt, number);
    }
}
