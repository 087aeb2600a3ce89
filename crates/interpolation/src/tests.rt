//! Values that are prepared for a tile beside the plain ones, on primitives from a fixed sequence of numbers.
ghost use Rattle.std.specs.Prelude.{◌≡◌, ℕ, ◌<◌, ◌≤◌, IsTrue, if◌then◌else◌};
ghost use Rattle.std.specs.Int.{bit_at};
ghost use Rattle.gl_records.specs.Coverage.{covers};
ghost use Rattle.gl_records.specs.Valid.{IsCornerInRange, IsInRange};
ghost use Rattle.interpolation.specs.Rows.{AreSpotsOf, IsSpotAt};
ghost use Rattle.interpolation.specs.TileValues.{IsSpotOf, x_of, y_of};

use crate::fog::fog_byte;
use crate::spot::Spot;
use crate::texture_coordinates::coordinates_at;
use crate::values::{Asked, PrimitiveValues, TileValues};
use coverage::rows;
use fx_arith::Fx;
use gl_records::{PixelBox, Prim, PrimKind, TileRect, VertexOut};
use std::process::Abort;
use std::test::Fail;

/// The number behind this one in the sequence.
fn behind(number: u64) -> u64 {
    number
        .wrapping_mul(6364136223846793005)
        .wrapping_add(1442695040888963407)
}

/// A corner by a number, with a q of so many bits.
fn corner(number: u64, bits: u32, third: i32) -> VertexOut
    ensures { IsCornerInRange result }
{
    let [a, b, c, d, e, f, g, h] = number.to_le_bytes();
    VertexOut {
        x: 4 * i32::from(a) - 256,
        y: 4 * i32::from(b) - 256,
        z: 0,
        q: (behind(number) >> bits.clamp(34, 63)).clamp(1, 2147483648) as u32,
        rgba: [c, d, e, f],
        tex: [
            [i32::from(g) * 1021 - 65536, i32::from(h) * 517, 65536],
            [i32::from(h) * -99991, i32::from(g) * 8388607, third],
        ],
        fog: i32::from(c) * 300 - 4000,
    }
}

fn triangle(a: VertexOut, b: VertexOut, c: VertexOut) -> Prim
    requires first { IsCornerInRange a }
    requires second { IsCornerInRange b }
    requires third { IsCornerInRange c }
    ensures { IsInRange result }
{
    Prim {
        kind: PrimKind::Triangle,
        verts: [a, b, c],
        width: 1,
        bounds: PixelBox {
            x0: 0,
            y0: 0,
            x1: 32,
            y1: 32,
        },
    }
}

/// Three primitives of a number: with q of up to so many bits, with the same q at all corners, and with values that all
/// corners have. Their third coordinates are 1, or not at one corner.
fn compare_number(rt: &impl Abort, number: u64, bits: u32) {
    let a = corner(number, bits, 65536);
    let b = corner(behind(number), bits, 65536);
    let c = corner(behind(behind(number)), bits, 131072);
    compare(rt, &triangle(a, b, c));
    compare(rt, &triangle(a, with_q(a.q, b), with_q(a.q, c)));
    compare(rt, &triangle(a, with_values(&a, b), with_values(&a, c)));
}

fn with_q(q: u32, v: VertexOut) -> VertexOut
    requires corner { IsCornerInRange v }
    requires from { 1 ≤ q }
    requires to { q ≤ 2147483648 }
    ensures { IsCornerInRange result }
{
    VertexOut { q, ..v }
}

/// The corner with another's blue, alpha, fog and s of the first unit.
fn with_values(of: &VertexOut, v: VertexOut) -> VertexOut
    requires { IsCornerInRange v }
    ensures { IsCornerInRange result }
{
    let [_, _, blue, alpha] = of.rgba;
    let [red, green, _, _] = v.rgba;
    let [[s, _, _], _] = of.tex;
    let [[_, t, third], second] = v.tex;
    VertexOut {
        rgba: [red, green, blue, alpha],
        fog: of.fog,
        tex: [[s, t, third], second],
        ..v
    }
}

fn compare(rt: &impl Abort, prim: &Prim)
    requires { IsInRange prim.now }
{
    compare_on(rt, prim, TileRect { x0: 0, y0: 0 });
    compare_on(rt, prim, TileRect { x0: 16, y0: 16 });
}

fn compare_on(rt: &impl Abort, prim: &Prim, rect: TileRect)
    requires in_range { IsInRange prim.now }
    requires column { rect.x0 ≤ 16 }
    requires band { rect.y0 ≤ 16 }
{
    let asked = Asked {
        fog: true,
        first: true,
        second: true,
    };
    let values = PrimitiveValues::new(prim, asked).on_tile(rect);
    let rows = rows(prim, rect);
    for r in 0..16u16 {
        compare_row(rt, &values, rows[usize::from(r)], r);
    }
}

fn compare_row(rt: &impl Abort, values: &TileValues<'_>, bits: u16, r: u16)
    requires row { r < 16 }
    requires bits { (i : ℕ) → i < 16 → bit_at bits i ≡ (if covers values.now.prim (x_of values.now i) (y_of values.now r) then 1 else 0) }
{
    for i in 0..16u16 {
        let spot = values.spot(i, r);
        compare_coordinates(rt, values, &spot);
        if bits >> i & 1 == 1 {
            compare_covered(rt, values, &spot);
        }
    }
    compare_rows(rt, values, bits, r);
}

/// The same of the whole row at once.
fn compare_rows(rt: &impl Abort, values: &TileValues<'_>, bits: u16, r: u16)
    requires row { r < 16 }
    requires bits { (i : ℕ) → i < 16 → bit_at bits i ≡ (if covers values.now.prim (x_of values.now i) (y_of values.now r) then 1 else 0) }
{
    let spot = Spot {
        column: 0,
        row: 0,
        by: None,
    };
    let mut spots = [spot; 17];
    values.spot_row(r, 0, 17, &mut spots);
    compare_coordinate_row(rt, values, 0, r, &spots);
    compare_coordinate_row(rt, values, 1, r, &spots);
    compare_color_row(rt, values, bits, r, &spots);
}

fn compare_coordinate_row(
    rt: &impl Abort,
    values: &TileValues<'_>,
    unit: usize,
    r: u16,
    spots: &[Spot; 17],
)
    requires unit { unit < 2 }
    requires row { r < 16 }
    requires spots { AreSpotsOf values.now r 0 17 spots.now }
{
    let mut s = [Fx(0); 17];
    let mut t = [Fx(0); 17];
    if values.coordinate_row(unit, spots, r, 0, 17, &mut s, &mut t) {
        for i in 0..17 {
            let plain = coordinates_at(values.prim(), unit, &values.shares(&spots[i]));
            assert_eq!(rt; s[i].0, plain.s.0);
            assert_eq!(rt; t[i].0, plain.t.0);
            assert_eq!(rt; true, plain.known);
        }
    }
}

fn compare_color_row(
    rt: &impl Abort,
    values: &TileValues<'_>,
    bits: u16,
    r: u16,
    spots: &[Spot; 17],
)
    requires row { r < 16 }
    requires bits { (i : ℕ) → i < 16 → bit_at bits i ≡ (if covers values.now.prim (x_of values.now i) (y_of values.now r) then 1 else 0) }
    requires spots { AreSpotsOf values.now r 0 17 spots.now }
{
    let mut colors = [[0; 4]; 16];
    if values.color_row(spots, bits, r, 0, 17, &mut colors) {
        for i in 0..16u16 {
            if bits >> i & 1 == 1 {
                let spot = &spots[usize::from(i)];
                compare_color(rt, values, colors[usize::from(i)], spot, i, r);
            }
        }
    }
}

fn compare_color(
    rt: &impl Abort,
    values: &TileValues<'_>,
    color: [u8; 4],
    spot: &Spot,
    _i: u16,
    _r: u16,
)
    requires spot { IsSpotAt values.now _i _r spot.now }
    requires covered { IsTrue (covers values.now.prim (x_of values.now _i) (y_of values.now _r)) }
{
    assert_eq!(rt; color, values.plain_color(spot));
}

fn compare_coordinates(rt: &impl Abort, values: &TileValues<'_>, spot: &Spot)
    requires { IsSpotOf values.now spot.now }
{
    for unit in 0..2 {
        let prepared = values.coordinates(unit, spot);
        let plain = coordinates_at(values.prim(), unit, &values.shares(spot));
        assert_eq!(rt; prepared.s.0, plain.s.0);
        assert_eq!(rt; prepared.t.0, plain.t.0);
        assert_eq!(rt; prepared.known, plain.known);
    }
}

fn compare_covered(rt: &impl Abort, values: &TileValues<'_>, spot: &Spot)
    requires spot { IsSpotOf values.now spot.now }
    requires covered { IsTrue (covers values.now.prim (x_of values.now spot.now.column) (y_of values.now spot.now.row)) }
{
    assert_eq!(rt; values.color(spot), values.plain_color(spot));
    assert_eq!(rt; values.fog_byte(spot), values.plain_fog_byte(spot));
}

#[test]
fn prepared_values_are_the_plain_ones(rt: HostRuntime) -> Result<(), Fail> {
    let mut number = 1;
    for bits in 34..64u32 {
        for _ in 0..4 {
            compare_number(&rt, number, bits);
            number = behind(number);
        }
    }
    Ok(())
}
