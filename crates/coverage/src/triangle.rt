//! The rows of a tile that a triangle covers.
ghost use Rattle.std.specs.Prelude.{◌≡◌, ℕ, ℤ, pos, ◌+◌, ◌+ℤ◌, ◌-ℤ◌, ◌*ℤ◌, ◌↔◌, ◌<◌, ◌≤◌, ◌<ℤ◌, ◌≤ℤ◌, ◌^◌, min, slice_index, unsigned_abs, IsTrue};
ghost use Rattle.std.specs.Int.{bit_at};
ghost use Rattle.coverage.specs.Steps.{margin as margin_of, row_bit};
ghost use Rattle.gl_records.specs.Coverage.{owns as owns_centers};
ghost use Rattle.gl_records.specs.Valid.{IsCornerInRange};

use crate::edges::edge;
use crate::run_bits::mask;
use fx_arith::span;
use gl_records::{TileRect, VertexOut};

/// An edge over the centres of a tile.
#[derive(Clone, Copy)]
pub(crate) struct EdgeSteps {
    /// The edge function at the lower left centre, less 1 where the edge does not own the centres on it: a
    /// centre is inside exactly where this, stepped to it, is not below 0.
    pub(crate) margin: i64,
    /// What a step of one pixel to the right adds.
    pub(crate) right: i64,
    /// What a step of one pixel up adds.
    pub(crate) up: i64,
    ghost margin_small: { unsigned_abs margin ≤ 2 ^ 57 },
    ghost right_small: { unsigned_abs right ≤ 2 ^ 37 },
    ghost up_small: { unsigned_abs up ≤ 2 ^ 37 },
}

pub(crate) fn steps(a: &VertexOut, b: &VertexOut, tile: TileRect) -> EdgeSteps
    requires start { IsCornerInRange a.now }
    requires end { IsCornerInRange b.now }
    ensures margin { result.margin ≡ margin_of a.now b.now (pos tile.x0) (pos tile.y0) }
    ensures right { result.right ≡ pos 16 *ℤ (a.now.y -ℤ b.now.y) }
    ensures up { result.up ≡ pos 16 *ℤ (b.now.x -ℤ a.now.x) }
{
    EdgeSteps {
        margin: margin(a, b, i32::from(tile.x0), i32::from(tile.y0)),
        right: step(b.y, a.y),
        up: step(a.x, b.x),
    }
}

/// The edge function at the centre of pixel (x, y), less 1 where the edge does not own the centres on it.
fn margin(a: &VertexOut, b: &VertexOut, x: i32, y: i32) -> i64
    requires start { IsCornerInRange a.now }
    requires end { IsCornerInRange b.now }
    ensures value { result ≡ margin_of a.now b.now x y }
    ensures small { unsigned_abs result ≤ 2 ^ 57 }
{
    let value = edge(a, b, x, y);
    if owns(span(a.x, b.x), span(a.y, b.y)) {
        value
    } else {
        value - 1
    }
}

/// What a step of one pixel adds, of 16 units, where a step of one unit adds `b - a`.
fn step(a: i32, b: i32) -> i64
    ensures value { result ≡ pos 16 *ℤ (b -ℤ a) }
    ensures small { unsigned_abs result ≤ 2 ^ 37 }
{
    16 * span(a, b)
}

/// Whether an edge in this direction owns the centres on it.
fn owns(dx: i64, dy: i64) -> bool
    ensures { result ≡ owns_centers dx dy }
{
    dy > 0 || dy == 0 && dx > 0
}

/// The bits of the centres that are inside of all three edges.
pub(crate) fn triangle_rows(a: EdgeSteps, b: EdgeSteps, c: EdgeSteps) -> [u16; 16]
    ensures { (r i : ℕ) → r < 16 → i < 16
        → bit_at (slice_index result r) i
        ≡ min
        (min
        (row_bit (a.margin +ℤ (pos r *ℤ a.up)) a.right i)
        (row_bit (b.margin +ℤ (pos r *ℤ b.up)) b.right i))
        (row_bit (c.margin +ℤ (pos r *ℤ c.up)) c.right i) }
{
    if is_outside(&a) || is_outside(&b) || is_outside(&c) {
        [0; 16]
    } else {
        stepped_rows(&a, &b, &c)
    }
}

/// Whether no centre of the tile is inside of the edge: none of the four outermost ones is.
fn is_outside(edge: &EdgeSteps) -> bool
    ensures { IsTrue result → (r i : ℕ) → r < 16 → i < 16
        → row_bit (edge.now.margin +ℤ (pos r *ℤ edge.now.up)) edge.now.right i ≡ 0 }
{
    let (bottom, top) = (edge.margin, edge.margin + 15 * edge.up);
    let right = 15 * edge.right;
    let greatest = bottom.max(bottom + right).max(top).max(top + right);
    greatest < 0
}

/// The same bits, one row after the other.
fn stepped_rows(a: &EdgeSteps, b: &EdgeSteps, c: &EdgeSteps) -> [u16; 16]
    ensures { (r i : ℕ) → r < 16 → i < 16
        → bit_at (slice_index result r) i
        ≡ min
        (min
        (row_bit (a.now.margin +ℤ (pos r *ℤ a.now.up)) a.now.right i)
        (row_bit (b.now.margin +ℤ (pos r *ℤ b.now.up)) b.now.right i))
        (row_bit (c.now.margin +ℤ (pos r *ℤ c.now.up)) c.now.right i) }
{
    let mut rows = [0; 16];
    for r in 0..16 {
        rows[r] = row_within(a, b, c, r);
    }
    rows
}

/// The bits of row `r` for all three edges. Where an edge shows none, the others are not asked.
fn row_within(a: &EdgeSteps, b: &EdgeSteps, c: &EdgeSteps, r: usize) -> u16
    requires { r < 16 }
    ensures { (i : ℕ) → i < 16
        → bit_at result i
        ≡ min
        (min
        (row_bit (a.now.margin +ℤ (pos r *ℤ a.now.up)) a.now.right i)
        (row_bit (b.now.margin +ℤ (pos r *ℤ b.now.up)) b.now.right i))
        (row_bit (c.now.margin +ℤ (pos r *ℤ c.now.up)) c.now.right i) }
{
    let first = row_at(a, r);
    if first == 0 {
        return 0;
    }
    let both = first & row_at(b, r);
    if both == 0 {
        return 0;
    }
    both & row_at(c, r)
}

/// The bits of row `r` of the tile for one edge.
fn row_at(edge: &EdgeSteps, r: usize) -> u16
    requires { r < 16 }
    ensures { (k : ℕ) → k < 16
        → bit_at result k ≡ row_bit (edge.now.margin +ℤ (pos r *ℤ edge.now.up)) edge.now.right k }
{
    edge_row(edge.margin + r as i64 * edge.up, edge.right)
}

/// The bits of a row of 16 centres: bit k is set where the value, which starts at `value` and grows by `step`
/// from centre to centre, is not below 0.
fn edge_row(value: i64, step: i64) -> u16
    requires value_small { unsigned_abs value ≤ 2 ^ 58 }
    requires step_small { unsigned_abs step ≤ 2 ^ 58 }
    ensures { (k : ℕ) → k < 16 → bit_at result k ≡ row_bit value step k }
{
    let last = value + 15 * step;
    if value >= 0 && last >= 0 {
        u16::MAX
    } else if value < 0 && last < 0 {
        0
    } else if value < 0 {
        mask(below_zero(value, step), 16)
    } else {
        mask(0, below_zero(-1 - value, -step))
    }
}

/// How many of the 16 centres of a row are below 0, where the first is and the last is not.
fn below_zero(value: i64, step: i64) -> u32
    requires value_small { unsigned_abs value ≤ 2 ^ 59 }
    requires step_small { unsigned_abs step ≤ 2 ^ 58 }
    requires first { value <ℤ pos 0 }
    requires last { pos 0 ≤ℤ (value +ℤ (pos 15 *ℤ step)) }
    ensures exact { (k : ℕ) → k < 16 → (k < result) ↔ ((value +ℤ (pos k *ℤ step)) <ℤ pos 0) }
    ensures few { result ≤ 16 }
{
    let far = halved(value, step, 0, 8);
    let far = halved(value, step, far, 4);
    let far = halved(value, step, far, 2);
    let far = halved(value, step, far, 1);
    far + 1
}

/// The farther of two centres, one `half` behind the other, that is still below 0.
fn halved(value: i64, step: i64, near: u32, half: u32) -> u32
    requires value_small { unsigned_abs value ≤ 2 ^ 59 }
    requires step_small { unsigned_abs step ≤ 2 ^ 58 }
    requires places { near + half ≤ 16 }
    requires near { (value +ℤ (pos near *ℤ step)) <ℤ pos 0 }
    requires end { pos 0 ≤ℤ (value +ℤ (pos (near + (half + half)) *ℤ step)) }
    ensures near { (value +ℤ (pos result *ℤ step)) <ℤ pos 0 }
    ensures end { pos 0 ≤ℤ (value +ℤ (pos (result + half) *ℤ step)) }
    ensures from { near ≤ result }
    ensures to { result ≤ near + half }
{
    let farther = near + half;
    if value + i64::from(farther) * step < 0 {
        farther
    } else {
        near
    }
}
