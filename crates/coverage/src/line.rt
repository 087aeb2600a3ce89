//! The rows of a tile that a line covers.
ghost use Rattle.std.specs.Prelude.{◌≡◌, ◌≢◌, ℕ, pos, ◌+◌, ◌<◌, ◌≤◌, ◌^◌, slice_index, if◌then◌else◌, unsigned_abs};
ghost use Rattle.std.specs.Int.{bit_at};
ghost use Rattle.coverage.specs.Runs.{covers_of, place_of, IsAlongInRange};
ghost use Rattle.gl_records.specs.Center.{center as center_of};
ghost use Rattle.gl_records.specs.LineCoverage.{first_of_run as first_of, is_passed as passed, is_x_major as x_is_major, line_covers};
ghost use Rattle.gl_records.specs.Valid.{IsCornerInRange};

use crate::edges::{product, reach};
use crate::run_bits::run_bits;
use fx_arith::{floor_quotient, span};
use gl_records::{TileRect, VertexOut};

/// A line by its places along the axis that it is longer on, the major axis, and along the other.
#[derive(Clone, Copy)]
pub(crate) struct Along {
    pub(crate) start: i32,
    pub(crate) minor_start: i32,
    pub(crate) end: i32,
    pub(crate) minor_end: i32,
    pub(crate) width: u16,
}

/// The pixels of a tile that a line of this width from `a` to `b` covers: bit i of row r is for pixel
/// (x0 + i, y0 + r).
pub(crate) fn line_rows(a: &VertexOut, b: &VertexOut, width: u16, tile: TileRect) -> [u16; 16]
    requires start { IsCornerInRange a.now }
    requires end { IsCornerInRange b.now }
    requires width_from { 1 ≤ width }
    requires width_to { width ≤ 16 }
    ensures { (r i : ℕ) → r < 16 → i < 16
        → bit_at (slice_index result r) i
        ≡ (if line_covers a.now b.now width (pos (tile.x0 + i)) (pos (tile.y0 + r)) then 1 else 0) }
{
    if is_x_major(a, b) {
        let line = Along {
            start: a.x,
            minor_start: a.y,
            end: b.x,
            minor_end: b.y,
            width,
        };
        transposed(&runs(&line, tile.x0, tile.y0))
    } else {
        let line = Along {
            start: a.y,
            minor_start: a.x,
            end: b.y,
            minor_end: b.x,
            width,
        };
        runs(&line, tile.y0, tile.x0)
    }
}

/// Whether x is the major axis: along it the line is at least as long as along y.
pub(crate) fn is_x_major(a: &VertexOut, b: &VertexOut) -> bool
    ensures { result ≡ x_is_major a.now b.now }
{
    span(a.y, b.y).unsigned_abs() <= span(a.x, b.x).unsigned_abs()
}

/// The runs of 16 columns, or rows where y is the major axis: bit r of run k is for the pixel `along + k` of the
/// major and `across + r` of the minor axis.
fn runs(line: &Along, along: u16, across: u16) -> [u16; 16]
    requires { IsAlongInRange line.now }
    ensures { (k r : ℕ) → k < 16 → r < 16
        → bit_at (slice_index result k) r
        ≡ (if covers_of line.now (pos (along + k)) (pos (across + r)) then 1 else 0) }
{
    let mut bits = [0; 16];
    for k in 0..16 {
        bits[k] = run(line, i32::from(along) + k as i32, across);
    }
    bits
}

/// The run at pixel `along` of the major axis: bit r is for pixel `across + r` of the minor axis.
fn run(line: &Along, along: i32, across: u16) -> u16
    requires { IsAlongInRange line.now }
    ensures { (r : ℕ) → r < 16
        → bit_at result r ≡ (if covers_of line.now along (pos (across + r)) then 1 else 0) }
{
    if is_passed(line.start, line.end, along) {
        run_bits(
            first_of_run(minor_place(line, along), line.width),
            line.width,
            across,
        )
    } else {
        0
    }
}

/// Whether the centre of pixel `along` lies from the line's start, included, to its end, excluded.
fn is_passed(start: i32, end: i32, along: i32) -> bool
    ensures value { result ≡ passed start end (center_of along) }
{
    let from_start = reach(start, along);
    let from_end = reach(end, along);
    if start < end {
        0 <= from_start && from_end < 0
    } else {
        from_start <= 0 && 0 < from_end
    }
}

/// Where the line is on the minor axis, at the centre of pixel `along`.
fn minor_place(line: &Along, along: i32) -> i64
    requires in_range { IsAlongInRange line.now }
    requires some { line.now.start ≢ line.now.end }
    ensures value { result ≡ place_of line.now (center_of along) }
    ensures bound { unsigned_abs result ≤ 2 ^ 56 }
{
    let passed = product(
        span(line.minor_start, line.minor_end),
        reach(line.start, along),
    );
    i64::from(line.minor_start) + floor_quotient(passed, span(line.start, line.end))
}

/// The first pixel of a run of this width about a place on the minor axis.
fn first_of_run(place: i64, width: u16) -> i64
    requires place { unsigned_abs place ≤ 2 ^ 56 }
    requires width_from { 1 ≤ width }
    ensures value { result ≡ first_of place width }
    ensures bound { unsigned_abs result ≤ 2 ^ 57 }
{
    (place >> 4) - i64::from((width - 1) / 2)
}

/// Rows as columns: bit i of row r is bit r of row i before.
fn transposed(bits: &[u16; 16]) -> [u16; 16]
    ensures { (r i : ℕ) → r < 16 → i < 16 → bit_at (slice_index result r) i ≡ bit_at (slice_index bits.now i) r }
{
    let mut rows = [0; 16];
    for r in 0..16 {
        rows[r] = column(bits, r);
    }
    rows
}

/// Bit `r` of each row: bit i of the result is that of row i.
fn column(bits: &[u16; 16], r: usize) -> u16
    requires { r < 16 }
    ensures { (i : ℕ) → i < 16 → bit_at result i ≡ bit_at (slice_index bits.now i) r }
{
    let mut gathered = 0;
    for i in 0..16 {
        if bits[i] >> r & 1 == 1 {
            gathered |= 1 << i;
        }
    }
    gathered
}
