//! The rows of a tile that a point covers.
ghost use Rattle.std.specs.Prelude.{◌≡◌, ℕ, pos, ◌+◌, ◌<◌, ◌≤◌, min, slice_index, if◌then◌else◌};
ghost use Rattle.std.specs.Int.{bit_at};
ghost use Rattle.gl_records.specs.PointCoverage.{point_covers};
ghost use Rattle.gl_records.specs.Valid.{IsCornerInRange};

use crate::run_bits::run_bits;
use gl_records::{TileRect, VertexOut, first_about};

/// The pixels of a tile that a point of this size at the place of `v` covers: bit i of row r is for pixel
/// (x0 + i, y0 + r).
pub(crate) fn point_rows(v: &VertexOut, size: u16, tile: TileRect) -> [u16; 16]
    requires corner { IsCornerInRange v.now }
    requires size_from { 1 ≤ size }
    requires size_to { size ≤ 64 }
    ensures { (r i : ℕ) → r < 16 → i < 16
        → bit_at (slice_index result r) i
        ≡ (if point_covers v.now size (pos (tile.x0 + i)) (pos (tile.y0 + r)) then 1 else 0) }
{
    let columns = run_bits(i64::from(first_about(v.x, size)), size, tile.x0);
    let rows = run_bits(i64::from(first_about(v.y, size)), size, tile.y0);
    repeated(columns, rows)
}

/// The columns in each of the rows.
fn repeated(columns: u16, rows: u16) -> [u16; 16]
    ensures { (r i : ℕ) → r < 16 → i < 16
        → bit_at (slice_index result r) i ≡ min (bit_at columns i) (bit_at rows r) }
{
    let mut bits = [0; 16];
    for r in 0..16 {
        bits[r] = row_of(columns, rows, r);
    }
    bits
}

/// The columns, where row `r` is one of the rows.
fn row_of(columns: u16, rows: u16, r: usize) -> u16
    requires { r < 16 }
    ensures { (i : ℕ) → i < 16 → bit_at result i ≡ min (bit_at columns i) (bit_at rows r) }
{
    if rows >> r & 1 == 1 { columns } else { 0 }
}
