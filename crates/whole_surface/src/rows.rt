//! The pixels of a tile that a primitive shows, as rows of bits.
ghost use Rattle.std.specs.Prelude.{◌≡◌, ℕ, ◌+◌, ◌<◌, ◌≤◌, IsTrue, slice_index, if◌then◌else◌};
ghost use Rattle.std.specs.Int.{bit_at};
ghost use Rattle.gl_records.specs.PixelBox.{holds as box_holds};
ghost use Rattle.gl_records.specs.Valid.{IsInRange};
ghost use Rattle.whole_surface.specs.Parts.{in_columns, shown};

use crate::row_sets::with_bit;
use gl_records::{FragState, GREATEST_SIDE, PixelBox, Prim, TileRect};

/// Which pixels of a tile the primitive covers and the scissor test lets through: bit i of row r is for pixel
/// (x0 + i, y0 + r).
pub fn shown_rows(prim: &Prim, state: &FragState, rect: TileRect) -> [u16; 16]
    requires in_range { IsInRange prim.now }
    requires column { rect.x0 ≤ GREATEST_SIDE }
    requires band { rect.y0 ≤ GREATEST_SIDE }
    ensures { (r i : ℕ) → r < 16 → i < 16
        → bit_at (slice_index result r) i ≡ (if shown prim.now state.now (rect.x0 + i) (rect.y0 + r) then 1 else 0) }
{
    let rows = coverage::rows(prim, rect);
    match &state.scissor {
        Some(area) => scissored(&rows, area, rect),
        None => rows,
    }
}

/// The bits of the pixels that the box holds.
fn scissored(rows: &[u16; 16], area: &PixelBox, rect: TileRect) -> [u16; 16]
    requires column { rect.x0 ≤ GREATEST_SIDE }
    requires band { rect.y0 ≤ GREATEST_SIDE }
    ensures { (r i : ℕ) → r < 16 → i < 16
        → bit_at (slice_index result r) i
        ≡ (if box_holds area.now (rect.x0 + i) (rect.y0 + r) then bit_at (slice_index rows.now r) i else 0) }
{
    let columns = column_bits(area, rect.x0);
    let mut held = [0; 16];
    for r in 0..16 {
        held[r] = row_bits(rows[r], columns, area, rect.x0, rect.y0 + r as u16);
    }
    held
}

/// The bits of a row that the box holds. `columns` has a bit for each of the box's columns.
fn row_bits(bits: u16, columns: u16, area: &PixelBox, _x0: u16, y: u16) -> u16
    requires { (i : ℕ) → i < 16 → bit_at columns i ≡ (if in_columns area.now (_x0 + i) then 1 else 0) }
    ensures { (i : ℕ) → i < 16 → bit_at result i ≡ (if box_holds area.now (_x0 + i) y then bit_at bits i else 0) }
{
    if area.y0 <= i32::from(y) && i32::from(y) < area.y1 {
        bits & columns
    } else {
        0
    }
}

/// Which of the sixteen columns from `x0` on are the box's.
fn column_bits(area: &PixelBox, x0: u16) -> u16
    requires { x0 ≤ GREATEST_SIDE }
    ensures { (i : ℕ) → i < 16 → bit_at result i ≡ (if in_columns area.now (x0 + i) then 1 else 0) }
{
    let mut bits = 0;
    for i in 0..16u16 {
        bits = with_bit(bits, i, is_column(area, x0 + i));
    }
    bits
}

fn is_column(area: &PixelBox, x: u16) -> bool
    ensures { result ≡ in_columns area.now x }
{
    area.x0 <= i32::from(x) && i32::from(x) < area.x1
}

/// Whether no row has a bit.
pub fn is_blank(rows: &[u16; 16]) -> bool
    ensures { IsTrue result → (r : ℕ) → r < 16 → slice_index rows.now r ≡ 0 }
{
    for r in 0..16 {
        if rows[r] != 0 {
            return false;
        }
    }
    true
}
