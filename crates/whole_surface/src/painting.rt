//! The loops by which a brush goes through the pixels of a tile.
ghost use Rattle.std.specs.Prelude.{◌≡◌, ℕ, ◌+◌, ◌*◌, ◌<◌, ◌≤◌, IsTrue, true, false, slice_index, if◌then◌else◌};
ghost use Rattle.std.specs.Int.{bit_at};
ghost use Rattle.texture_env.specs.Lines.{AreLinesOf};
ghost use Rattle.texture_env.specs.Shaders.{primitive_on};
ghost use Rattle.whole_surface.specs.Asked.{ArePaints};
ghost use Rattle.whole_surface.specs.Parts.{IsSpan, pixel_in};
ghost use Rattle.whole_surface.specs.Subjects.{covered_on, drawn_with, shown_on, step_on};

use crate::asking::find_paints;
use crate::brush::Brush;
use crate::row_sets::{end_of, first_of, is_set};
use crate::source::Source;
use surface_tiles::Tile;
use texture_env::Lines;

/// Paints the pixels of the tile whose bits are set, with the colours of the source.
pub fn paint_rows<B: Brush, S: Source>(
    brush: &B,
    source: &S,
    rows: &[u16; 16],
    lines: &mut Lines,
    tile: &mut Tile,
)
    requires bits { (r i : ℕ) → r < 16 → i < 16
        → bit_at (slice_index rows.now r) i ≡ (if shown_on (B.on brush.now) i r then 1 else 0) }
    requires source { S.on source.now ≡ B.on brush.now }
    requires lines { AreLinesOf (primitive_on (B.on brush.now)) lines.old }
    ensures { IsSpan (step_on (B.on brush.now)) 0 256 tile.old tile.new }
{
    for r in 0..16u16 {
        paint_row(brush, source, rows[usize::from(r)], r, lines, tile);
    }
}

fn paint_row<B: Brush, S: Source>(
    brush: &B,
    source: &S,
    bits: u16,
    r: u16,
    lines: &mut Lines,
    tile: &mut Tile,
)
    requires row { r < 16 }
    requires bits { (i : ℕ) → i < 16 → bit_at bits i ≡ (if shown_on (B.on brush.now) i r then 1 else 0) }
    requires source { S.on source.now ≡ B.on brush.now }
    requires lines { AreLinesOf (primitive_on (B.on brush.now)) lines.old }
    ensures painted { IsSpan (step_on (B.on brush.now)) (16 * r) (16 * r + 16) tile.old tile.new }
    ensures lines { AreLinesOf (primitive_on (B.on brush.now)) lines.new }
{
    if bits == 0 {
        return;
    }
    let mut colors = [[0; 4]; 16];
    let painted = find_paints(brush, source, bits, r, tile, lines, &mut colors);
    paint_colors(brush, painted, &colors, r, tile);
}

/// Paints the pixels of the row whose bits are set with their colours.
fn paint_colors<B: Brush>(brush: &B, bits: u16, colors: &[[u8; 4]; 16], r: u16, tile: &mut Tile)
    requires row { r < 16 }
    requires paints { ArePaints (B.on brush.now) r tile.old bits colors.now }
    ensures { IsSpan (step_on (B.on brush.now)) (16 * r) (16 * r + 16) tile.old tile.new }
{
    if bits == 0 {
        return;
    }
    paint_run(brush, bits, colors, first_of(bits), end_of(bits), r, tile);
}

/// The pixels of the row from `first` up to but not including `end`.
fn paint_run<B: Brush>(
    brush: &B,
    bits: u16,
    colors: &[[u8; 4]; 16],
    first: u16,
    end: u16,
    r: u16,
    tile: &mut Tile,
)
    requires row { r < 16 }
    requires paints { ArePaints (B.on brush.now) r tile.old bits colors.now }
    requires first { first ≤ end }
    requires end { end ≤ 16 }
    ensures { IsSpan (step_on (B.on brush.now)) (16 * r + first) (16 * r + end) tile.old tile.new }
{
    for i in first..end {
        paint_pixel(brush, is_set(bits, i), colors[usize::from(i)], i, r, tile);
    }
}

fn paint_pixel<B: Brush>(brush: &B, set: bool, color: [u8; 4], i: u16, r: u16, tile: &mut Tile)
    requires column { i < 16 }
    requires row { r < 16 }
    requires covered { set ≡ true → IsTrue (covered_on (B.on brush.now) i r) }
    requires painted { set ≡ true
        → drawn_with (B.on brush.now) i r color (pixel_in tile.old (16 * r + i)) ≡ step_on (B.on brush.now) (16 * r + i) (pixel_in tile.old (16 * r + i)) }
    requires left { set ≡ false → pixel_in tile.old (16 * r + i) ≡ step_on (B.on brush.now) (16 * r + i) (pixel_in tile.old (16 * r + i)) }
    ensures { IsSpan (step_on (B.on brush.now)) (16 * r + i) (16 * r + (i + 1)) tile.old tile.new }
{
    if set {
        brush.paint(i, r, color, &mut tile.pixels[usize::from(16 * r + i)]);
    }
}
