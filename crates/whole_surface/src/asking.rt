//! The colours of a row of a tile, found where they are asked for.
ghost use Rattle.std.specs.Prelude.{◌≡◌, ◌≢◌, ℕ, ◌+◌, ◌*◌, ◌<◌, ◌≤◌, if◌then◌else◌};
ghost use Rattle.std.specs.Int.{bit_at};
ghost use Rattle.texture_env.specs.Lines.{AreLinesOf};
ghost use Rattle.texture_env.specs.Rows.{AreCovered, HaveColors};
ghost use Rattle.texture_env.specs.Shaders.{color_of, primitive_on};
ghost use Rattle.whole_surface.specs.Asked.{AreAsked, ArePaints, IsUnasked};
ghost use Rattle.whole_surface.specs.Parts.{pixel_in};
ghost use Rattle.whole_surface.specs.Subjects.{shown_on};

use crate::brush::Brush;
use crate::row_sets::{end_of, first_of, is_set, without_bit};
use crate::source::Source;
use surface_tiles::Tile;
use texture_env::Lines;

/// Finds the colours of those pixels of the row whose bits are set. Returned are the bits of the pixels that are to be
/// painted with them: the others stay as they are.
pub fn find_paints<B: Brush, S: Source>(
    brush: &B,
    source: &S,
    bits: u16,
    r: u16,
    tile: &Tile,
    lines: &mut Lines,
    colors: &mut [[u8; 4]; 16],
) -> u16
    requires row { r < 16 }
    requires some { 0 < bits }
    requires bits { (i : ℕ) → i < 16 → bit_at bits i ≡ (if shown_on (B.on brush.now) i r then 1 else 0) }
    requires source { S.on source.now ≡ B.on brush.now }
    requires lines { AreLinesOf (primitive_on (B.on brush.now)) lines.old }
    ensures paints { ArePaints (B.on brush.now) r tile.now result colors.new }
    ensures lines { AreLinesOf (primitive_on (B.on brush.now)) lines.new }
{
    let asked = asked_of(brush, source, bits, r, tile);
    find_colors(source, asked, r, lines, colors);
    if brush.keeps_unasked() { asked } else { bits }
}

/// The colours of the source, where there is one to be found.
fn find_colors<S: Source>(
    source: &S,
    asked: u16,
    r: u16,
    lines: &mut Lines,
    colors: &mut [[u8; 4]; 16],
)
    requires row { r < 16 }
    requires covered { AreCovered (S.on source.now) asked r }
    requires lines { AreLinesOf (primitive_on (S.on source.now)) lines.old }
    ensures colors { HaveColors asked (λ i. color_of (S.on source.now).subject ((S.on source.now).rect.x0 + i) ((S.on source.now).rect.y0 + r)) colors.new }
    ensures lines { AreLinesOf (primitive_on (S.on source.now)) lines.new }
{
    if asked != 0 {
        source.colors(asked, r, lines, colors);
    }
}

/// The bits of the pixels whose colours are asked for; all of them where that costs nothing.
fn asked_of<B: Brush, S: Source>(brush: &B, source: &S, bits: u16, r: u16, tile: &Tile) -> u16
    requires row { r < 16 }
    requires some { 0 < bits }
    requires covered { AreCovered (B.on brush.now) bits r }
    ensures { AreAsked (B.on brush.now) r B.keeps tile.now bits result }
{
    if !source.finds_each() || brush.asks_for_all() {
        return bits;
    }
    asked_in(brush, bits, first_of(bits), end_of(bits), r, tile)
}

/// The same, found pixel by pixel from `first` up to but not including `end`.
fn asked_in<B: Brush>(brush: &B, bits: u16, first: u16, end: u16, r: u16, tile: &Tile) -> u16
    requires row { r < 16 }
    requires end { end ≤ 16 }
    requires covered { AreCovered (B.on brush.now) bits r }
    ensures { AreAsked (B.on brush.now) r B.keeps tile.now bits result }
{
    let mut asked = bits;
    for i in first..end {
        asked = asked_after(brush, asked, i, r, tile);
    }
    asked
}

/// The bits without that of the pixel in this column where its colour isn't asked for.
fn asked_after<B: Brush>(brush: &B, asked: u16, i: u16, r: u16, tile: &Tile) -> u16
    requires column { i < 16 }
    requires row { r < 16 }
    requires covered { AreCovered (B.on brush.now) asked r }
    ensures others { (j : ℕ) → j < 16 → j ≢ i → bit_at result j ≡ bit_at asked j }
    ensures here { bit_at result i ≡ 1 → bit_at asked i ≡ 1 }
    ensures unasked { bit_at asked i ≡ 1 → bit_at result i ≡ 0 → IsUnasked (B.on brush.now) i r B.keeps (pixel_in tile.now (16 * r + i)) }
{
    if !is_set(asked, i) {
        return asked;
    }
    if brush.asks(i, r, &tile.pixels[usize::from(16 * r + i)]) {
        return asked;
    }
    without_bit(asked, i)
}
