//! An item on the tiles that its box meets.
ghost use Rattle.std.specs.Prelude.{◌≡◌, pos, ◌+◌, ◌*◌, ◌<◌, ◌≤◌, ◌+ℤ◌, ◌<ℤ◌, ◌≤ℤ◌, length, [], ◌∷◌};
ghost use Rattle.gl_records.specs.Captured.{captured_by};
ghost use Rattle.gl_records.specs.Size.{IsSize};
ghost use Rattle.gl_records.specs.Surface.{drawn};
ghost use Rattle.gl_records.specs.Tiles.{tile_count, tiles_along as tiles_along_of};
ghost use Rattle.gl_records.specs.Valid.{IsDrawable};
ghost use Rattle.surface_tiles.specs.Tiled.{surface_of};
ghost use Rattle.whole_surface.specs.Items.{item_of};
ghost use Rattle.whole_surface.specs.Parts.{AreDrawn, HoldsColumns, HoldsRows, box_of};

use crate::images::Images;
use crate::paint::Paint;
use gl_records::{GREATEST_SIDE, Item, Size, TileRect};
use surface_tiles::Tile;
use texture_env::Lines;

/// Draws the item with these images on the tiles of a surface of this size.
pub fn draw_item(
    item: &Item,
    images: &Images<'_>,
    size: Size,
    lines: &mut Lines,
    tiles: &mut [Tile],
)
    requires sides { IsSize size }
    requires drawable { IsDrawable (captured_by item.now images.now.first images.now.second) size }
    requires count { length tiles.old ≡ tile_count size }
    ensures drawn { surface_of (record { size = size; tiles = tiles.new })
        ≡ drawn (captured_by item.now images.now.first images.now.second ∷ []) (surface_of (record { size = size; tiles = tiles.old })) }
    ensures count { length tiles.new ≡ tile_count size }
{
    let paint = Paint::of(item, images, size);
    let area = paint.area(size);
    let columns = tiles_of(area.x0, area.x1);
    let bands = tiles_of(area.y0, area.y1);
    draw_bands(&paint, size, columns, bands, lines, tiles);
}

/// Tiles that lie side by side, numbered along the surface.
#[derive(Clone, Copy)]
struct Span {
    first: u16,
    /// The tile after the last.
    end: u16,
}

/// The tiles that hold the pixels `from` to `to - 1`, and no others.
fn tiles_of(from: i32, to: i32) -> Span
    requires from_in { pos 0 ≤ℤ from }
    requires to_in { to ≤ℤ pos GREATEST_SIDE }
    requires some { from <ℤ to }
    ensures first { pos (16 * result.first) ≤ℤ from }
    ensures first_meets { from <ℤ pos (16 * result.first + 16) }
    ensures end { to ≤ℤ pos (16 * result.end) }
    ensures last_meets { pos (16 * result.end) <ℤ (to +ℤ pos 16) }
    ensures some { result.first < result.end }
    ensures few { result.end ≤ 64 }
{
    Span {
        first: (from / 16) as u16,
        end: ((to + 15) / 16) as u16,
    }
}

fn draw_bands(
    paint: &Paint<'_>,
    size: Size,
    columns: Span,
    bands: Span,
    lines: &mut Lines,
    tiles: &mut [Tile],
)
    requires sides { IsSize size }
    requires drawable { IsDrawable (item_of paint.now) size }
    requires count { length tiles.old ≡ tile_count size }
    requires columns { HoldsColumns (box_of (item_of paint.now)) columns.first columns.end }
    requires bands { HoldsRows (box_of (item_of paint.now)) bands.first bands.end }
    requires across { columns.end ≤ tiles_along_of size.w }
    requires up { bands.end ≤ tiles_along_of size.h }
    requires some_column { columns.first ≤ columns.end }
    requires some_band { bands.first ≤ bands.end }
    ensures { AreDrawn (item_of paint.now) size 0 (tile_count size) tiles.old tiles.new }
{
    for band in bands.first..bands.end {
        draw_band(paint, size, columns, band, lines, tiles);
    }
}

/// Draws the tiles of a band, which is numbered from the bottom.
fn draw_band(
    paint: &Paint<'_>,
    size: Size,
    columns: Span,
    band: u16,
    lines: &mut Lines,
    tiles: &mut [Tile],
)
    requires sides { IsSize size }
    requires drawable { IsDrawable (item_of paint.now) size }
    requires count { length tiles.old ≡ tile_count size }
    requires columns { HoldsColumns (box_of (item_of paint.now)) columns.first columns.end }
    requires across { columns.end ≤ tiles_along_of size.w }
    requires some_column { columns.first ≤ columns.end }
    requires band { band < tiles_along_of size.h }
    ensures { AreDrawn (item_of paint.now) size (band * tiles_along_of size.w) ((band + 1) * tiles_along_of size.w) tiles.old tiles.new }
{
    for column in columns.first..columns.end {
        draw_at(paint, size, column, band, lines, tiles);
    }
}

fn draw_at(
    paint: &Paint<'_>,
    size: Size,
    column: u16,
    band: u16,
    lines: &mut Lines,
    tiles: &mut [Tile],
)
    requires sides { IsSize size }
    requires count { length tiles.old ≡ tile_count size }
    requires column { column < tiles_along_of size.w }
    requires band { band < tiles_along_of size.h }
    ensures { AreDrawn (item_of paint.now) size (band * tiles_along_of size.w + column) (band * tiles_along_of size.w + (column + 1)) tiles.old tiles.new }
{
    let across = (usize::from(size.w) + 15) / 16;
    let number = usize::from(band) * across + usize::from(column);
    let rect = TileRect {
        x0: 16 * column,
        y0: 16 * band,
    };
    paint.draw_on(rect, lines, &mut tiles[number]);
}
