//! A Clear on one tile.
ghost use Rattle.std.specs.Prelude.{◌≡◌, ◌+◌, ◌*◌, ◌<◌, ◌≤◌, IfSome};
ghost use Rattle.gl_records.specs.Captured.{Clear};
ghost use Rattle.whole_surface.specs.Paints.{IsWipeOf};
ghost use Rattle.whole_surface.specs.Parts.{IsSpan, tile_step};

use crate::wipe::Wipe;
use fragment_ops::clear_step;
use gl_records::{ClearItem, GREATEST_SIDE, TileRect};
use std::marker::Model;
use surface_tiles::Tile;

/// A Clear, and what it makes of each pixel where its masks keep no bit.
#[derive(Drop)]
pub struct Clearing<'a> {
    pub clear: &'a ClearItem,
    pub wipe: Option<Wipe>,
}

impl<'a> Model for Clearing<'a> {
    ghost use Rattle.std.specs.Prelude.{IfSome};
    ghost use Rattle.gl_records.specs.declared.clear.ClearItem.{ClearItem};

    ghost Value = { ClearItem };

    ghost use Rattle.whole_surface.specs.Paints.{IsWipeOf};

    ghost view = { λ c. c.clear.now };

    ghost invariant = { λ c. IfSome c.wipe (IsWipeOf c.clear.now) };
}

impl<'a> Clearing<'a> {
    pub fn of(clear: &'a ClearItem) -> Clearing<'a>
        ensures { result ≡ clear.now }
    {
        Clearing {
            clear,
            wipe: Wipe::of(clear),
        }
    }

    /// Clears the pixels of the tile that the area holds.
    pub fn clear_on_tile(&self, rect: TileRect, tile: &mut Tile)
        requires column { rect.x0 ≤ GREATEST_SIDE }
        requires band { rect.y0 ≤ GREATEST_SIDE }
        ensures { IsSpan (tile_step (Clear self.now) rect) 0 256 tile.old tile.new }
    {
        clear_rows(self.clear, &self.wipe, rect, tile);
    }
}

fn clear_rows(clear: &ClearItem, wipe: &Option<Wipe>, rect: TileRect, tile: &mut Tile)
    requires wipe { IfSome wipe.now (IsWipeOf clear.now) }
    requires column { rect.x0 ≤ GREATEST_SIDE }
    requires band { rect.y0 ≤ GREATEST_SIDE }
    ensures { IsSpan (tile_step (Clear clear.now) rect) 0 256 tile.old tile.new }
{
    for r in 0..16u16 {
        clear_row(clear, wipe, rect, r, tile);
    }
}

/// Clears row `r` of the tile: at once where the area holds all of it and no mask keeps a bit.
fn clear_row(clear: &ClearItem, wipe: &Option<Wipe>, rect: TileRect, r: u16, tile: &mut Tile)
    requires wipe { IfSome wipe.now (IsWipeOf clear.now) }
    requires column { rect.x0 ≤ GREATEST_SIDE }
    requires band { rect.y0 ≤ GREATEST_SIDE }
    requires row { r < 16 }
    ensures { IsSpan (tile_step (Clear clear.now) rect) (16 * r) (16 * r + 16) tile.old tile.new }
{
    let y = rect.y0 + r;
    match wipe {
        Some(wipe) if clear.area.holds(rect.x0, y) && clear.area.holds(rect.x0 + 15, y) => {
            wipe.wipe_row(usize::from(r), tile)
        }
        _ => clear_pixels(clear, rect, r, tile),
    }
}

fn clear_pixels(clear: &ClearItem, rect: TileRect, r: u16, tile: &mut Tile)
    requires column { rect.x0 ≤ GREATEST_SIDE }
    requires band { rect.y0 ≤ GREATEST_SIDE }
    requires row { r < 16 }
    ensures { IsSpan (tile_step (Clear clear.now) rect) (16 * r) (16 * r + 16) tile.old tile.new }
{
    for i in 0..16u16 {
        clear_pixel(clear, rect, r, i, tile);
    }
}

fn clear_pixel(clear: &ClearItem, rect: TileRect, r: u16, i: u16, tile: &mut Tile)
    requires column { rect.x0 ≤ GREATEST_SIDE }
    requires band { rect.y0 ≤ GREATEST_SIDE }
    requires row { r < 16 }
    requires pixel { i < 16 }
    ensures { IsSpan (tile_step (Clear clear.now) rect) (16 * r + i) (16 * r + (i + 1)) tile.old tile.new }
{
    if clear.area.holds(rect.x0 + i, rect.y0 + r) {
        let place = usize::from(16 * r + i);
        tile.pixels[place] = clear_step(clear, tile.pixels[place]);
    }
}
