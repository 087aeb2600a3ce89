//! An item, and what it fixes for all of the pixels that it touches.
ghost use Rattle.std.specs.Prelude.{◌≡◌, ◌≤◌};
ghost use Rattle.gl_records.specs.Valid.{IsBoxOf, IsDrawable};
ghost use Rattle.whole_surface.specs.Items.{item_of};
ghost use Rattle.whole_surface.specs.Parts.{IsSpan, box_of, tile_step};
ghost use Rattle.whole_surface.specs.UnitImages.{item_with};

use crate::clear::Clearing;
use crate::drawing::Drawing;
use crate::images::Images;
use crate::primitive::draw_on_tile;
use gl_records::{GREATEST_SIDE, Item, PixelBox, Size, TileRect};
use surface_tiles::Tile;
use texture_env::Lines;

/// How an item's pixels are written, found out once.
#[derive(Drop)]
pub enum Paint<'a> {
    Draw(Drawing<'a>),
    Clear(Clearing<'a>),
}

impl<'a> Paint<'a> {
    /// The paint of an item with these images. `_size` is that of the surface.
    pub fn of(item: &'a Item, images: &'a Images<'a>, _size: Size) -> Paint<'a>
        requires { IsDrawable (item_with item.now images.now) _size }
        ensures { item_of result ≡ item_with item.now images.now }
    {
        match item {
            Item::Draw(prim, state) => Paint::Draw(Drawing::new(prim, state, images)),
            Item::Clear(clear) => Paint::Clear(Clearing::of(clear)),
        }
    }

    /// The box that holds all that the item touches. `_size` is that of the surface.
    pub fn area(&self, _size: Size) -> PixelBox
        requires { IsDrawable (item_of self.now) _size }
        ensures area { result ≡ box_of (item_of self.now) }
        ensures within { IsBoxOf _size result }
    {
        match self {
            Paint::Draw(drawing) => drawing.prim.bounds,
            Paint::Clear(clearing) => clearing.clear.area,
        }
    }

    /// Draws the item on the tile with this lower left pixel.
    pub fn draw_on(&self, rect: TileRect, lines: &mut Lines, tile: &mut Tile)
        requires column { rect.x0 ≤ GREATEST_SIDE }
        requires band { rect.y0 ≤ GREATEST_SIDE }
        ensures { IsSpan (tile_step (item_of self.now) rect) 0 256 tile.old tile.new }
    {
        match self {
            Paint::Draw(drawing) => draw_on_tile(drawing, rect, lines, tile),
            Paint::Clear(clearing) => clearing.clear_on_tile(rect, tile),
        }
    }
}
