//! The whole surface, on which each item is drawn at once.
ghost use Rattle.std.specs.Prelude.{◌≡◌, ◌*◌, ◌<◌, length, get_or, [], ◌∷◌, IfOk, option_copied};
ghost use Rattle.gl_records.specs.Captured.{captured_by};
ghost use Rattle.gl_records.specs.Size.{IsSize};
ghost use Rattle.gl_records.specs.Surface.{drawn, opening_surface, row_bytes, IsShaped};
ghost use Rattle.gl_records.specs.Valid.{IsDrawable};

use crate::images::Images;
use crate::items::draw_item;
use gl_records::{ImageSet, Item, Size};
use std::alloc::{AllocError, Global};
use std::marker::Model;
use surface_tiles::Surface as Tiles;
use texture_env::Lines;

/// The whole surface.
#[derive(Drop)]
pub struct Surface {
    tiles: Tiles,
    /// Room for the rows of a tile while it is drawn on.
    lines: Lines,
}

impl Model for Surface {
    ghost use Rattle.std.specs.Prelude.{◌≡◌, List, length};
    ghost use Rattle.gl_records.specs.declared.pixel.Pixel.{Pixel};
    ghost use Rattle.gl_records.specs.Size.{IsSize};
    ghost use Rattle.gl_records.specs.Tiles.{tile_count};
    ghost use Rattle.surface_tiles.specs.Tiled.{surface_of};

    ghost Value = { List (List Pixel) };

    ghost view = { λ surface. surface_of surface.tiles };

    ghost invariant = { λ surface. IsSize surface.tiles.size × (length surface.tiles.tiles ≡ tile_count surface.tiles.size) };
}

impl Surface {
    /// The surface before anything is drawn.
    pub fn new(alloc: Global, size: Size) -> Result<Surface, AllocError>
        requires { IsSize size }
        ensures value { IfOk result (λ surface. surface ≡ opening_surface size) }
        ensures shaped { IfOk result (λ surface. IsShaped size surface) }
    {
        let tiles = Tiles::new(alloc, size)?;
        Ok(Surface {
            tiles,
            lines: Lines::new(),
        })
    }

    /// Draws the item on each pixel, with these images of the two texture units. `size` is the surface's.
    pub fn draw(
        &mut self,
        size: Size,
        item: &Item,
        first: Option<&ImageSet>,
        second: Option<&ImageSet>,
    )
        requires shaped { IsShaped size self.old }
        requires drawable { IsDrawable (captured_by item.now (option_copied first) (option_copied second)) size }
        ensures drawn { self.new ≡ drawn (captured_by item.now (option_copied first.entry) (option_copied second.entry) ∷ []) self.old }
        ensures shaped { IsShaped size self.new }
    {
        let images = Images::new(first, second);
        draw_item(item, &images, size, &mut self.lines, self.tiles.tiles_mut());
    }

    /// The colours of row `y` from the bottom, R G B A for each pixel from the left. `_size` is the surface's.
    pub fn row(&self, _size: Size, y: u16, into: &mut [u8])
        requires shaped { IsShaped _size self.now }
        requires inside { y < _size.h }
        requires whole { length into.old ≡ 4 * _size.w }
        ensures { into.new ≡ row_bytes (get_or self.now y []) }
    {
        self.tiles.row(y, into);
    }
}
