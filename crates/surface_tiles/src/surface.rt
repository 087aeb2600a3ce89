//! The surface, as its tiles.
ghost use Rattle.std.specs.Prelude.{◌≡◌, ◌<◌, ◌≤◌, ◌+◌, ◌*◌, ◌++◌, length, take, IfOk};
ghost use Rattle.std.specs.Borrow.{Lends, sem, Array};
ghost use Rattle.gl_records.specs.Size.{IsSize};
ghost use Rattle.gl_records.specs.Surface.{pixel_at, row_bytes};
ghost use Rattle.gl_records.specs.Tiles.{tile_count};
ghost use Rattle.surface_tiles.specs.contracts.surface.Surface.{the_row};
ghost use Rattle.surface_tiles.specs.contracts.tile.Tile.{the_row as tile_row};
ghost use Rattle.surface_tiles.specs.Tiled.{kept_pixel, opening_tiles, pixel_of, row_of, surface_of, with_tiles};

use crate::places::{place, tile_number, tiles_along};
use crate::tile::Tile;
use gl_records::{Pixel, Size};
use std::alloc::{AllocError, Global};
use std::marker::Model;

/// A surface of pixels, kept in tiles.
#[derive(Drop)]
pub struct Surface {
    size: Size,
    tiles: Vec<Tile>,
}

impl Model for Surface {
    ghost use Rattle.std.specs.Prelude.{◌≡◌, vec_len};
    ghost use Rattle.gl_records.specs.Size.{IsSize};
    ghost use Rattle.gl_records.specs.Tiles.{tile_count};
    ghost use Rattle.surface_tiles.specs.Tiled.{Tiled};

    ghost Value = { Tiled };

    ghost view = { λ surface. record { size = surface.size; tiles = surface.tiles.items } };

    ghost invariant = { λ surface. IsSize surface.size × (vec_len surface.tiles ≡ tile_count surface.size) };
}

impl Surface {
    /// A surface before anything is drawn.
    pub fn new(alloc: Global, size: Size) -> Result<Surface, AllocError>
        requires { IsSize size }
        ensures value { IfOk result (λ surface. surface ≡ opening_tiles size) }
    {
        let count = tiles_along(size.w) * tiles_along(size.h);
        let mut tiles = Vec::with_capacity(alloc, count)?;
        for _ in 0..count {
            tiles.push(Tile::opening())?;
        }
        Ok(Surface { size, tiles })
    }

    /// The sides of the surface.
    pub fn size(&self) -> Size
        ensures { result ≡ self.now.size }
    {
        self.size
    }

    /// The tiles, each at its number.
    pub fn tiles_mut(&mut self) -> &mut [Tile]
        ensures* lends { sem 𝓛 (Lends the_row (Array tile_row 0) self.entry result (with_tiles self.entry.now)) }
        ensures value { result.now ≡ self.old.tiles }
        ensures count { length result.now ≡ tile_count self.old.size }
    {
        self.tiles.as_mut_slice()
    }

    /// The pixel in column `x` from the left and row `y` from the bottom, None exactly outside of the surface.
    pub fn pixel(&self, x: i32, y: i32) -> Option<Pixel>
        ensures { result ≡ pixel_of self.now x y }
    {
        if x < 0 || y < 0 {
            return None;
        }
        self.pixel_inside(x.unsigned_abs(), y.unsigned_abs())
    }

    /// The colours of row `y` from the bottom, R G B A for each pixel from the left.
    pub fn row(&self, y: u16, into: &mut [u8])
        requires inside { y < self.now.size.h }
        requires whole { length into.old ≡ 4 * self.now.size.w }
        ensures { into.new ≡ row_bytes (row_of self.now y) }
    {
        for x in 0..self.size.w {
            put_color(into, 4 * usize::from(x), self.kept(x, y).rgba);
        }
    }

    fn pixel_inside(&self, x: u32, y: u32) -> Option<Pixel>
        ensures { result ≡ pixel_at (surface_of self.now) x y }
    {
        if x < u32::from(self.size.w) && y < u32::from(self.size.h) {
            Some(self.kept(x as u16, y as u16))
        } else {
            None
        }
    }

    /// Pixel (x, y), which lies on the surface.
    fn kept(&self, x: u16, y: u16) -> Pixel
        requires column { x < self.now.size.w }
        requires row { y < self.now.size.h }
        ensures { result ≡ kept_pixel self.now x y }
    {
        self.tiles[tile_number(self.size, x, y)].pixels[place(x, y)]
    }
}

/// Writes the four bytes of a colour.
fn put_color(into: &mut [u8], at: usize, color: [u8; 4])
    requires { at + 4 ≤ length into.old }
    ensures front { take (at + 4) into.new ≡ take at into.old ++ color }
    ensures len { length into.new ≡ length into.old }
{
    into[at..at + 4].copy_from_slice(&color);
}
