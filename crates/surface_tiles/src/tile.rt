ghost use Rattle.std.specs.Prelude.{◌≡◌};
ghost use Rattle.surface_tiles.specs.Tiled.{opening_tile};

use gl_records::Pixel;

/// A tile of the surface. Its place is its number in the list of tiles, by `tile_rect`.
#[derive(Clone, Copy)]
pub struct Tile {
    /// The pixels by rows from the bottom, each row from the left.
    pub pixels: [Pixel; 256],
    /// How many colours were computed for the tile.
    pub shaded: u32,
}

impl Tile {
    /// A tile before anything is drawn.
    pub fn opening() -> Tile
        ensures { result ≡ opening_tile }
    {
        Tile {
            pixels: [Pixel::OPENING; 256],
            shaded: 0,
        }
    }
}
