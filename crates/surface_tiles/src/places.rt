//! Where the pixels of the surface are kept.
ghost use Rattle.std.specs.Prelude.{◌≡◌, ◌<◌, ◌≤◌, ◌/◌, ◌%◌, ◌+◌, ℕ};
ghost use Rattle.gl_records.specs.declared.size.Size.{Size};
ghost use Rattle.gl_records.specs.Size.{IsSize};
ghost use Rattle.gl_records.specs.Tiles.{tile_count, tile_rect_of, tiles_along as tiles_along_of};
ghost use Rattle.surface_tiles.specs.Tiled.{place_of, tile_of};

use gl_records::Size;

/// How many tiles hold so many pixels side by side.
pub fn tiles_along(pixels: u16) -> usize
    requires { pixels ≤ 1024 }
    ensures value { result ≡ tiles_along_of pixels }
    ensures few { result ≤ 64 }
{
    (usize::from(pixels) + 15) / 16
}

/// The number of the tile that holds pixel (x, y).
pub fn tile_number(size: Size, x: u16, y: u16) -> usize
    requires size { IsSize size }
    requires column { x < size.w }
    requires row { y < size.h }
    ensures value { result ≡ tile_of size x y }
    ensures within { result < tile_count size }
{
    usize::from(y / 16) * tiles_along(size.w) + usize::from(x / 16)
}

/// Where pixel (x, y) stands in its tile.
pub fn place(x: u16, y: u16) -> usize
    ensures value { result ≡ place_of x y }
    ensures within { result < 256 }
{
    usize::from(y % 16 * 16 + x % 16)
}

/// The law of places: pixel (x, y) of the surface is the one at its place in its tile, counted from the tile's lower
/// left pixel by `tile_rect`.
pub fn tile_places()
    ensures across { (size : Size) (x y : ℕ) → x < size.w → (tile_rect_of size (tile_of size x y)).x0 + place_of x y % 16 ≡ x }
    ensures up { (size : Size) (x y : ℕ) → x < size.w → (tile_rect_of size (tile_of size x y)).y0 + place_of x y / 16 ≡ y }
{}
