ghost use Rattle.std.specs.Prelude.{◌≡◌, ◌<◌};
ghost use Rattle.gl_records.specs.Tiles.{tile_count, tile_rect_of};

use crate::size::Size;

/// The lower left pixel of a tile of 16 by 16 pixels. Tiles are numbered by rows from the lower left.
#[derive(Clone, Copy, Debug, PartialEq, Eq)]
pub struct TileRect {
    pub x0: u16,
    pub y0: u16,
}

/// The lower left pixel of a tile of a surface, by the tile's number.
pub fn tile_rect(size: Size, tile: u32) -> TileRect
    requires { tile < tile_count size }
    ensures value { result ≡ tile_rect_of size tile }
    ensures left_in_surface { result.x0 < size.w }
    ensures bottom_in_surface { result.y0 < size.h }
{
    let across = (u32::from(size.w) + 15) / 16;
    let x0 = (16 * (tile % across)) as u16;
    let y0 = (16 * (tile / across)) as u16;
    TileRect { x0, y0 }
}

#[cfg(test)]
mod tests {
    use super::*;

    #[test]
    fn tiles_go_by_rows_from_the_lower_left(rt: HostRuntime) {
        // two tiles in a row, three rows of tiles
        let size = Size { w: 17, h: 33 };
        assert_eq!(rt; tile_rect(size, 0), TileRect { x0: 0, y0: 0 });
        assert_eq!(rt; tile_rect(size, 1), TileRect { x0: 16, y0: 0 });
        assert_eq!(rt; tile_rect(size, 2), TileRect { x0: 0, y0: 16 });
        assert_eq!(rt; tile_rect(size, 5), TileRect { x0: 16, y0: 32 });
    }
}
