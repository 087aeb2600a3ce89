//! What writes the pixels of a tile.
ghost use Rattle.std.specs.Prelude.{◌≡◌, ◌<◌, Bool, IsTrue, false};
ghost use Rattle.texture_env.specs.Shaders.{OnTile};
ghost use Rattle.whole_surface.specs.Asked.{IsUnasked};
ghost use Rattle.whole_surface.specs.Subjects.{covered_on, drawn_with};

use gl_records::Pixel;

/// What a primitive makes of the pixels of a tile that it shows. Each way of testing fragments and writing colours is a
/// brush of its own, so that the loops choose none.
pub trait Brush {
    // the primitive on its tile
    ghost on: { Self → OnTile };

    // whether a pixel stays as it is where its fragment's colour isn't asked for
    ghost keeps: { Bool };

    /// Whether a pixel stays as it is where its fragment's colour isn't asked for.
    fn keeps_unasked(&self) -> bool
        ensures { result ≡ keeps };

    /// Whether all colours are asked for, whatever the pixels are.
    fn asks_for_all(&self) -> bool;

    /// Whether the colour of the fragment in this column and row is asked for: where it isn't, any will do.
    fn asks(&self, column: u16, row: u16, pixel: &Pixel) -> bool
        requires column { column < 16 }
        requires row { row < 16 }
        requires covered { IsTrue (covered_on (on self.now) column row) }
        ensures { result ≡ false → IsUnasked (on self.now) column row keeps pixel.now };

    /// Makes of the pixel in this column and row of the tile what it is after the primitive's fragment, which has this
    /// colour.
    fn paint(&self, column: u16, row: u16, color: [u8; 4], pixel: &mut Pixel)
        requires column { column < 16 }
        requires row { row < 16 }
        requires covered { IsTrue (covered_on (on self.now) column row) }
        ensures { pixel.new ≡ drawn_with (on self.now) column row color pixel.old };
}
