ghost use Rattle.std.specs.Prelude.{◌≡◌};
ghost use Rattle.gl_records.specs.PixelBox.{holds as box_holds};

/// The pixels (x, y) with `x0 <= x < x1` and `y0 <= y < y1`, counted from the lower left of the surface.
#[derive(Clone, Copy, Debug, PartialEq, Eq)]
pub struct PixelBox {
    pub x0: i32,
    pub y0: i32,
    pub x1: i32,
    pub y1: i32,
}

impl PixelBox {
    /// Whether the pixel in column `x` from the left and row `y` from the bottom is one of the box.
    pub fn holds(&self, x: u16, y: u16) -> bool
        ensures { result ≡ box_holds self.now x y }
    {
        let (x, y) = (i32::from(x), i32::from(y));
        self.x0 <= x && x < self.x1 && self.y0 <= y && y < self.y1
    }
}
