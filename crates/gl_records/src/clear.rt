ghost use Rattle.std.specs.Prelude.{◌≡◌};
ghost use Rattle.gl_records.specs.Valid.{has_part as clear_has_part};

use crate::pixel_box::PixelBox;

/// A Clear that touches something (OpenGL ES 1.1.12, 4.2.3). The context makes it of the record, and the
/// rasteriser uses it up. A part that is absent leaves what it stands for as it was.
#[derive(Clone, Copy, Debug, PartialEq, Eq)]
pub struct ClearItem {
    /// The pixels that are cleared.
    pub area: PixelBox,
    /// The colour and the colour mask, both R G B A.
    pub color: Option<([u8; 4], [bool; 4])>,
    /// The depth, 0 to the greatest that there is.
    pub depth: Option<u32>,
    /// The stencil value, and the bits of it that are written.
    pub stencil: Option<(u8, u8)>,
}

impl ClearItem {
    /// Whether there is something to write.
    pub fn has_part(&self) -> bool
        ensures { result ≡ clear_has_part self.now }
    {
        self.color.is_some() || self.depth.is_some() || self.stencil.is_some()
    }
}
