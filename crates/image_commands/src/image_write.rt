use gl_tokens::{BaseFormat, PaletteFormat, TexelType};
use image_levels::TexelBox;

/// What a command asks of an image, once it has no error but for memory.
#[derive(Clone, Copy, Debug)]
pub enum ImageWrite {
    /// Level `level` is given anew; where a side is 0 it is emptied.
    Level {
        level: u8,
        format: BaseFormat,
        kind: TexelType,
        w: u16,
        h: u16,
    },
    /// The texels of an area of level `level` are replaced.
    Area {
        level: u8,
        area: TexelBox,
        format: BaseFormat,
        kind: TexelType,
    },
    /// Levels 0 to `levels - 1` are given anew, by a palette; level 0 is `w` by `h`.
    Palette {
        format: PaletteFormat,
        w: u16,
        h: u16,
        levels: u8,
    },
}
