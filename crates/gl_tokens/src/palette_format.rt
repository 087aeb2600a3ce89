ghost use Rattle.std.specs.Prelude.{◌≡◌, ◌↔◌, Some};
ghost use Rattle.gl_tokens.specs.PaletteFormat.{code_of, from_code_of};

use crate::codes::{read, written};

/// How an image with a palette is laid out: the bits of an index, and the format of a palette entry
/// (OES_compressed_paletted_texture).
#[derive(Clone, Copy, Debug, PartialEq, Eq)]
pub enum PaletteFormat {
    Palette4Rgb8,
    Palette4Rgba8,
    Palette4R5G6B5,
    Palette4Rgba4,
    Palette4Rgb5A1,
    Palette8Rgb8,
    Palette8Rgba8,
    Palette8R5G6B5,
    Palette8Rgba4,
    Palette8Rgb5A1,
}

macro_rules! table {
    ($with:ident, $value:ident) => {
        $with!($value;
            Palette4Rgb8 = 0x8B90,
            Palette4Rgba8 = 0x8B91,
            Palette4R5G6B5 = 0x8B92,
            Palette4Rgba4 = 0x8B93,
            Palette4Rgb5A1 = 0x8B94,
            Palette8Rgb8 = 0x8B95,
            Palette8Rgba8 = 0x8B96,
            Palette8R5G6B5 = 0x8B97,
            Palette8Rgba4 = 0x8B98,
            Palette8Rgb5A1 = 0x8B99,
        )
    };
}

impl PaletteFormat {
    /// The format with this code, 0x8B90 to 0x8B99.
    pub fn from_code(code: u32) -> Option<Self>
        ensures value { result ≡ from_code_of code }
        ensures exact { (format : PaletteFormat) → (result ≡ Some format) ↔ (code_of format ≡ code) }
    {
        table!(read, code)
    }

    /// The code of the format.
    pub fn code(self) -> u32
        ensures value { result ≡ code_of self }
        ensures back { from_code_of result ≡ Some self }
    {
        table!(written, self)
    }
}
