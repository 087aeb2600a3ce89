ghost use Rattle.std.specs.Prelude.{◌≡◌, ◌↔◌, Some};
ghost use Rattle.gl_tokens.specs.BaseFormat.{code_of, from_code_of};

use crate::codes::{read, written};

/// Which components the texels of an image have (OpenGL ES 1.1.12, 3.7.1).
#[derive(Clone, Copy, Debug, PartialEq, Eq)]
pub enum BaseFormat {
    Alpha,
    Rgb,
    Rgba,
    Luminance,
    LuminanceAlpha,
}

macro_rules! table {
    ($with:ident, $value:ident) => {
        $with!($value;
            Alpha = 0x1906,
            Rgb = 0x1907,
            Rgba = 0x1908,
            Luminance = 0x1909,
            LuminanceAlpha = 0x190A,
        )
    };
}

impl BaseFormat {
    /// The format with this code, 0x1906 to 0x190A.
    pub fn from_code(code: u32) -> Option<Self>
        ensures value { result ≡ from_code_of code }
        ensures exact { (format : BaseFormat) → (result ≡ Some format) ↔ (code_of format ≡ code) }
    {
        table!(read, code)
    }

    /// The code of the format.
    pub fn code(self) -> u32
        ensures value { result ≡ code_of self }
        ensures back { from_code_of result ≡ Some self }
    {
        table!(written, self)
    }
}
