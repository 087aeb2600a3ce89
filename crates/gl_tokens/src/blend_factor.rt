ghost use Rattle.std.specs.Prelude.{◌≡◌, ◌↔◌, Some};
ghost use Rattle.gl_tokens.specs.BlendFactor.{code_of, from_code_of};

use crate::codes::{read, written};

/// What a colour is multiplied by where it is blended (OpenGL ES 1.1.12, 4.1). Not each factor is
/// one for the source and for the destination.
#[derive(Clone, Copy, Debug, PartialEq, Eq)]
pub enum BlendFactor {
    Zero,
    One,
    SourceColor,
    OneMinusSourceColor,
    SourceAlpha,
    OneMinusSourceAlpha,
    DestinationAlpha,
    OneMinusDestinationAlpha,
    DestinationColor,
    OneMinusDestinationColor,
    SourceAlphaSaturate,
}

macro_rules! table {
    ($with:ident, $value:ident) => {
        $with!($value;
            Zero = 0x0000,
            One = 0x0001,
            SourceColor = 0x0300,
            OneMinusSourceColor = 0x0301,
            SourceAlpha = 0x0302,
            OneMinusSourceAlpha = 0x0303,
            DestinationAlpha = 0x0304,
            OneMinusDestinationAlpha = 0x0305,
            DestinationColor = 0x0306,
            OneMinusDestinationColor = 0x0307,
            SourceAlphaSaturate = 0x0308,
        )
    };
}

impl BlendFactor {
    /// The factor with this code: 0, 1 or 0x0300 to 0x0308.
    pub fn from_code(code: u32) -> Option<Self>
        ensures value { result ≡ from_code_of code }
        ensures exact { (factor : BlendFactor) → (result ≡ Some factor) ↔ (code_of factor ≡ code) }
    {
        table!(read, code)
    }

    /// The code of the factor.
    pub fn code(self) -> u32
        ensures value { result ≡ code_of self }
        ensures back { from_code_of result ≡ Some self }
    {
        table!(written, self)
    }
}
