ghost use Rattle.std.specs.Prelude.{◌≡◌, ◌↔◌, Some};
ghost use Rattle.gl_tokens.specs.TextureParameter.{code_of, from_code_of};

use crate::codes::{read, written};

/// A parameter of a texture object (OpenGL ES 1.1.12, 3.7.4).
#[derive(Clone, Copy, Debug, PartialEq, Eq)]
pub enum TextureParameter {
    MagFilter,
    MinFilter,
    WrapS,
    WrapT,
    GenerateMipmap,
}

macro_rules! table {
    ($with:ident, $value:ident) => {
        $with!($value;
            MagFilter = 0x2800,
            MinFilter = 0x2801,
            WrapS = 0x2802,
            WrapT = 0x2803,
            GenerateMipmap = 0x8191,
        )
    };
}

impl TextureParameter {
    /// The parameter with this code: 0x2800 to 0x2803 or 0x8191.
    pub fn from_code(code: u32) -> Option<Self>
        ensures value { result ≡ from_code_of code }
        ensures exact { (parameter : TextureParameter) → (result ≡ Some parameter) ↔ (code_of parameter ≡ code) }
    {
        table!(read, code)
    }

    /// The code of the parameter.
    pub fn code(self) -> u32
        ensures value { result ≡ code_of self }
        ensures back { from_code_of result ≡ Some self }
    {
        table!(written, self)
    }
}
