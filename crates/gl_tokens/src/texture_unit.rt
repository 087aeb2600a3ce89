ghost use Rattle.std.specs.Prelude.{◌≡◌, ◌↔◌, Some};
ghost use Rattle.gl_tokens.specs.TextureUnit.{code_of, from_code_of};

use crate::codes::{read, written};

/// A texture unit (OpenGL ES 1.1.12, 2.7 and 3.7).
#[derive(Clone, Copy, Debug, PartialEq, Eq)]
pub enum TextureUnit {
    Texture0,
    Texture1,
}

macro_rules! table {
    ($with:ident, $value:ident) => {
        $with!($value;
            Texture0 = 0x84C0,
            Texture1 = 0x84C1,
        )
    };
}

impl TextureUnit {
    /// The unit with this code: 0x84C0 or 0x84C1.
    pub fn from_code(code: u32) -> Option<Self>
        ensures value { result ≡ from_code_of code }
        ensures exact { (unit : TextureUnit) → (result ≡ Some unit) ↔ (code_of unit ≡ code) }
    {
        table!(read, code)
    }

    /// The code of the unit.
    pub fn code(self) -> u32
        ensures value { result ≡ code_of self }
        ensures back { from_code_of result ≡ Some self }
    {
        table!(written, self)
    }
}
