ghost use Rattle.std.specs.Prelude.{◌≡◌, ◌↔◌, Some};
ghost use Rattle.gl_tokens.specs.Wrap.{code_of, from_code_of};

use crate::codes::{read, written};

/// What a texture coordinate outside of the image means (OpenGL ES 1.1.12, 3.7).
#[derive(Clone, Copy, Debug, PartialEq, Eq)]
pub enum Wrap {
    Repeat,
    ClampToEdge,
}

macro_rules! table {
    ($with:ident, $value:ident) => {
        $with!($value;
            Repeat = 0x2901,
            ClampToEdge = 0x812F,
        )
    };
}

impl Wrap {
    /// The mode with this code: 0x2901 or 0x812F.
    pub fn from_code(code: u32) -> Option<Self>
        ensures value { result ≡ from_code_of code }
        ensures exact { (mode : Wrap) → (result ≡ Some mode) ↔ (code_of mode ≡ code) }
    {
        table!(read, code)
    }

    /// The code of the mode.
    pub fn code(self) -> u32
        ensures value { result ≡ code_of self }
        ensures back { from_code_of result ≡ Some self }
    {
        table!(written, self)
    }
}
