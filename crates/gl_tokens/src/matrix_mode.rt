ghost use Rattle.std.specs.Prelude.{◌≡◌, ◌↔◌, Some};
ghost use Rattle.gl_tokens.specs.MatrixMode.{code_of, from_code_of};

use crate::codes::{read, written};

/// Which matrices the matrix commands act on (OpenGL ES 1.1.12, 2.10.2).
#[derive(Clone, Copy, Debug, PartialEq, Eq)]
pub enum MatrixMode {
    Modelview,
    Projection,
    Texture,
}

macro_rules! table {
    ($with:ident, $value:ident) => {
        $with!($value;
            Modelview = 0x1700,
            Projection = 0x1701,
            Texture = 0x1702,
        )
    };
}

impl MatrixMode {
    /// The mode with this code, 0x1700 to 0x1702.
    pub fn from_code(code: u32) -> Option<Self>
        ensures value { result ≡ from_code_of code }
        ensures exact { (mode : MatrixMode) → (result ≡ Some mode) ↔ (code_of mode ≡ code) }
    {
        table!(read, code)
    }

    /// The code of the mode.
    pub fn code(self) -> u32
        ensures value { result ≡ code_of self }
        ensures back { from_code_of result ≡ Some self }
    {
        table!(written, self)
    }
}
