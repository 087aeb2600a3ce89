ghost use Rattle.std.specs.Prelude.{◌≡◌, ◌↔◌, Some};
ghost use Rattle.gl_tokens.specs.Winding.{code_of, from_code_of};

use crate::codes::{read, written};

/// Which way round the corners of a triangle that faces front are seen to go (OpenGL ES 1.1.12, 2.12.1).
#[derive(Clone, Copy, Debug, PartialEq, Eq)]
pub enum Winding {
    Clockwise,
    Counterclockwise,
}

macro_rules! table {
    ($with:ident, $value:ident) => {
        $with!($value;
            Clockwise = 0x0900,
            Counterclockwise = 0x0901,
        )
    };
}

impl Winding {
    /// The way with this code: 0x0900 or 0x0901.
    pub fn from_code(code: u32) -> Option<Self>
        ensures value { result ≡ from_code_of code }
        ensures exact { (winding : Winding) → (result ≡ Some winding) ↔ (code_of winding ≡ code) }
    {
        table!(read, code)
    }

    /// The code of the way.
    pub fn code(self) -> u32
        ensures value { result ≡ code_of self }
        ensures back { from_code_of result ≡ Some self }
    {
        table!(written, self)
    }
}
