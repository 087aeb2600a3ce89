ghost use Rattle.std.specs.Prelude.{◌≡◌, ◌↔◌, Some};
ghost use Rattle.gl_tokens.specs.Face.{code_of, from_code_of};

use crate::codes::{read, written};

/// The sides of a triangle that a command speaks of (OpenGL ES 1.1.12, 2.12.1 and 3.5.1).
#[derive(Clone, Copy, Debug, PartialEq, Eq)]
pub enum Face {
    Front,
    Back,
    FrontAndBack,
}

macro_rules! table {
    ($with:ident, $value:ident) => {
        $with!($value;
            Front = 0x0404,
            Back = 0x0405,
            FrontAndBack = 0x0408,
        )
    };
}

impl Face {
    /// The sides with this code: 0x0404, 0x0405 or 0x0408.
    pub fn from_code(code: u32) -> Option<Self>
        ensures value { result ≡ from_code_of code }
        ensures exact { (face : Face) → (result ≡ Some face) ↔ (code_of face ≡ code) }
    {
        table!(read, code)
    }

    /// The code of the sides.
    pub fn code(self) -> u32
        ensures value { result ≡ code_of self }
        ensures back { from_code_of result ≡ Some self }
    {
        table!(written, self)
    }
}
