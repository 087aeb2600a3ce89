ghost use Rattle.std.specs.Prelude.{◌≡◌, ◌↔◌, Some};
ghost use Rattle.gl_tokens.specs.FogMode.{code_of, from_code_of};

use crate::codes::{read, written};

/// How fog grows with the distance (OpenGL ES 1.1.12, 3.8).
#[derive(Clone, Copy, Debug, PartialEq, Eq)]
pub enum FogMode {
    Exp,
    Exp2,
    Linear,
}

macro_rules! table {
    ($with:ident, $value:ident) => {
        $with!($value;
            Exp = 0x0800,
            Exp2 = 0x0801,
            Linear = 0x2601,
        )
    };
}

impl FogMode {
    /// The mode with this code: 0x0800, 0x0801 or 0x2601.
    pub fn from_code(code: u32) -> Option<Self>
        ensures value { result ≡ from_code_of code }
        ensures exact { (mode : FogMode) → (result ≡ Some mode) ↔ (code_of mode ≡ code) }
    {
        table!(read, code)
    }

    /// The code of the mode.
    pub fn code(self) -> u32
        ensures value { result ≡ code_of self }
        ensures back { from_code_of result ≡ Some self }
    {
        table!(written, self)
    }
}
