ghost use Rattle.std.specs.Prelude.{◌≡◌, ◌↔◌, Some};
ghost use Rattle.gl_tokens.specs.HintMode.{code_of, from_code_of};

use crate::codes::{read, written};

/// What a hint asks for (OpenGL ES 1.1.12, 5.6).
#[derive(Clone, Copy, Debug, PartialEq, Eq)]
pub enum HintMode {
    DontCare,
    Fastest,
    Nicest,
}

macro_rules! table {
    ($with:ident, $value:ident) => {
        $with!($value;
            DontCare = 0x1100,
            Fastest = 0x1101,
            Nicest = 0x1102,
        )
    };
}

impl HintMode {
    /// The mode with this code: 0x1100 to 0x1102.
    pub fn from_code(code: u32) -> Option<Self>
        ensures value { result ≡ from_code_of code }
        ensures exact { (mode : HintMode) → (result ≡ Some mode) ↔ (code_of mode ≡ code) }
    {
        table!(read, code)
    }

    /// The code of the mode.
    pub fn code(self) -> u32
        ensures value { result ≡ code_of self }
        ensures back { from_code_of result ≡ Some self }
    {
        table!(written, self)
    }
}
