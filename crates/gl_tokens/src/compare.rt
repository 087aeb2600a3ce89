ghost use Rattle.std.specs.Prelude.{◌≡◌, ◌↔◌, Some};
ghost use Rattle.gl_tokens.specs.Compare.{code_of, from_code_of};

use crate::codes::{read, written};

/// How a test compares the incoming value with the other one (OpenGL ES 1.1.12, 4.1).
#[derive(Clone, Copy, Debug, PartialEq, Eq)]
pub enum Compare {
    Never,
    Less,
    Equal,
    LessOrEqual,
    Greater,
    NotEqual,
    GreaterOrEqual,
    Always,
}

macro_rules! table {
    ($with:ident, $value:ident) => {
        $with!($value;
            Never = 0x0200,
            Less = 0x0201,
            Equal = 0x0202,
            LessOrEqual = 0x0203,
            Greater = 0x0204,
            NotEqual = 0x0205,
            GreaterOrEqual = 0x0206,
            Always = 0x0207,
        )
    };
}

impl Compare {
    /// The comparison with this code, 0x0200 to 0x0207.
    pub fn from_code(code: u32) -> Option<Self>
        ensures value { result ≡ from_code_of code }
        ensures exact { (comparison : Compare) → (result ≡ Some comparison) ↔ (code_of comparison ≡ code) }
    {
        table!(read, code)
    }

    /// The code of the comparison.
    pub fn code(self) -> u32
        ensures value { result ≡ code_of self }
        ensures back { from_code_of result ≡ Some self }
    {
        table!(written, self)
    }
}
