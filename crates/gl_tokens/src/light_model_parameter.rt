ghost use Rattle.std.specs.Prelude.{◌≡◌, ◌↔◌, Some};
ghost use Rattle.gl_tokens.specs.LightModelParameter.{code_of, from_code_of};

use crate::codes::{read, written};

/// A parameter of the lighting model (OpenGL ES 1.1.12, 2.12.2).
#[derive(Clone, Copy, Debug, PartialEq, Eq)]
pub enum LightModelParameter {
    TwoSide,
    Ambient,
}

macro_rules! table {
    ($with:ident, $value:ident) => {
        $with!($value;
            TwoSide = 0x0B52,
            Ambient = 0x0B53,
        )
    };
}

impl LightModelParameter {
    /// The parameter with this code: 0x0B52 or 0x0B53.
    pub fn from_code(code: u32) -> Option<Self>
        ensures value { result ≡ from_code_of code }
        ensures exact { (parameter : LightModelParameter) → (result ≡ Some parameter) ↔ (code_of parameter ≡ code) }
    {
        table!(read, code)
    }

    /// The code of the parameter.
    pub fn code(self) -> u32
        ensures value { result ≡ code_of self }
        ensures back { from_code_of result ≡ Some self }
    {
        table!(written, self)
    }
}
