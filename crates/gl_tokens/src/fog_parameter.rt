ghost use Rattle.std.specs.Prelude.{◌≡◌, ◌↔◌, Some};
ghost use Rattle.gl_tokens.specs.FogParameter.{code_of, from_code_of};

use crate::codes::{read, written};

/// A parameter of fog (OpenGL ES 1.1.12, 3.8).
#[derive(Clone, Copy, Debug, PartialEq, Eq)]
pub enum FogParameter {
    Density,
    Start,
    End,
    Mode,
    Color,
}

macro_rules! table {
    ($with:ident, $value:ident) => {
        $with!($value;
            Density = 0x0B62,
            Start = 0x0B63,
            End = 0x0B64,
            Mode = 0x0B65,
            Color = 0x0B66,
        )
    };
}

impl FogParameter {
    /// The parameter with this code: 0x0B62 to 0x0B66.
    pub fn from_code(code: u32) -> Option<Self>
        ensures value { result ≡ from_code_of code }
        ensures exact { (parameter : FogParameter) → (result ≡ Some parameter) ↔ (code_of parameter ≡ code) }
    {
        table!(read, code)
    }

    /// The code of the parameter.
    pub fn code(self) -> u32
        ensures value { result ≡ code_of self }
        ensures back { from_code_of result ≡ Some self }
    {
        table!(written, self)
    }
}
