ghost use Rattle.std.specs.Prelude.{◌≡◌, ◌↔◌, Some};
ghost use Rattle.gl_tokens.specs.HintTarget.{code_of, from_code_of};

use crate::codes::{read, written};

/// What a hint is about (OpenGL ES 1.1.12, 5.6).
#[derive(Clone, Copy, Debug, PartialEq, Eq)]
pub enum HintTarget {
    PerspectiveCorrection,
    PointSmooth,
    LineSmooth,
    Fog,
    GenerateMipmap,
}

macro_rules! table {
    ($with:ident, $value:ident) => {
        $with!($value;
            PerspectiveCorrection = 0x0C50,
            PointSmooth = 0x0C51,
            LineSmooth = 0x0C52,
            Fog = 0x0C54,
            GenerateMipmap = 0x8192,
        )
    };
}

impl HintTarget {
    /// The target with this code: 0x0C50, 0x0C51, 0x0C52, 0x0C54 or 0x8192.
    pub fn from_code(code: u32) -> Option<Self>
        ensures value { result ≡ from_code_of code }
        ensures exact { (target : HintTarget) → (result ≡ Some target) ↔ (code_of target ≡ code) }
    {
        table!(read, code)
    }

    /// The code of the target.
    pub fn code(self) -> u32
        ensures value { result ≡ code_of self }
        ensures back { from_code_of result ≡ Some self }
    {
        table!(written, self)
    }
}
