ghost use Rattle.std.specs.Prelude.{◌≡◌, ◌↔◌, Some};
ghost use Rattle.gl_tokens.specs.BufferUsage.{code_of, from_code_of};

use crate::codes::{read, written};

/// How the bytes of a buffer object are expected to be used (OpenGL ES 1.1.12, 2.9).
#[derive(Clone, Copy, Debug, PartialEq, Eq)]
pub enum BufferUsage {
    /// They are given once and drawn from often.
    StaticDraw,
    /// They are given again and again and drawn from often.
    DynamicDraw,
}

macro_rules! table {
    ($with:ident, $value:ident) => {
        $with!($value;
            StaticDraw = 0x88E4,
            DynamicDraw = 0x88E8,
        )
    };
}

impl BufferUsage {
    /// The usage with this code: 0x88E4 or 0x88E8.
    pub fn from_code(code: u32) -> Option<Self>
        ensures value { result ≡ from_code_of code }
        ensures exact { (usage : BufferUsage) → (result ≡ Some usage) ↔ (code_of usage ≡ code) }
    {
        table!(read, code)
    }

    /// The code of the usage.
    pub fn code(self) -> u32
        ensures value { result ≡ code_of self }
        ensures back { from_code_of result ≡ Some self }
    {
        table!(written, self)
    }
}
