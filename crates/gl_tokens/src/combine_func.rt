ghost use Rattle.std.specs.Prelude.{◌≡◌, ◌↔◌, Some};
ghost use Rattle.gl_tokens.specs.CombineFunc.{code_of, from_code_of};

use crate::codes::{read, written};

/// What a combining texture environment makes of its arguments (OpenGL ES 1.1.12, 3.7). The last two
/// are for colours alone.
#[derive(Clone, Copy, Debug, PartialEq, Eq)]
pub enum CombineFunc {
    Add,
    Replace,
    Modulate,
    Subtract,
    AddSigned,
    Interpolate,
    Dot3Rgb,
    Dot3Rgba,
}

macro_rules! table {
    ($with:ident, $value:ident) => {
        $with!($value;
            Add = 0x0104,
            Replace = 0x1E01,
            Modulate = 0x2100,
            Subtract = 0x84E7,
            AddSigned = 0x8574,
            Interpolate = 0x8575,
            Dot3Rgb = 0x86AE,
            Dot3Rgba = 0x86AF,
        )
    };
}

impl CombineFunc {
    /// The function with this code: 0x0104, 0x1E01, 0x2100, 0x84E7, 0x8574, 0x8575, 0x86AE or 0x86AF.
    pub fn from_code(code: u32) -> Option<Self>
        ensures value { result ≡ from_code_of code }
        ensures exact { (function : CombineFunc) → (result ≡ Some function) ↔ (code_of function ≡ code) }
    {
        table!(read, code)
    }

    /// The code of the function.
    pub fn code(self) -> u32
        ensures value { result ≡ code_of self }
        ensures back { from_code_of result ≡ Some self }
    {
        table!(written, self)
    }
}
