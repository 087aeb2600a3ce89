ghost use Rattle.std.specs.Prelude.{◌≡◌, ◌↔◌, Some};
ghost use Rattle.gl_tokens.specs.EnvMode.{code_of, from_code_of};

use crate::codes::{read, written};

/// How a texture unit joins its texel with the colour that comes in (OpenGL ES 1.1.12, 3.7).
#[derive(Clone, Copy, Debug, PartialEq, Eq)]
pub enum EnvMode {
    Add,
    Blend,
    Replace,
    Modulate,
    Decal,
    Combine,
}

macro_rules! table {
    ($with:ident, $value:ident) => {
        $with!($value;
            Add = 0x0104,
            Blend = 0x0BE2,
            Replace = 0x1E01,
            Modulate = 0x2100,
            Decal = 0x2101,
            Combine = 0x8570,
        )
    };
}

impl EnvMode {
    /// The mode with this code: 0x0104, 0x0BE2, 0x1E01, 0x2100, 0x2101 or 0x8570.
    pub fn from_code(code: u32) -> Option<Self>
        ensures value { result ≡ from_code_of code }
        ensures exact { (mode : EnvMode) → (result ≡ Some mode) ↔ (code_of mode ≡ code) }
    {
        table!(read, code)
    }

    /// The code of the mode.
    pub fn code(self) -> u32
        ensures value { result ≡ code_of self }
        ensures back { from_code_of result ≡ Some self }
    {
        table!(written, self)
    }
}
