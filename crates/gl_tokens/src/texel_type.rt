ghost use Rattle.std.specs.Prelude.{◌≡◌, ◌↔◌, Some};
ghost use Rattle.gl_tokens.specs.TexelType.{code_of, from_code_of};

use crate::codes::{read, written};

/// How the components of a texel are packed (OpenGL ES 1.1.12, 3.7.1).
#[derive(Clone, Copy, Debug, PartialEq, Eq)]
pub enum TexelType {
    UnsignedByte,
    UnsignedShort4444,
    UnsignedShort5551,
    UnsignedShort565,
}

macro_rules! table {
    ($with:ident, $value:ident) => {
        $with!($value;
            UnsignedByte = 0x1401,
            UnsignedShort4444 = 0x8033,
            UnsignedShort5551 = 0x8034,
            UnsignedShort565 = 0x8363,
        )
    };
}

impl TexelType {
    /// The type with this code: 0x1401, 0x8033, 0x8034 or 0x8363.
    pub fn from_code(code: u32) -> Option<Self>
        ensures value { result ≡ from_code_of code }
        ensures exact { (texel : TexelType) → (result ≡ Some texel) ↔ (code_of texel ≡ code) }
    {
        table!(read, code)
    }

    /// The code of the type.
    pub fn code(self) -> u32
        ensures value { result ≡ code_of self }
        ensures back { from_code_of result ≡ Some self }
    {
        table!(written, self)
    }
}
