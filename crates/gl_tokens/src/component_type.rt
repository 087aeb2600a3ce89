ghost use Rattle.std.specs.Prelude.{◌≡◌, ◌↔◌, Some};
ghost use Rattle.gl_tokens.specs.ComponentType.{code_of, from_code_of};

use crate::codes::{read, written};

/// The type of an array's components (OpenGL ES 1.1.12, 2.8).
#[derive(Clone, Copy, Debug, PartialEq, Eq)]
pub enum ComponentType {
    Byte,
    UnsignedByte,
    Short,
    UnsignedShort,
    Fixed,
}

macro_rules! table {
    ($with:ident, $value:ident) => {
        $with!($value;
            Byte = 0x1400,
            UnsignedByte = 0x1401,
            Short = 0x1402,
            UnsignedShort = 0x1403,
            Fixed = 0x140C,
        )
    };
}

impl ComponentType {
    /// The type with this code: 0x1400 to 0x1403 or 0x140C.
    pub fn from_code(code: u32) -> Option<Self>
        ensures value { result ≡ from_code_of code }
        ensures exact { (component : ComponentType) → (result ≡ Some component) ↔ (code_of component ≡ code) }
    {
        table!(read, code)
    }

    /// The code of the type.
    pub fn code(self) -> u32
        ensures value { result ≡ code_of self }
        ensures back { from_code_of result ≡ Some self }
    {
        table!(written, self)
    }
}
