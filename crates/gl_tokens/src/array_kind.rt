ghost use Rattle.std.specs.Prelude.{◌≡◌, ◌↔◌, Some};
ghost use Rattle.gl_tokens.specs.ArrayKind.{code_of, from_code_of};

use crate::codes::{read, written};

/// Which vertex array a command is for (OpenGL ES 1.1.12, 2.8).
#[derive(Clone, Copy, Debug, PartialEq, Eq)]
pub enum ArrayKind {
    Vertex,
    Normal,
    Color,
    TextureCoord,
}

macro_rules! table {
    ($with:ident, $value:ident) => {
        $with!($value;
            Vertex = 0x8074,
            Normal = 0x8075,
            Color = 0x8076,
            TextureCoord = 0x8078,
        )
    };
}

impl ArrayKind {
    /// The array with this code: 0x8074, 0x8075, 0x8076 or 0x8078.
    pub fn from_code(code: u32) -> Option<Self>
        ensures value { result ≡ from_code_of code }
        ensures exact { (array : ArrayKind) → (result ≡ Some array) ↔ (code_of array ≡ code) }
    {
        table!(read, code)
    }

    /// The code of the array.
    pub fn code(self) -> u32
        ensures value { result ≡ code_of self }
        ensures back { from_code_of result ≡ Some self }
    {
        table!(written, self)
    }
}
