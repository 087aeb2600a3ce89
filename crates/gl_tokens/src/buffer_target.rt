ghost use Rattle.std.specs.Prelude.{◌≡◌, ◌↔◌, Some};
ghost use Rattle.gl_tokens.specs.BufferTarget.{code_of, from_code_of};

use crate::codes::{read, written};

/// What a buffer object is bound for (OpenGL ES 1.1.12, 2.9).
#[derive(Clone, Copy, Debug, PartialEq, Eq)]
pub enum BufferTarget {
    /// Arrays of vertices are read from it.
    Array,
    /// Indices are read from it.
    ElementArray,
}

macro_rules! table {
    ($with:ident, $value:ident) => {
        $with!($value;
            Array = 0x8892,
            ElementArray = 0x8893,
        )
    };
}

impl BufferTarget {
    /// The target with this code: 0x8892 or 0x8893.
    pub fn from_code(code: u32) -> Option<Self>
        ensures value { result ≡ from_code_of code }
        ensures exact { (target : BufferTarget) → (result ≡ Some target) ↔ (code_of target ≡ code) }
    {
        table!(read, code)
    }

    /// The code of the target.
    pub fn code(self) -> u32
        ensures value { result ≡ code_of self }
        ensures back { from_code_of result ≡ Some self }
    {
        table!(written, self)
    }
}
