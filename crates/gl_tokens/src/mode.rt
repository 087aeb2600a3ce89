ghost use Rattle.std.specs.Prelude.{◌≡◌, ◌↔◌, Some};
ghost use Rattle.gl_tokens.specs.Mode.{code_of, from_code_of};

use crate::codes::{read, written};

/// What a draw makes of its list of vertices (OpenGL ES 1.1.12, 2.6.1).
#[derive(Clone, Copy, Debug, PartialEq, Eq)]
pub enum Mode {
    Points,
    Lines,
    LineLoop,
    LineStrip,
    Triangles,
    TriangleStrip,
    TriangleFan,
}

macro_rules! table {
    ($with:ident, $value:ident) => {
        $with!($value;
            Points = 0x0000,
            Lines = 0x0001,
            LineLoop = 0x0002,
            LineStrip = 0x0003,
            Triangles = 0x0004,
            TriangleStrip = 0x0005,
            TriangleFan = 0x0006,
        )
    };
}

impl Mode {
    /// The mode with this code, 0 to 6.
    pub fn from_code(code: u32) -> Option<Self>
        ensures value { result ≡ from_code_of code }
        ensures exact { (mode : Mode) → (result ≡ Some mode) ↔ (code_of mode ≡ code) }
    {
        table!(read, code)
    }

    /// The code of the mode.
    pub fn code(self) -> u32
        ensures value { result ≡ code_of self }
        ensures back { from_code_of result ≡ Some self }
    {
        table!(written, self)
    }
}
