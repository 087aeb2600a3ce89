ghost use Rattle.std.specs.Prelude.{◌≡◌, ◌↔◌, Some};
ghost use Rattle.gl_tokens.specs.CombineSource.{code_of, from_code_of};

use crate::codes::{read, written};

/// Where an argument of a combining texture environment comes from (OpenGL ES 1.1.12, 3.7).
#[derive(Clone, Copy, Debug, PartialEq, Eq)]
pub enum CombineSource {
    Texture,
    Constant,
    PrimaryColor,
    Previous,
}

macro_rules! table {
    ($with:ident, $value:ident) => {
        $with!($value;
            Texture = 0x1702,
            Constant = 0x8576,
            PrimaryColor = 0x8577,
            Previous = 0x8578,
        )
    };
}

impl CombineSource {
    /// The source with this code: 0x1702 or 0x8576 to 0x8578.
    pub fn from_code(code: u32) -> Option<Self>
        ensures value { result ≡ from_code_of code }
        ensures exact { (source : CombineSource) → (result ≡ Some source) ↔ (code_of source ≡ code) }
    {
        table!(read, code)
    }

    /// The code of the source.
    pub fn code(self) -> u32
        ensures value { result ≡ code_of self }
        ensures back { from_code_of result ≡ Some self }
    {
        table!(written, self)
    }
}
