ghost use Rattle.std.specs.Prelude.{◌≡◌, ◌↔◌, Some};
ghost use Rattle.gl_tokens.specs.Filter.{code_of, from_code_of};

use crate::codes::{read, written};

/// How a texture is made smaller or larger (OpenGL ES 1.1.12, 3.7). Only the first two can make it
/// larger.
#[derive(Clone, Copy, Debug, PartialEq, Eq)]
pub enum Filter {
    Nearest,
    Linear,
    NearestMipmapNearest,
    LinearMipmapNearest,
    NearestMipmapLinear,
    LinearMipmapLinear,
}

macro_rules! table {
    ($with:ident, $value:ident) => {
        $with!($value;
            Nearest = 0x2600,
            Linear = 0x2601,
            NearestMipmapNearest = 0x2700,
            LinearMipmapNearest = 0x2701,
            NearestMipmapLinear = 0x2702,
            LinearMipmapLinear = 0x2703,
        )
    };
}

impl Filter {
    /// The filter with this code: 0x2600, 0x2601 or 0x2700 to 0x2703.
    pub fn from_code(code: u32) -> Option<Self>
        ensures value { result ≡ from_code_of code }
        ensures exact { (filter : Filter) → (result ≡ Some filter) ↔ (code_of filter ≡ code) }
    {
        table!(read, code)
    }

    /// The code of the filter.
    pub fn code(self) -> u32
        ensures value { result ≡ code_of self }
        ensures back { from_code_of result ≡ Some self }
    {
        table!(written, self)
    }
}
