ghost use Rattle.std.specs.Prelude.{◌≡◌, ◌↔◌, Some};
ghost use Rattle.gl_tokens.specs.PixelStoreParameter.{code_of, from_code_of};

use crate::codes::{read, written};

/// A parameter of how rows of pixels lie in memory (OpenGL ES 1.1.12, 3.6.1 and 4.3.1).
#[derive(Clone, Copy, Debug, PartialEq, Eq)]
pub enum PixelStoreParameter {
    UnpackAlignment,
    PackAlignment,
}

macro_rules! table {
    ($with:ident, $value:ident) => {
        $with!($value;
            UnpackAlignment = 0x0CF5,
            PackAlignment = 0x0D05,
        )
    };
}

impl PixelStoreParameter {
    /// The parameter with this code: 0x0CF5 or 0x0D05.
    pub fn from_code(code: u32) -> Option<Self>
        ensures value { result ≡ from_code_of code }
        ensures exact { (parameter : PixelStoreParameter) → (result ≡ Some parameter) ↔ (code_of parameter ≡ code) }
    {
        table!(read, code)
    }

    /// The code of the parameter.
    pub fn code(self) -> u32
        ensures value { result ≡ code_of self }
        ensures back { from_code_of result ≡ Some self }
    {
        table!(written, self)
    }
}
