ghost use Rattle.std.specs.Prelude.{◌≡◌, ◌↔◌, Some};
ghost use Rattle.gl_tokens.specs.GlError.{code_of, from_code_of};

use crate::codes::{read, written};

/// What a command that is refused leaves in the error flag (OpenGL ES 1.1.12, 2.5).
#[derive(Clone, Copy, Debug, PartialEq, Eq)]
pub enum GlError {
    InvalidEnum,
    InvalidValue,
    InvalidOperation,
    StackOverflow,
    StackUnderflow,
    OutOfMemory,
}

macro_rules! table {
    ($with:ident, $value:ident) => {
        $with!($value;
            InvalidEnum = 0x0500,
            InvalidValue = 0x0501,
            InvalidOperation = 0x0502,
            StackOverflow = 0x0503,
            StackUnderflow = 0x0504,
            OutOfMemory = 0x0505,
        )
    };
}

impl GlError {
    /// The error with this code, 0x0500 to 0x0505.
    pub fn from_code(code: u32) -> Option<Self>
        ensures value { result ≡ from_code_of code }
        ensures exact { (error : GlError) → (result ≡ Some error) ↔ (code_of error ≡ code) }
    {
        table!(read, code)
    }

    /// The code of the error.
    pub fn code(self) -> u32
        ensures value { result ≡ code_of self }
        ensures back { from_code_of result ≡ Some self }
    {
        table!(written, self)
    }
}
