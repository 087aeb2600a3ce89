ghost use Rattle.std.specs.Prelude.{◌≡◌, ◌↔◌, Some};
ghost use Rattle.gl_tokens.specs.StencilOp.{code_of, from_code_of};

use crate::codes::{read, written};

/// What becomes of the stored stencil value (OpenGL ES 1.1.12, 4.1).
#[derive(Clone, Copy, Debug, PartialEq, Eq)]
pub enum StencilOp {
    Zero,
    Invert,
    Keep,
    Replace,
    Increment,
    Decrement,
}

macro_rules! table {
    ($with:ident, $value:ident) => {
        $with!($value;
            Zero = 0x0000,
            Invert = 0x150A,
            Keep = 0x1E00,
            Replace = 0x1E01,
            Increment = 0x1E02,
            Decrement = 0x1E03,
        )
    };
}

impl StencilOp {
    /// The operation with this code: 0, 0x150A or 0x1E00 to 0x1E03.
    pub fn from_code(code: u32) -> Option<Self>
        ensures value { result ≡ from_code_of code }
        ensures exact { (operation : StencilOp) → (result ≡ Some operation) ↔ (code_of operation ≡ code) }
    {
        table!(read, code)
    }

    /// The code of the operation.
    pub fn code(self) -> u32
        ensures value { result ≡ code_of self }
        ensures back { from_code_of result ≡ Some self }
    {
        table!(written, self)
    }
}
