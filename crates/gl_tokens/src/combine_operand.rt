ghost use Rattle.std.specs.Prelude.{◌≡◌, ◌↔◌, Some};
ghost use Rattle.gl_tokens.specs.CombineOperand.{code_of, from_code_of};

use crate::codes::{read, written};

/// What is taken of a source by a combining texture environment (OpenGL ES 1.1.12, 3.7). The first
/// two are for colours alone.
#[derive(Clone, Copy, Debug, PartialEq, Eq)]
pub enum CombineOperand {
    SourceColor,
    OneMinusSourceColor,
    SourceAlpha,
    OneMinusSourceAlpha,
}

macro_rules! table {
    ($with:ident, $value:ident) => {
        $with!($value;
            SourceColor = 0x0300,
            OneMinusSourceColor = 0x0301,
            SourceAlpha = 0x0302,
            OneMinusSourceAlpha = 0x0303,
        )
    };
}

impl CombineOperand {
    /// The operand with this code, 0x0300 to 0x0303.
    pub fn from_code(code: u32) -> Option<Self>
        ensures value { result ≡ from_code_of code }
        ensures exact { (operand : CombineOperand) → (result ≡ Some operand) ↔ (code_of operand ≡ code) }
    {
        table!(read, code)
    }

    /// The code of the operand.
    pub fn code(self) -> u32
        ensures value { result ≡ code_of self }
        ensures back { from_code_of result ≡ Some self }
    {
        table!(written, self)
    }
}
