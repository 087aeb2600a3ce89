ghost use Rattle.std.specs.Prelude.{◌≡◌, ◌↔◌, Some};
ghost use Rattle.gl_tokens.specs.ShadeModel.{code_of, from_code_of};

use crate::codes::{read, written};

/// Whether a primitive has one colour or those of its corners (OpenGL ES 1.1.12, 2.12.6).
#[derive(Clone, Copy, Debug, PartialEq, Eq)]
pub enum ShadeModel {
    Flat,
    Smooth,
}

macro_rules! table {
    ($with:ident, $value:ident) => {
        $with!($value;
            Flat = 0x1D00,
            Smooth = 0x1D01,
        )
    };
}

impl ShadeModel {
    /// The model with this code: 0x1D00 or 0x1D01.
    pub fn from_code(code: u32) -> Option<Self>
        ensures value { result ≡ from_code_of code }
        ensures exact { (model : ShadeModel) → (result ≡ Some model) ↔ (code_of model ≡ code) }
    {
        table!(read, code)
    }

    /// The code of the model.
    pub fn code(self) -> u32
        ensures value { result ≡ code_of self }
        ensures back { from_code_of result ≡ Some self }
    {
        table!(written, self)
    }
}
