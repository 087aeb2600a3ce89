ghost use Rattle.std.specs.Prelude.{◌≡◌, ◌↔◌, Some};
ghost use Rattle.gl_tokens.specs.TextureTarget.{code_of, from_code_of};

use crate::codes::{read, written};

/// What commands of textures speak of (OpenGL ES 1.1.12, 3.7.1): there are images of two dimensions alone.
#[derive(Clone, Copy, Debug, PartialEq, Eq)]
pub enum TextureTarget {
    Texture2D,
}

macro_rules! table {
    ($with:ident, $value:ident) => {
        $with!($value;
            Texture2D = 0x0DE1,
        )
    };
}

impl TextureTarget {
    /// The target with this code: 0x0DE1.
    pub fn from_code(code: u32) -> Option<Self>
        ensures value { result ≡ from_code_of code }
        ensures exact { (target : TextureTarget) → (result ≡ Some target) ↔ (code_of target ≡ code) }
    {
        table!(read, code)
    }

    /// The code of the target.
    pub fn code(self) -> u32
        ensures value { result ≡ code_of self }
        ensures back { from_code_of result ≡ Some self }
    {
        table!(written, self)
    }
}
