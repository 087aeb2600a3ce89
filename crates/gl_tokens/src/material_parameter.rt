ghost use Rattle.std.specs.Prelude.{◌≡◌, ◌↔◌, Some};
ghost use Rattle.gl_tokens.specs.MaterialParameter.{code_of, from_code_of};

use crate::codes::{read, written};

/// A parameter of the material (OpenGL ES 1.1.12, 2.12.2).
#[derive(Clone, Copy, Debug, PartialEq, Eq)]
pub enum MaterialParameter {
    Ambient,
    Diffuse,
    Specular,
    Emission,
    Shininess,
    AmbientAndDiffuse,
}

macro_rules! table {
    ($with:ident, $value:ident) => {
        $with!($value;
            Ambient = 0x1200,
            Diffuse = 0x1201,
            Specular = 0x1202,
            Emission = 0x1600,
            Shininess = 0x1601,
            AmbientAndDiffuse = 0x1602,
        )
    };
}

impl MaterialParameter {
    /// The parameter with this code: 0x1200 to 0x1202 or 0x1600 to 0x1602.
    pub fn from_code(code: u32) -> Option<Self>
        ensures value { result ≡ from_code_of code }
        ensures exact { (parameter : MaterialParameter) → (result ≡ Some parameter) ↔ (code_of parameter ≡ code) }
    {
        table!(read, code)
    }

    /// The code of the parameter.
    pub fn code(self) -> u32
        ensures value { result ≡ code_of self }
        ensures back { from_code_of result ≡ Some self }
    {
        table!(written, self)
    }
}
