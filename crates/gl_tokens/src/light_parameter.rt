ghost use Rattle.std.specs.Prelude.{◌≡◌, ◌↔◌, Some};
ghost use Rattle.gl_tokens.specs.LightParameter.{code_of, from_code_of};

use crate::codes::{read, written};

/// A parameter of a light (OpenGL ES 1.1.12, 2.12.2).
#[derive(Clone, Copy, Debug, PartialEq, Eq)]
pub enum LightParameter {
    Ambient,
    Diffuse,
    Specular,
    Position,
    SpotDirection,
    SpotExponent,
    SpotCutoff,
    ConstantAttenuation,
    LinearAttenuation,
    QuadraticAttenuation,
}

macro_rules! table {
    ($with:ident, $value:ident) => {
        $with!($value;
            Ambient = 0x1200,
            Diffuse = 0x1201,
            Specular = 0x1202,
            Position = 0x1203,
            SpotDirection = 0x1204,
            SpotExponent = 0x1205,
            SpotCutoff = 0x1206,
            ConstantAttenuation = 0x1207,
            LinearAttenuation = 0x1208,
            QuadraticAttenuation = 0x1209,
        )
    };
}

impl LightParameter {
    /// The parameter with this code: 0x1200 to 0x1209.
    pub fn from_code(code: u32) -> Option<Self>
        ensures value { result ≡ from_code_of code }
        ensures exact { (parameter : LightParameter) → (result ≡ Some parameter) ↔ (code_of parameter ≡ code) }
    {
        table!(read, code)
    }

    /// The code of the parameter.
    pub fn code(self) -> u32
        ensures value { result ≡ code_of self }
        ensures back { from_code_of result ≡ Some self }
    {
        table!(written, self)
    }
}
