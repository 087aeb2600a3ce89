ghost use Rattle.std.specs.Prelude.{◌≡◌, ◌↔◌, Some};
ghost use Rattle.gl_tokens.specs.EnvParameter.{code_of, from_code_of};

use crate::codes::{read, written};

/// A parameter of a texture environment (OpenGL ES 1.1.12, 3.7.12).
#[derive(Clone, Copy, Debug, PartialEq, Eq)]
pub enum EnvParameter {
    AlphaScale,
    Mode,
    Color,
    CombineRgb,
    CombineAlpha,
    RgbScale,
    Source0Rgb,
    Source1Rgb,
    Source2Rgb,
    Source0Alpha,
    Source1Alpha,
    Source2Alpha,
    Operand0Rgb,
    Operand1Rgb,
    Operand2Rgb,
    Operand0Alpha,
    Operand1Alpha,
    Operand2Alpha,
}

macro_rules! table {
    ($with:ident, $value:ident) => {
        $with!($value;
            AlphaScale = 0x0D1C,
            Mode = 0x2200,
            Color = 0x2201,
            CombineRgb = 0x8571,
            CombineAlpha = 0x8572,
            RgbScale = 0x8573,
            Source0Rgb = 0x8580,
            Source1Rgb = 0x8581,
            Source2Rgb = 0x8582,
            Source0Alpha = 0x8588,
            Source1Alpha = 0x8589,
            Source2Alpha = 0x858A,
            Operand0Rgb = 0x8590,
            Operand1Rgb = 0x8591,
            Operand2Rgb = 0x8592,
            Operand0Alpha = 0x8598,
            Operand1Alpha = 0x8599,
            Operand2Alpha = 0x859A,
        )
    };
}

impl EnvParameter {
    /// The parameter with this code: 0x2200, 0x2201, 0x0D1C or one of the fifteen from 0x8571 to 0x859A.
    pub fn from_code(code: u32) -> Option<Self>
        ensures value { result ≡ from_code_of code }
        ensures exact { (parameter : EnvParameter) → (result ≡ Some parameter) ↔ (code_of parameter ≡ code) }
    {
        table!(read, code)
    }

    /// The code of the parameter.
    pub fn code(self) -> u32
        ensures value { result ≡ code_of self }
        ensures back { from_code_of result ≡ Some self }
    {
        table!(written, self)
    }
}
