ghost use Rattle.std.specs.Prelude.{◌≡◌, ◌↔◌, Some};
ghost use Rattle.gl_tokens.specs.Cap.{code_of, from_code_of};

use crate::codes::{read, written};

/// What Enable and Disable switch (OpenGL ES 1.1.12, 6.2). `Texture2D` is one for each texture unit.
#[derive(Clone, Copy, Debug, PartialEq, Eq)]
pub enum Cap {
    PointSmooth,
    LineSmooth,
    CullFace,
    Lighting,
    ColorMaterial,
    Fog,
    DepthTest,
    StencilTest,
    Normalize,
    AlphaTest,
    Dither,
    Blend,
    ColorLogicOp,
    ScissorTest,
    Texture2D,
    ClipPlane0,
    Light0,
    Light1,
    Light2,
    Light3,
    Light4,
    Light5,
    Light6,
    Light7,
    PolygonOffsetFill,
    RescaleNormal,
    Multisample,
    SampleAlphaToCoverage,
    SampleAlphaToOne,
    SampleCoverage,
}

macro_rules! table {
    ($with:ident, $value:ident) => {
        $with!($value;
            PointSmooth = 0x0B10,
            LineSmooth = 0x0B20,
            CullFace = 0x0B44,
            Lighting = 0x0B50,
            ColorMaterial = 0x0B57,
            Fog = 0x0B60,
            DepthTest = 0x0B71,
            StencilTest = 0x0B90,
            Normalize = 0x0BA1,
            AlphaTest = 0x0BC0,
            Dither = 0x0BD0,
            Blend = 0x0BE2,
            ColorLogicOp = 0x0BF2,
            ScissorTest = 0x0C11,
            Texture2D = 0x0DE1,
            ClipPlane0 = 0x3000,
            Light0 = 0x4000,
            Light1 = 0x4001,
            Light2 = 0x4002,
            Light3 = 0x4003,
            Light4 = 0x4004,
            Light5 = 0x4005,
            Light6 = 0x4006,
            Light7 = 0x4007,
            PolygonOffsetFill = 0x8037,
            RescaleNormal = 0x803A,
            Multisample = 0x809D,
            SampleAlphaToCoverage = 0x809E,
            SampleAlphaToOne = 0x809F,
            SampleCoverage = 0x80A0,
        )
    };
}

impl Cap {
    /// The capability with this code.
    pub fn from_code(code: u32) -> Option<Self>
        ensures value { result ≡ from_code_of code }
        ensures exact { (capability : Cap) → (result ≡ Some capability) ↔ (code_of capability ≡ code) }
    {
        table!(read, code)
    }

    /// The code of the capability.
    pub fn code(self) -> u32
        ensures value { result ≡ code_of self }
        ensures back { from_code_of result ≡ Some self }
    {
        table!(written, self)
    }
}
