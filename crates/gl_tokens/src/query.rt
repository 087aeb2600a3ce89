ghost use Rattle.std.specs.Prelude.{◌≡◌, ◌↔◌, Some};
ghost use Rattle.gl_tokens.specs.Query.{code_of, from_code_of};

use crate::codes::{read, written};

/// A value that Get answers, by the name that it has in the tables of state (OpenGL ES 1.1.12, 6.2).
#[derive(Clone, Copy, Debug, PartialEq, Eq)]
pub enum Query {
    CurrentColor,
    CurrentNormal,
    CurrentTextureCoords,
    PointSize,
    LineWidth,
    CullFaceMode,
    FrontFace,
    ShadeModel,
    DepthRange,
    DepthWriteMask,
    DepthClearValue,
    DepthFunc,
    StencilClearValue,
    StencilFunc,
    StencilValueMask,
    StencilFail,
    StencilPassDepthFail,
    StencilPassDepthPass,
    StencilRef,
    StencilWriteMask,
    MatrixMode,
    Viewport,
    ModelviewStackDepth,
    ProjectionStackDepth,
    TextureStackDepth,
    ModelviewMatrix,
    ProjectionMatrix,
    TextureMatrix,
    AlphaTestFunc,
    AlphaTestRef,
    BlendDst,
    BlendSrc,
    LogicOpMode,
    ScissorBox,
    ColorClearValue,
    ColorWriteMask,
    UnpackAlignment,
    PackAlignment,
    MaxLights,
    MaxClipPlanes,
    MaxTextureSize,
    MaxModelviewStackDepth,
    MaxProjectionStackDepth,
    MaxTextureStackDepth,
    MaxViewportDims,
    SubpixelBits,
    RedBits,
    GreenBits,
    BlueBits,
    AlphaBits,
    DepthBits,
    StencilBits,
    TextureBinding2D,
    ActiveTexture,
    ClientActiveTexture,
    MaxTextureUnits,
    ArrayBufferBinding,
    ElementArrayBufferBinding,
}

macro_rules! table {
    ($with:ident, $value:ident) => {
        $with!($value;
            CurrentColor = 0x0B00,
            CurrentNormal = 0x0B02,
            CurrentTextureCoords = 0x0B03,
            PointSize = 0x0B11,
            LineWidth = 0x0B21,
            CullFaceMode = 0x0B45,
            FrontFace = 0x0B46,
            ShadeModel = 0x0B54,
            DepthRange = 0x0B70,
            DepthWriteMask = 0x0B72,
            DepthClearValue = 0x0B73,
            DepthFunc = 0x0B74,
            StencilClearValue = 0x0B91,
            StencilFunc = 0x0B92,
            StencilValueMask = 0x0B93,
            StencilFail = 0x0B94,
            StencilPassDepthFail = 0x0B95,
            StencilPassDepthPass = 0x0B96,
            StencilRef = 0x0B97,
            StencilWriteMask = 0x0B98,
            MatrixMode = 0x0BA0,
            Viewport = 0x0BA2,
            ModelviewStackDepth = 0x0BA3,
            ProjectionStackDepth = 0x0BA4,
            TextureStackDepth = 0x0BA5,
            ModelviewMatrix = 0x0BA6,
            ProjectionMatrix = 0x0BA7,
            TextureMatrix = 0x0BA8,
            AlphaTestFunc = 0x0BC1,
            AlphaTestRef = 0x0BC2,
            BlendDst = 0x0BE0,
            BlendSrc = 0x0BE1,
            LogicOpMode = 0x0BF0,
            ScissorBox = 0x0C10,
            ColorClearValue = 0x0C22,
            ColorWriteMask = 0x0C23,
            UnpackAlignment = 0x0CF5,
            PackAlignment = 0x0D05,
            MaxLights = 0x0D31,
            MaxClipPlanes = 0x0D32,
            MaxTextureSize = 0x0D33,
            MaxModelviewStackDepth = 0x0D36,
            MaxProjectionStackDepth = 0x0D38,
            MaxTextureStackDepth = 0x0D39,
            MaxViewportDims = 0x0D3A,
            SubpixelBits = 0x0D50,
            RedBits = 0x0D52,
            GreenBits = 0x0D53,
            BlueBits = 0x0D54,
            AlphaBits = 0x0D55,
            DepthBits = 0x0D56,
            StencilBits = 0x0D57,
            TextureBinding2D = 0x8069,
            ActiveTexture = 0x84E0,
            ClientActiveTexture = 0x84E1,
            MaxTextureUnits = 0x84E2,
            ArrayBufferBinding = 0x8894,
            ElementArrayBufferBinding = 0x8895,
        )
    };
}

impl Query {
    /// The value with this code.
    pub fn from_code(code: u32) -> Option<Self>
        ensures value { result ≡ from_code_of code }
        ensures exact { (query : Query) → (result ≡ Some query) ↔ (code_of query ≡ code) }
    {
        table!(read, code)
    }

    /// The code of the value.
    pub fn code(self) -> u32
        ensures value { result ≡ code_of self }
        ensures back { from_code_of result ≡ Some self }
    {
        table!(written, self)
    }
}
