use crate::combine::Combine;
use gl_tokens::EnvMode;

/// How a texture unit puts its texel and the colour of before together (OpenGL ES 1.1.12, 3.7.12).
#[derive(Clone, Copy, Debug, PartialEq, Eq)]
pub struct Env {
    pub mode: EnvMode,
    /// The constant colour, R G B A.
    pub color: [u8; 4],
    /// How colours are combined, and how alphas are, where the mode is to combine.
    pub rgb: Combine,
    pub alpha: Combine,
}
