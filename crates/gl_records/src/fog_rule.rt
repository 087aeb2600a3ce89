use fx_arith::Fx;
use gl_tokens::FogMode;

/// How fog grows with the distance from the eye (OpenGL ES 1.1.12, 3.8). The state of the commands makes it.
#[derive(Clone, Copy, Debug, PartialEq, Eq)]
pub struct FogRule {
    pub mode: FogMode,
    /// Of both exponential modes, at least 0.
    pub density: Fx,
    /// The distances between which linear fog grows.
    pub start: Fx,
    pub end: Fx,
}
