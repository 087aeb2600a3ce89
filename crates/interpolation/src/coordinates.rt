//! The texture coordinates of a unit at a pixel (OpenGL 1.5, 3.5.1; OpenGL ES 1.1.12, 3.7).
use fx_arith::Fx;

/// Coordinates S and T. Where nothing is to be divided by they are 0, and not known.
#[derive(Clone, Copy)]
pub struct Coordinates {
    pub s: Fx,
    pub t: Fx,
    pub known: bool,
}
