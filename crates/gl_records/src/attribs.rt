use fx_arith::Fx;

/// What the arrays and the current values give one vertex (OpenGL ES 1.1.12, 2.7 and 2.8). Fetching makes it,
/// and the vertex stage uses it up.
#[derive(Clone, Copy, Debug, PartialEq, Eq)]
pub struct Attribs {
    /// x y z w.
    pub pos: [Fx; 4],
    /// x y z.
    pub normal: [Fx; 3],
    /// R G B A, not clamped.
    pub color: [Fx; 4],
    /// Texture coordinates s t r q of both units.
    pub tex: [[Fx; 4]; 2],
}
