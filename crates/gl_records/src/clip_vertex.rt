use fx_arith::Fx;

/// A vertex in clip coordinates (OpenGL ES 1.1.12, 2.10). The vertex stage makes it, and set-up uses it up.
#[derive(Clone, Copy, Debug, Default, PartialEq, Eq)]
pub struct ClipVertex {
    /// x y z w.
    pub clip: [Fx; 4],
    /// The distance from the user's clip plane.
    pub plane: Fx,
    /// The colour seen from the front, R G B A.
    pub front: [Fx; 4],
    /// The colour seen from behind, R G B A.
    pub back: [Fx; 4],
    /// Texture coordinates s, t and q of both units.
    pub tex: [[Fx; 3]; 2],
    /// The fog factor.
    pub fog: Fx,
}
