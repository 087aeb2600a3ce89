ghost use Rattle.std.specs.Prelude.{◌≡◌};
ghost use Rattle.fx_arith.specs.Matrix.{identity as identity_matrix};

use crate::fx::Fx;

/// A matrix of four rows and four columns, column by column: the entry in row i and column j is number
/// `4 * j + i` (OpenGL ES 1.1.12, 2.10.2).
#[derive(Clone, Copy, Debug, PartialEq, Eq)]
pub struct Mat4(pub [Fx; 16]);

impl Mat4 {
    /// The matrix that changes nothing.
    pub fn identity() -> Mat4
        ensures { result ≡ identity_matrix }
    {
        let (o, i) = (Fx::ZERO, Fx::ONE);
        Mat4([i, o, o, o, o, i, o, o, o, o, i, o, o, o, o, i])
    }
}
