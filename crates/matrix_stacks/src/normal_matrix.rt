//! What turns the normals of a draw into eye coordinates, prepared once.
ghost use Rattle.std.specs.Prelude.{◌≡◌, ◌≢◌, ◌<◌, ◌≤◌, ◌*◌, ◌^◌, ◌+ℤ◌, ◌*ℤ◌, pos, unsigned_abs};
ghost use Rattle.std.specs.Ordering.{int_eq};
ghost use Rattle.fx_arith.specs.Number.{component};
ghost use Rattle.matrix_stacks.specs.Eye.{determinant as determinant_of, normal_to_eye as normal_to_eye_of, rescale_length as rescale_length_of, rescaled_normal};
ghost use Rattle.matrix_stacks.specs.NormalMatrix.{IsCofactorRow};

use crate::normals::{
    cofactor, determinant, inverse_third_row, over_determinant, over_length, sum, times,
};
use fx_arith::{Fx, Mat4, len3};
use std::marker::Model;

/// A row of cofactors, in units of 1/65536 squared.
#[derive(Clone, Copy)]
pub struct CofactorRow {
    pub x: i128,
    pub y: i128,
    pub z: i128,
}

/// The cofactors and the determinant of the upper three rows and columns of a modelview matrix, and the length that
/// RESCALE_NORMAL divides by. Contracts see it as the matrix.
#[derive(Drop)]
pub struct NormalMatrix {
    modelview: Mat4,
    first: CofactorRow,
    second: CofactorRow,
    third: CofactorRow,
    determinant: i128,
    /// The length of the third row of the inverse in units of 1/65536; 0 where there is no inverse.
    length: u64,
}

impl Model for NormalMatrix {
    ghost use Rattle.fx_arith.specs.declared.mat4.Mat4.{Mat4};
    ghost use Rattle.matrix_stacks.specs.NormalMatrix.{IsNormalMatrix};

    ghost Value = { Mat4 };

    ghost view = { λ m. m.modelview };

    ghost invariant = { λ m. IsNormalMatrix m.modelview m.first m.second m.third m.determinant m.length };
}

impl NormalMatrix {
    pub fn new(modelview: &Mat4) -> NormalMatrix
        ensures { result ≡ modelview.now }
    {
        let determinant = determinant(modelview);
        NormalMatrix {
            modelview: *modelview,
            first: cofactor_row(modelview, 0),
            second: cofactor_row(modelview, 1),
            third: cofactor_row(modelview, 2),
            determinant,
            length: rescale_length(modelview, determinant),
        }
    }

    /// The matrix.
    pub fn modelview(&self) -> &Mat4
        ensures { result.now ≡ self.now }
    {
        &self.modelview
    }

    /// The normal `n` in eye coordinates: `n` times the inverse of the upper three rows and columns, rounded down and
    /// saturated. Where there is no inverse it stays.
    #[tactic(auto, unfolding(crate::specs::Eye::normal_to_eye))]
    pub fn to_eye(&self, n: [Fx; 3]) -> [Fx; 3]
        ensures { result ≡ normal_to_eye_of self.now n }
    {
        if self.has_no_inverse() {
            return n;
        }
        [
            over_determinant(along(&self.first, n), self.determinant),
            over_determinant(along(&self.second, n), self.determinant),
            over_determinant(along(&self.third, n), self.determinant),
        ]
    }

    fn has_no_inverse(&self) -> bool
        ensures { result ≡ int_eq (determinant_of self.now) (pos 0) }
    {
        self.determinant == 0
    }

    /// RESCALE_NORMAL of the normal `n`, in eye coordinates.
    #[tactic(auto, unfolding(crate::specs::Eye::rescaled_normal))]
    pub fn rescaled(&self, n: [Fx; 3]) -> [Fx; 3]
        ensures { result ≡ rescaled_normal self.now n }
    {
        over_length(n, self.length)
    }
}

fn cofactor_row(m: &Mat4, i: usize) -> CofactorRow
    requires { i < 3 }
    ensures { IsCofactorRow m.now i result }
{
    CofactorRow {
        x: cofactor(m, i, 0),
        y: cofactor(m, i, 1),
        z: cofactor(m, i, 2),
    }
}

#[tactic(auto, unfolding(crate::specs::Eye::rescale_length))]
fn rescale_length(m: &Mat4, determinant: i128) -> u64
    requires { determinant ≡ determinant_of m.now }
    ensures value { result ≡ rescale_length_of m.now }
    ensures bound { result < 2 ^ 32 }
{
    if determinant == 0 {
        return 0;
    }
    len3(inverse_third_row(m, determinant))
}

/// A row of cofactors times `v`.
fn along(row: &CofactorRow, v: [Fx; 3]) -> i128
    requires x { unsigned_abs row.now.x ≤ 2 ^ 63 }
    requires y { unsigned_abs row.now.y ≤ 2 ^ 63 }
    requires z { unsigned_abs row.now.z ≤ 2 ^ 63 }
    ensures value { result ≡ row.now.x *ℤ component v 0 +ℤ row.now.y *ℤ component v 1 +ℤ row.now.z *ℤ component v 2 }
    ensures bound { unsigned_abs result ≤ 3 * 2 ^ 94 }
{
    sum(times(row.x, v[0]), times(row.y, v[1]), times(row.z, v[2]))
}
