ghost use Rattle.std.specs.Prelude.{◌≡◌, ◌≢◌, ◌<◌, ◌≤◌, ◌*◌, ◌^◌, ◌+ℤ◌, ◌-ℤ◌, ◌*ℤ◌, pos, unsigned_abs};
ghost use Rattle.fx_arith.specs.Matrix.{entry as entry_of};
ghost use Rattle.matrix_stacks.specs.Eye.{cofactor as cofactor_of, over_determinant as over_determinant_of, determinant as determinant_of, normal_to_eye as normal_to_eye_of, inverse_third_row as inverse_third_row_of, over_length as over_length_of, rescaled_normal, plane_to_eye as plane_to_eye_of, upper_row as upper_row_of, direction_to_eye as direction_to_eye_of};

use crate::normal_matrix::NormalMatrix;
use fx_arith::{Fx, Mat4, div, dot3, floor_quotient_128, product, saturate_wide, sub};

/// The cofactor of row `i` and column `j` in the upper three rows and columns of `m`, exact, in units of
/// 1/65536 squared.
#[tactic(auto, unfolding(crate::specs::Eye::cofactor))]
pub fn cofactor(m: &Mat4, i: usize, j: usize) -> i128
    requires row { i < 3 }
    requires column { j < 3 }
    ensures value { result ≡ cofactor_of m.now i j }
    ensures bound { unsigned_abs result ≤ 2 ^ 63 }
{
    let (i1, i2, j1, j2) = ((i + 1) % 3, (i + 2) % 3, (j + 1) % 3, (j + 2) % 3);
    let along = product(entry(m, i1, j1), entry(m, i2, j2));
    let across = product(entry(m, i1, j2), entry(m, i2, j1));
    difference(along, across)
}

/// The determinant of the upper three rows and columns of `m`, exact, in units of 1/65536 cubed.
#[tactic(auto, unfolding(crate::specs::Eye::determinant))]
pub fn determinant(m: &Mat4) -> i128
    ensures value { result ≡ determinant_of m.now }
    ensures bound { unsigned_abs result ≤ 3 * 2 ^ 94 }
{
    sum(
        times(cofactor(m, 0, 0), entry(m, 0, 0)),
        times(cofactor(m, 0, 1), entry(m, 0, 1)),
        times(cofactor(m, 0, 2), entry(m, 0, 2)),
    )
}

/// The normal `n` in eye coordinates: `n` times the inverse of the upper three rows and columns of
/// `modelview`, rounded down and saturated. Where there is no inverse it stays.
pub fn normal_to_eye(modelview: &Mat4, n: [Fx; 3]) -> [Fx; 3]
    ensures { result ≡ normal_to_eye_of modelview.now n }
{
    NormalMatrix::new(modelview).to_eye(n)
}

/// RESCALE_NORMAL: the normal `n`, in eye coordinates, over the length of the third row of the inverse of the upper three
/// rows and columns of `modelview`, each component rounded down and saturated. It stays where there is no inverse, or where
/// that length is 0.
pub fn rescale_normal(modelview: &Mat4, n: [Fx; 3]) -> [Fx; 3]
    ensures { result ≡ rescaled_normal modelview.now n }
{
    NormalMatrix::new(modelview).rescaled(n)
}

/// The direction `v` in eye coordinates: the upper three rows and columns of `modelview` times `v`, each component rounded
/// down once and saturated.
#[tactic(auto, unfolding(crate::specs::Eye::direction_to_eye))]
pub fn direction_to_eye(modelview: &Mat4, v: [Fx; 3]) -> [Fx; 3]
    ensures { result ≡ direction_to_eye_of modelview.now v }
{
    [
        dot3(upper_row(modelview, 0), v),
        dot3(upper_row(modelview, 1), v),
        dot3(upper_row(modelview, 2), v),
    ]
}

fn upper_row(m: &Mat4, i: usize) -> [Fx; 3]
    requires { i < 3 }
    ensures { result ≡ upper_row_of m.now i }
{
    [entry(m, i, 0), entry(m, i, 1), entry(m, i, 2)]
}

#[tactic(auto, unfolding(crate::specs::Eye::inverse_third_row))]
pub(crate) fn inverse_third_row(m: &Mat4, determinant: i128) -> [Fx; 3]
    requires value { determinant ≡ determinant_of m.now }
    requires inverse { determinant ≢ pos 0 }
    ensures { result ≡ inverse_third_row_of m.now }
{
    [
        over_determinant(times(cofactor(m, 0, 2), Fx::ONE), determinant),
        over_determinant(times(cofactor(m, 1, 2), Fx::ONE), determinant),
        over_determinant(times(cofactor(m, 2, 2), Fx::ONE), determinant),
    ]
}

#[tactic(auto, unfolding(crate::specs::Eye::over_length))]
pub(crate) fn over_length(v: [Fx; 3], length: u64) -> [Fx; 3]
    requires { length < 2 ^ 32 }
    ensures { result ≡ over_length_of v length }
{
    if length == 0 {
        v
    } else {
        let length = length as i64;
        [div(v[0], length), div(v[1], length), div(v[2], length)]
    }
}

/// The plane `a x + b y + c z + d = 0` in eye coordinates: `(a, b, c)` as [`normal_to_eye`] makes it, and `d`
/// less its product with the translation of `modelview`, whose last row is taken as 0 0 0 1.
#[tactic(auto, unfolding(crate::specs::Eye::plane_to_eye))]
pub fn plane_to_eye(modelview: &Mat4, plane: [Fx; 4]) -> [Fx; 4]
    ensures { result ≡ plane_to_eye_of modelview.now plane }
{
    let n = normal_to_eye(modelview, [plane[0], plane[1], plane[2]]);
    let translation = [
        entry(modelview, 0, 3),
        entry(modelview, 1, 3),
        entry(modelview, 2, 3),
    ];
    [n[0], n[1], n[2], sub(plane[3], dot3(n, translation))]
}

fn difference(a: i64, b: i64) -> i128
    requires first { unsigned_abs a ≤ 2 ^ 62 }
    requires second { unsigned_abs b ≤ 2 ^ 62 }
    ensures value { result ≡ a -ℤ b }
    ensures bound { unsigned_abs result ≤ 2 ^ 63 }
{
    i128::from(a) - i128::from(b)
}

pub(crate) fn sum(a: i128, b: i128, c: i128) -> i128
    requires first { unsigned_abs a ≤ 2 ^ 94 }
    requires second { unsigned_abs b ≤ 2 ^ 94 }
    requires third { unsigned_abs c ≤ 2 ^ 94 }
    ensures value { result ≡ a +ℤ b +ℤ c }
    ensures bound { unsigned_abs result ≤ 3 * 2 ^ 94 }
{
    a + b + c
}

pub(crate) fn times(cofactor: i128, a: Fx) -> i128
    requires { unsigned_abs cofactor ≤ 2 ^ 63 }
    ensures value { result ≡ cofactor *ℤ a.0 }
    ensures bound { unsigned_abs result ≤ 2 ^ 94 }
{
    cofactor * i128::from(a.0)
}

#[tactic(auto, unfolding(crate::specs::Eye::over_determinant))]
pub(crate) fn over_determinant(sum: i128, determinant: i128) -> Fx
    requires divisor { determinant ≢ pos 0 }
    requires bound { unsigned_abs sum ≤ 3 * 2 ^ 94 }
    ensures { result.0 ≡ over_determinant_of sum determinant }
{
    saturate_wide(floor_quotient_128(65536 * sum, determinant))
}

fn entry(m: &Mat4, i: usize, j: usize) -> Fx
    requires row { i < 3 }
    requires column { j < 4 }
    ensures { result.0 ≡ entry_of m.now i j }
{
    m.0[4 * j + i]
}
