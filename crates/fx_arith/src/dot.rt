ghost use Rattle.std.specs.Prelude.{◌≡◌, ◌≤◌, ◌*◌, ◌^◌, ◌+ℤ◌, unsigned_abs};
ghost use Rattle.fx_arith.specs.Number.{dot3 as dot3_of, dot4 as dot4_of, fixed_of_products};

use crate::arithmetic::product;
use crate::fx::{Fx, saturate_wide};

/// The inner product of two vectors: the products are added exactly, the sum is rounded down once and
/// saturated.
pub fn dot3(a: [Fx; 3], b: [Fx; 3]) -> Fx
    ensures { result.0 ≡ dot3_of a b }
{
    narrow(sum3(
        product(a[0], b[0]),
        product(a[1], b[1]),
        product(a[2], b[2]),
    ))
}

/// [`dot3`] of vectors of four.
pub fn dot4(a: [Fx; 4], b: [Fx; 4]) -> Fx
    ensures { result.0 ≡ dot4_of a b }
{
    let (x, y) = (product(a[0], b[0]), product(a[1], b[1]));
    let (z, w) = (product(a[2], b[2]), product(a[3], b[3]));
    narrow(sum4(x, y, z, w))
}

fn sum3(x: i64, y: i64, z: i64) -> i128
    ensures value { result ≡ x +ℤ y +ℤ z }
    ensures bound { unsigned_abs result ≤ 3 * 2 ^ 63 }
{
    i128::from(x) + i128::from(y) + i128::from(z)
}

fn sum4(x: i64, y: i64, z: i64, w: i64) -> i128
    ensures { result ≡ x +ℤ y +ℤ z +ℤ w }
{
    sum3(x, y, z) + i128::from(w)
}

/// A sum of products as a GLfixed.
fn narrow(products: i128) -> Fx
    ensures { result.0 ≡ fixed_of_products products }
{
    saturate_wide(products >> 16)
}
