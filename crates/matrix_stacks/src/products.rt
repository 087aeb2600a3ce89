ghost use Rattle.std.specs.Prelude.{◌≡◌, ◌<◌};
ghost use Rattle.fx_arith.specs.Matrix.{row as row_of, column as column_of};
ghost use Rattle.matrix_stacks.specs.Product.{transformed, product as product_of};

use fx_arith::{Fx, Mat4, dot4};

/// `m` times the column vector `v`: each component is rounded down once and saturated.
#[tactic(auto, unfolding(crate::specs::Product::transformed))]
pub fn transform(m: &Mat4, v: [Fx; 4]) -> [Fx; 4]
    ensures { result ≡ transformed m.now v }
{
    [
        dot4(row(m, 0), v),
        dot4(row(m, 1), v),
        dot4(row(m, 2), v),
        dot4(row(m, 3), v),
    ]
}

/// `a` times `b`.
#[tactic(auto, unfolding(crate::specs::Product::product, crate::specs::Product::transformed))]
pub(crate) fn product(a: &Mat4, b: &Mat4) -> Mat4
    ensures { result ≡ product_of a.now b.now }
{
    let x = transform(a, column(b, 0));
    let y = transform(a, column(b, 1));
    let z = transform(a, column(b, 2));
    let w = transform(a, column(b, 3));
    Mat4([
        x[0], x[1], x[2], x[3], y[0], y[1], y[2], y[3], z[0], z[1], z[2], z[3], w[0], w[1], w[2],
        w[3],
    ])
}

fn row(m: &Mat4, i: usize) -> [Fx; 4]
    requires { i < 4 }
    ensures { result ≡ row_of m.now i }
{
    [m.0[i], m.0[4 + i], m.0[8 + i], m.0[12 + i]]
}

fn column(m: &Mat4, j: usize) -> [Fx; 4]
    requires { j < 4 }
    ensures { result ≡ column_of m.now j }
{
    [m.0[4 * j], m.0[4 * j + 1], m.0[4 * j + 2], m.0[4 * j + 3]]
}
