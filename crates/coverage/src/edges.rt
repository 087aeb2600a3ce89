ghost use Rattle.std.specs.Prelude.{◌≡◌, ◌≤◌, ◌*◌, ◌^◌, ◌-ℤ◌, ◌*ℤ◌, unsigned_abs};
ghost use Rattle.gl_records.specs.Center.{center as center_of};
ghost use Rattle.gl_records.specs.Coverage.{edge as edge_function};
ghost use Rattle.gl_records.specs.Valid.{IsCornerInRange};

use fx_arith::span;
use gl_records::VertexOut;

/// The edge function of the edge from `a` to `b` at the centre of pixel (x, y).
pub fn edge(a: &VertexOut, b: &VertexOut, x: i32, y: i32) -> i64
    requires start { IsCornerInRange a.now }
    requires end { IsCornerInRange b.now }
    ensures value { result ≡ edge_function a.now b.now (center_of x) (center_of y) }
    ensures small { unsigned_abs result ≤ 2 * 2 ^ 55 }
{
    let across = product(span(a.x, b.x), reach(a.y, y));
    let along = product(span(a.y, b.y), reach(a.x, x));
    across - along
}

/// How far the centre of the pixels of a column or a row lies beyond `a`.
pub(crate) fn reach(a: i32, pixel: i32) -> i64
    ensures value { result ≡ center_of pixel -ℤ a }
    ensures small { unsigned_abs result ≤ 2 ^ 37 }
{
    16 * i64::from(pixel) + 8 - i64::from(a)
}

pub(crate) fn product(run: i64, reach: i64) -> i64
    requires run_small { unsigned_abs run ≤ 2 ^ 18 }
    requires reach_small { unsigned_abs reach ≤ 2 ^ 37 }
    ensures value { result ≡ run *ℤ reach }
    ensures small { unsigned_abs result ≤ 2 ^ 55 }
{
    run * reach
}
