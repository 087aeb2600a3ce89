//! How much a line's ends count at a pixel.
ghost use Rattle.std.specs.Prelude.{◌≡◌, [], ◌∷◌, ◌≤◌, ◌^◌, ◌-ℤ◌, ◌*ℤ◌, unsigned_abs};
ghost use Rattle.std.specs.Int.{int_signum};
ghost use Rattle.gl_records.specs.Center.{center as center_of};
ghost use Rattle.gl_records.specs.LineCoverage.{end_weight, line_weight};

use crate::edges::reach;
use crate::line::is_x_major;
use fx_arith::span;
use gl_records::VertexOut;

/// The weights of the corners of the line from `a` to `b` at the centre of pixel (x, y): its ends count by how far
/// the other end is along the major axis, in units of 1/16 pixel.
pub fn line_weights(a: &VertexOut, b: &VertexOut, x: i32, y: i32) -> [i64; 3]
    ensures { result ≡ line_weight a.now b.now 0 x y ∷ line_weight a.now b.now 1 x y ∷ line_weight a.now b.now 2 x y ∷ [] }
{
    if is_x_major(a, b) {
        end_weights(a.x, b.x, x)
    } else {
        end_weights(a.y, b.y, y)
    }
}

/// The weights by the ends' places along the major axis, at the centre of pixel `along`.
fn end_weights(start: i32, end: i32, along: i32) -> [i64; 3]
    ensures { result
        ≡ end_weight 0 start end (center_of along)
        ∷ end_weight 1 start end (center_of along)
        ∷ end_weight 2 start end (center_of along)
        ∷ [] }
{
    let run = span(start, end);
    [
        directed(run, -reach(end, along)),
        directed(run, reach(start, along)),
        0,
    ]
}

/// The distance, by the direction of the run.
fn directed(run: i64, distance: i64) -> i64
    requires { unsigned_abs distance ≤ 2 ^ 37 }
    ensures { result ≡ int_signum run *ℤ distance }
{
    if 0 < run {
        distance
    } else if run < 0 {
        -distance
    } else {
        0
    }
}
