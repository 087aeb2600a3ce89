//! Primitive assembly: which vertices are the corners of which primitive.
//!
//! ```text
//! count(Mode::TriangleStrip, 5) // 3
//! corners(Mode::TriangleStrip, 5, 1) // [2, 1, 3]
//! ```
#![tactic(auto)]

ghost use Rattle.std.specs.Prelude.{◌≡◌, ◌<◌, ◌≤◌, All, Some, length, slice_get};
ghost use Rattle.prim_assembly.specs.Primitives.{primitives};

use gl_tokens::Mode;

/// How many primitives a draw of `n` vertices makes, at most `n`; vertices that make no whole primitive are
/// dropped.
#[tactic(auto, using(crate::proofs::Places::places))]
pub fn count(mode: Mode, n: u32) -> u32
    ensures value { result ≡ length (primitives mode n) }
    ensures bound { result ≤ n }
{
    match mode {
        Mode::Points => n,
        Mode::Lines => n / 2,
        Mode::LineLoop => { if n < 2 { 0 } else { n } }
        Mode::LineStrip => n.saturating_sub(1),
        Mode::Triangles => n / 3,
        Mode::TriangleStrip | Mode::TriangleFan => n.saturating_sub(2),
    }
}

/// The corners of primitive `k`, by the numbers of their vertices. The last is the provoking one. A point has
/// its one vertex three times, and a segment its second vertex twice; a loop's closing segment is its last
/// primitive.
#[tactic(auto, using(crate::proofs::Places::places))]
pub fn corners(mode: Mode, n: u32, k: u32) -> [u32; 3]
    requires { k < length (primitives mode n) }
    ensures value { slice_get (primitives mode n) k ≡ Some result }
    ensures vertices { All (λ corner. corner < n) result }
{
    match mode {
        Mode::Points => [k, k, k],
        Mode::Lines => [2 * k, 2 * k + 1, 2 * k + 1],
        Mode::LineLoop => {
            if k + 1 < n {
                [k, k + 1, k + 1]
            } else {
                [k, 0, 0]
            }
        }
        Mode::LineStrip => [k, k + 1, k + 1],
        Mode::Triangles => [3 * k, 3 * k + 1, 3 * k + 2],
        Mode::TriangleStrip => {
            if k % 2 == 0 {
                [k, k + 1, k + 2]
            } else {
                [k + 1, k, k + 2]
            }
        }
        Mode::TriangleFan => [0, k + 1, k + 2],
    }
}

#[cfg(test)]
mod tests;
