ghost use Rattle.std.specs.Prelude.{◌≡◌, ℕ, ℤ, pos, ◌+◌, ◌-ℤ◌, ◌<◌, not, slice_index, if◌then◌else◌};
ghost use Rattle.std.specs.Int.{bit_at};
ghost use Rattle.gl_records.specs.Coverage.{covers, owns as owns_centers};
ghost use Rattle.gl_records.specs.Valid.{IsInRange};

use crate::line::line_rows;
use crate::point::point_rows;
use crate::triangle::{steps, triangle_rows};
use gl_records::{Prim, PrimKind, TileRect};

/// Which pixels of a tile the primitive covers: bit i of row r is for pixel (x0 + i, y0 + r) (OpenGL ES 1.1.12,
/// 3.3 and 3.4; OpenGL 1.5, 3.5.1).
pub fn rows(p: &Prim, tile: TileRect) -> [u16; 16]
    requires { IsInRange p.now }
    ensures exact { (r i : ℕ) → r < 16 → i < 16
        → bit_at (slice_index result r) i
        ≡ (if covers p.now (pos (tile.x0 + i)) (pos (tile.y0 + r)) then 1 else 0) }
    // of an edge's two directions exactly one owns the centres on it
    ensures owns { (dx dy : ℤ) → ¬ ((dx ≡ pos 0) × (dy ≡ pos 0))
        → owns_centers dx dy ≡ not (owns_centers (pos 0 -ℤ dx) (pos 0 -ℤ dy)) }
{
    let [a, b, c] = &p.verts;
    match p.kind {
        PrimKind::Triangle => {
            triangle_rows(steps(b, c, tile), steps(c, a, tile), steps(a, b, tile))
        }
        PrimKind::Line => line_rows(a, b, p.width, tile),
        PrimKind::Point => point_rows(a, p.width, tile),
    }
}
