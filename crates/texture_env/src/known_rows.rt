//! The coordinates of a unit and how far they move along a row of a tile, by lines that hold all of it.
ghost use Rattle.std.specs.Prelude.{◌≡◌, ℕ, ◌+◌, ◌<◌, ◌≤◌, slice_index};
ghost use Rattle.fx_arith.specs.Number.{component};
ghost use Rattle.texture_env.specs.Coordinates.{greatest_move as greatest_of};
ghost use Rattle.texture_env.specs.Lines.{known_at};

use crate::moves::greatest_move;
use crate::unit_line::UnitLine;
use fx_arith::Fx;
use interpolation::Coordinates;

/// The coordinates of the line in all columns of a tile.
pub fn known_coordinate_row(line: &UnitLine, s: &mut [Fx; 16], t: &mut [Fx; 16])
    ensures s { (i : ℕ) → i < 16 → component s.new i ≡ component line.now.s i }
    ensures t { (i : ℕ) → i < 16 → component t.new i ≡ component line.now.t i }
{
    for i in 0..16 {
        s[i] = line.s[i];
        t[i] = line.t[i];
    }
}

/// The greatest move from each pixel of a row to the next ones, in 1/65536 texel of a level of `w` by `h` texels, by the
/// line of the row and the line of the row above.
pub fn known_move_row(here: &UnitLine, above: &UnitLine, w: u16, h: u16, moves: &mut [u64; 16])
    ensures { (i : ℕ) → i < 16
        → slice_index moves.new i ≡ greatest_of w h (known_at here.now i) (known_at here.now (i + 1)) (known_at above.now i) }
{
    for i in 0..16 {
        moves[i] = greatest_move(
            w,
            h,
            known_coordinates(here, i),
            known_coordinates(here, i + 1),
            known_coordinates(above, i),
        );
    }
}

/// The coordinates of the line in a column.
#[inline(always)]
fn known_coordinates(line: &UnitLine, column: usize) -> Coordinates
    requires { column ≤ 16 }
    ensures { result ≡ known_at line.now column }
{
    Coordinates {
        s: line.s[column],
        t: line.t[column],
        known: true,
    }
}
