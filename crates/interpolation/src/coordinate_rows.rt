//! The texture coordinates of a unit along a row of a tile, by loops of which each has one way to find them.
ghost use Rattle.std.specs.Prelude.{◌≡◌, ℕ, ℤ, ◌<◌, ◌≤◌, true, unsigned_abs};
ghost use Rattle.fx_arith.specs.Number.{component, floor_div, nearest_fixed};
ghost use Rattle.plane_equations.specs.FixedPlanes.{fixed_at};
ghost use Rattle.plane_equations.specs.Planes.{plane_at};
ghost use Rattle.interpolation.specs.Rows.{AreDivisors};

use crate::spot::Spot;
use fx_arith::{Fx, saturate};
use plane_equations::{FixedPlane, Plane, Reciprocal};

/// The same value in the columns from `from` up to but not including `to`.
pub fn flat_row(value: i32, from: usize, to: usize, values: &mut [Fx; 17])
    requires { to ≤ 17 }
    ensures { (i : ℕ) → from ≤ i → i < to → component values.new i ≡ nearest_fixed value }
{
    let value = widened(value);
    for i in from..to {
        values[i] = value;
    }
}

fn widened(value: i32) -> Fx
    ensures { result.0 ≡ nearest_fixed value }
{
    saturate(i64::from(value))
}

/// The values of a plane in fixed point.
pub fn fixed_row(plane: FixedPlane, row: u16, from: usize, to: usize, values: &mut [Fx; 17])
    requires row { row ≤ 16 }
    requires to { to ≤ 17 }
    ensures { (i : ℕ) → from ≤ i → i < to → component values.new i ≡ nearest_fixed (fixed_at plane i row) }
{
    for i in from..to {
        values[i] = fixed_value(&plane, i as u16, row);
    }
}

fn fixed_value(plane: &FixedPlane, column: u16, row: u16) -> Fx
    requires column { column ≤ 16 }
    requires row { row ≤ 16 }
    ensures { result.0 ≡ nearest_fixed (fixed_at plane.now column row) }
{
    saturate(plane.at(column, row))
}

/// The values of a plane, each divided by what sums are divided by there. Where a reciprocal isn't there the answer is
/// no.
pub fn divided_row(
    plane: Plane,
    spots: &[Spot; 17],
    row: u16,
    from: usize,
    to: usize,
    values: &mut [Fx; 17],
) -> bool
    requires row { row ≤ 16 }
    requires to { to ≤ 17 }
    ensures { (divisor : ℕ → ℤ) → AreDivisors divisor from to spots.now → result ≡ true
        → (i : ℕ) → from ≤ i → i < to → component values.new i ≡ nearest_fixed (floor_div (plane_at plane i row) (unsigned_abs (divisor i))) }
{
    for i in from..to {
        let by = spots[i].by;
        match by {
            Some(by) => values[i] = divided_value(&plane, &by, i as u16, row),
            None => return false,
        }
    }
    true
}

fn divided_value(plane: &Plane, by: &Reciprocal, column: u16, row: u16) -> Fx
    requires column { column ≤ 16 }
    requires row { row ≤ 16 }
    ensures { result.0 ≡ nearest_fixed (floor_div (plane_at plane.now column row) (unsigned_abs by.now.divisor)) }
{
    saturate(by.floor_quotient(plane.at(column, row)))
}
