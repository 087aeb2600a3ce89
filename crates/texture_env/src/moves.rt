//! The scale factor rho (OpenGL ES 1.1.12, 3.7, "Texture Minification"), by the coordinates at the pixel and at the next
//! ones.
ghost use Rattle.std.specs.Prelude.{◌≡◌, ℤ, ◌<◌};
ghost use Rattle.gl_records.specs.LevelOfDetail.{moved as moved_along, rho as rho_of};
ghost use Rattle.gl_records.specs.Valid.{IsInRange};
ghost use Rattle.interpolation.specs.Coordinates.{AreCoordinates};
ghost use Rattle.texture_env.specs.Coordinates.{greatest_move as greatest_of, move_between as between};
ghost use Rattle.interpolation.specs.Shares.{AreShares, AreSmall};

use fx_arith::{Fx, span};
use gl_records::{Prim, PrimKind};
use interpolation::{Coordinates, Shares, beyond, coordinates_at, shares_at};

/// Rho of a unit where the corners have these shares and the unit these coordinates, in 1/65536 texel of a level 0 of
/// `w` by `h` texels.
pub fn rho(prim: &Prim, unit: usize, w: u16, h: u16, shares: &Shares, here: Coordinates) -> u64
    requires in_range { IsInRange prim.now }
    requires unit { unit < 2 }
    requires small { AreSmall shares.now }
    ensures { (x y : ℤ) → AreShares shares.now prim.now x y → AreCoordinates here prim.now unit x y
        → result ≡ rho_of prim.now unit w h x y }
{
    if let PrimKind::Point = prim.kind {
        return 0;
    }
    let origin = shares_at(prim, 0, 0);
    let right = beyond(shares, &origin, &shares_at(prim, 1, 0));
    let above = beyond(shares, &origin, &shares_at(prim, 0, 1));
    greatest_move(
        w,
        h,
        here,
        coordinates_at(prim, unit, &right),
        coordinates_at(prim, unit, &above),
    )
}

/// The greatest move from `here` to the next pixels, and 0 where one of the coordinates isn't known.
pub fn greatest_move(
    w: u16,
    h: u16,
    here: Coordinates,
    right: Coordinates,
    above: Coordinates,
) -> u64
    ensures { result ≡ greatest_of w h here right above }
{
    if here.known && right.known && above.known {
        move_between(w, h, here, right).max(move_between(w, h, here, above))
    } else {
        0
    }
}

fn move_between(w: u16, h: u16, from: Coordinates, to: Coordinates) -> u64
    ensures { result ≡ between w h from to }
{
    moved(from.s, to.s, w).max(moved(from.t, to.t, h))
}

/// How far a coordinate moves along a side of `side` texels.
fn moved(from: Fx, to: Fx, side: u16) -> u64
    ensures { result ≡ moved_along from.0 to.0 side }
{
    span(from.0, to.0).unsigned_abs() * u64::from(side)
}
