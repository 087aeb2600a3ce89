//! A linear function of the place within a tile.
ghost use Rattle.std.specs.Prelude.{◌^◌};
ghost use Rattle.plane_equations.specs.Within.{IsWithin};

/// A linear function of the place within a tile: its value at the lower left pixel, and how much it grows from a column
/// to the next and from a row to the next.
#[derive(Clone, Copy)]
pub struct Plane {
    pub origin: i64,
    pub right: i64,
    pub up: i64,
    ghost within: { IsWithin (2 ^ 61) origin right up },
}
