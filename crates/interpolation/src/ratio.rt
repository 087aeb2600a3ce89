//! A prepared value of a primitive on a tile: what a sum over the corners is over that of their shares.
use plane_equations::{FixedPlane, Plane};

/// How a value is found at a pixel, rounded down.
#[derive(Clone, Copy)]
pub enum Ratio {
    /// All corners have this one.
    Flat(i32),
    /// By a plane in fixed point, where the divisor is the same all over the tile.
    Fixed(FixedPlane),
    /// The plane of the sum, which is to be divided at each pixel.
    Divided(Plane),
}
