//! What sums over the corners are divided by, over a tile.
use plane_equations::{Plane, Reciprocal};

/// The plane of the divisor, and its reciprocal where it is the same at all pixels.
#[derive(Clone, Copy)]
pub struct Divisor {
    pub plane: Plane,
    pub steady: Option<Reciprocal>,
}
