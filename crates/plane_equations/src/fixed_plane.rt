//! The quotient of a linear function by one number, in fixed point.
use crate::plane::Plane;

/// A linear function's quotient by one number, rounded down: a linear function with 37 fraction bits.
#[derive(Clone, Copy)]
pub struct FixedPlane {
    pub scaled: Plane,
}
