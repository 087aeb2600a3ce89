//! Prepared texture coordinates.
use crate::ratio::Ratio;

/// The texture coordinates s and t of a unit, where the third is 1 at each corner.
#[derive(Clone, Copy)]
pub struct UnitRatios {
    pub s: Ratio,
    pub t: Ratio,
}
