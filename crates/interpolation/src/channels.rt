//! A prepared colour.
use crate::ratio::Ratio;

/// The components of the colour.
#[derive(Clone, Copy)]
pub struct Channels {
    pub red: Ratio,
    pub green: Ratio,
    pub blue: Ratio,
    pub alpha: Ratio,
}

/// How a primitive's colour before texturing is found on a tile.
#[derive(Clone, Copy)]
pub enum Color {
    /// The corners all have this one, R G B A.
    One([u8; 4]),
    /// Each component by itself.
    Smooth(Channels),
    /// By the corners' shares at each pixel.
    Plain,
}
