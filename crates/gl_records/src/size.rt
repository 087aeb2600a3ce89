/// The greatest side of a surface, in pixels.
pub const GREATEST_SIDE: u16 = 1024;

/// The sides of a surface, each 1 to [`GREATEST_SIDE`] pixels.
#[derive(Clone, Copy, Debug, PartialEq, Eq)]
pub struct Size {
    pub w: u16,
    pub h: u16,
}
