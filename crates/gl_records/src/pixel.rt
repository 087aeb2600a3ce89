/// The depth of the far plane, and the greatest that there is: depths have 24 bits.
pub const GREATEST_DEPTH: u32 = 16777215;

/// One pixel of a surface.
#[derive(Clone, Copy, Debug, PartialEq, Eq)]
pub struct Pixel {
    /// The colour, R G B A.
    pub rgba: [u8; 4],
    /// The depth, 0 to [`GREATEST_DEPTH`].
    pub z: u32,
    /// The stencil value.
    pub s: u8,
}

impl Pixel {
    /// A pixel of the surface before anything is drawn: colour 0, the greatest depth, stencil 0.
    pub const OPENING: Pixel = Pixel {
        rgba: [0; 4],
        z: GREATEST_DEPTH,
        s: 0,
    };
}
