/// A fragment: what a primitive brings to one pixel that it covers (OpenGL ES 1.1.12, 4.1). Whatever shades the
/// primitive makes it, and the pixel's step uses it up.
#[derive(Clone, Copy, Debug, PartialEq, Eq)]
pub struct Frag {
    /// The colour behind texturing and fog, R G B A.
    pub rgba: [u8; 4],
    /// The depth, 0 to [`crate::GREATEST_DEPTH`].
    pub z: u32,
}
