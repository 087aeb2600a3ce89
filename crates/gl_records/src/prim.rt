use crate::pixel_box::PixelBox;

/// A corner of a primitive in window coordinates (OpenGL ES 1.1.12, 2.10.1).
#[derive(Clone, Copy, Debug, PartialEq, Eq)]
pub struct VertexOut {
    /// The place in units of 1/16 pixel, from the lower left; a pixel's centre is 8 units in.
    pub x: i32,
    pub y: i32,
    /// The depth, before it is clamped to 0 to 16777215 at a pixel.
    pub z: i32,
    /// 2^31 times one over the clip coordinate w, by which values are weighted.
    pub q: u32,
    /// The colour, R G B A.
    pub rgba: [u8; 4],
    /// Texture coordinates s, t and q of both units, each a GLfixed.
    pub tex: [[i32; 3]; 2],
    /// The fog factor, a GLfixed.
    pub fog: i32,
}

/// What a primitive's corners span (OpenGL ES 1.1.12, 3.3 to 3.5).
#[derive(Clone, Copy, Debug, PartialEq, Eq)]
pub enum PrimKind {
    Point,
    Line,
    Triangle,
}

/// A primitive after set-up, ready to be rasterised. A point's three corners are equal, a line's third
/// equals its second, and a triangle's run counterclockwise.
#[derive(Clone, Copy, Debug, PartialEq, Eq)]
pub struct Primitive {
    pub kind: PrimKind,
    pub verts: [VertexOut; 3],
    /// A point's size or a line's width in pixels.
    pub width: u16,
    /// Holds each pixel of the surface that the primitive covers.
    pub bounds: PixelBox,
}

/// The primitive's short name, for signatures. The prover has a name `Prim` of its own, so the type itself
/// cannot have it.
pub type Prim = Primitive;
