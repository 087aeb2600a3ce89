use gl_records::ClipVertex;

/// A vertex of a draw by its element of the arrays, with its own colours.
#[derive(Clone, Copy)]
pub struct KnownVertex {
    pub index: u32,
    pub vertex: ClipVertex,
}

/// The vertices of a primitive. Of the next one most are often among them.
#[derive(Clone, Copy)]
pub struct KnownVertices {
    pub first: KnownVertex,
    pub second: KnownVertex,
    pub third: KnownVertex,
}
