/// The names of the objects that are bound, 0 where none is.
#[derive(Clone, Copy, Debug, PartialEq, Eq)]
pub struct Bound {
    /// The buffer object that pointers of vertex arrays speak of.
    pub array: u32,
    /// The buffer object that indices are read from.
    pub element: u32,
    /// The texture object of each unit.
    pub textures: [u32; 2],
}
