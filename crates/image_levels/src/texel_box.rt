/// Texels of a level, by the lower left one and their columns and rows.
#[derive(Clone, Copy, Debug, PartialEq, Eq)]
pub struct TexelBox {
    /// The first column.
    pub x: u16,
    /// The lowest row.
    pub y: u16,
    /// The columns.
    pub w: u16,
    /// The rows.
    pub h: u16,
}
