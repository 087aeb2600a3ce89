/// Which levels of an image are read, and how: one level, or two that are blended (OpenGL ES 1.1.12, 3.7, "Texture
/// Minification").
#[derive(Clone, Copy, Debug, PartialEq, Eq)]
pub struct LevelChoice {
    /// Whether four texels of a level are weighted; else the nearest is taken.
    pub linear: bool,
    /// The level, or the first of the two.
    pub level: u8,
    /// How much the level after it counts, in 1/256; where it is 0, that level isn't read.
    pub weight: u8,
}
