use gl_tokens::{Filter, Wrap};

/// How a texture is read (OpenGL ES 1.1.12, 3.7.4).
#[derive(Clone, Copy, Debug, PartialEq, Eq)]
pub struct Sampler {
    /// The filter where the texture is magnified: nearest or linear.
    pub mag: Filter,
    /// The filter where it is minified.
    pub min: Filter,
    /// How coordinates wrap, along each side.
    pub wrap_s: Wrap,
    pub wrap_t: Wrap,
}
