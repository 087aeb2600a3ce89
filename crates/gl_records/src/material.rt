use fx_arith::Fx;

/// The material of later vertices (OpenGL ES 1.1.12, 2.12.1). The state of the commands makes it. Colours are R G B A
/// and not clamped.
#[derive(Clone, Copy, Debug, PartialEq, Eq)]
pub struct Material {
    pub ambient: [Fx; 4],
    pub diffuse: [Fx; 4],
    pub specular: [Fx; 4],
    pub emission: [Fx; 4],
    /// The exponent of specular reflection, 0 to 128.
    pub shininess: Fx,
}
