use fx_arith::Fx;

/// A light that is on (OpenGL ES 1.1.12, 2.12.1). The state of the commands makes it. Colours are R G B A and not clamped.
#[derive(Clone, Copy, Debug, PartialEq, Eq)]
pub struct Light {
    pub ambient: [Fx; 4],
    pub diffuse: [Fx; 4],
    pub specular: [Fx; 4],
    /// x y z w in eye coordinates; a w of 0 makes it a direction.
    pub position: [Fx; 4],
    /// The direction of the spotlight in eye coordinates.
    pub direction: [Fx; 3],
    /// The exponent of the spotlight, 0 to 128.
    pub exponent: Fx,
    /// The angle between the spotlight's direction and its edge in degrees, 0 to 90, or 180 where it is no spotlight.
    pub cutoff: Fx,
    /// The constant, the linear and the quadratic attenuation, none below 0.
    pub attenuation: [Fx; 3],
}
