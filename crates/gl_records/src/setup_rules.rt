use fx_arith::Fx;

/// The state that set-up goes by. The context makes it.
#[derive(Clone, Copy, Debug, PartialEq, Eq)]
pub struct SetupRules {
    /// x, y, width and height in pixels: x and y -4096 to 4096, the sides 0 to 2048.
    pub viewport: [i32; 4],
    /// The depths of the near and the far plane, each 0 to 1.
    pub range: [Fx; 2],
    /// Whether a counterclockwise triangle faces front.
    pub front_ccw: bool,
    /// Where culling is on: whether front and whether back facing triangles are culled.
    pub cull: Option<[bool; 2]>,
    /// Whether a back facing triangle takes its corners' back colours.
    pub two_side: bool,
    /// Where polygon offset is on: factor and units.
    pub offset: Option<[Fx; 2]>,
    /// The point size, 1 to 64 pixels.
    pub point: u16,
    /// The line width, 1 to 16 pixels.
    pub line: u16,
}
