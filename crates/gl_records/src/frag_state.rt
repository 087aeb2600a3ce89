use crate::pixel_box::PixelBox;
use crate::stencil_state::StencilState;
use crate::unit_state::UnitState;
use gl_tokens::{BlendFactor, Compare, LogicOp};

/// What happens to the fragments of a primitive, in the order of the fields (OpenGL ES 1.1.12, 3.7, 3.8 and 4.1). The
/// state of the commands makes it, at the moment of the draw. A part is absent where it is off.
#[derive(Clone, Copy, Debug, PartialEq, Eq)]
pub struct FragState {
    pub units: [Option<UnitState>; 2],
    /// The colour of fog, R G B A.
    pub fog: Option<[u8; 4]>,
    /// The pixels that can be drawn.
    pub scissor: Option<PixelBox>,
    /// How alpha is compared, and with what.
    pub alpha: Option<(Compare, u8)>,
    pub stencil: Option<StencilState>,
    /// How depths are compared, and whether they are written.
    pub depth: Option<(Compare, bool)>,
    /// The factors of the source and of the destination. Where a logical operation is on nothing is blended.
    pub blend: Option<(BlendFactor, BlendFactor)>,
    pub logic: Option<LogicOp>,
    /// The components of the colour that are written, R G B A.
    pub mask: [bool; 4],
}
