use gl_tokens::{CombineFunc, CombineOperand, CombineSource};

/// How a combining texture environment makes the colour, or the alpha, of its arguments (OpenGL ES 1.1.12, 3.7.12).
/// The state of the commands makes it.
#[derive(Clone, Copy, Debug, PartialEq, Eq)]
pub struct Combine {
    /// What is done with the arguments.
    pub func: CombineFunc,
    /// Where each argument comes from.
    pub sources: [CombineSource; 3],
    /// What is taken of each source.
    pub operands: [CombineOperand; 3],
    /// What the result is multiplied by: 1, 2 or 4.
    pub scale: u8,
}
