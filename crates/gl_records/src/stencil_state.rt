use gl_tokens::{Compare, StencilOp};

/// The stencil test, where it is on (OpenGL ES 1.1.12, 4.1.5).
#[derive(Clone, Copy, Debug, PartialEq, Eq)]
pub struct StencilState {
    /// How the reference is compared with the stored value.
    pub func: Compare,
    pub reference: u8,
    /// The bits that are compared.
    pub mask: u8,
    /// The bits that are written.
    pub write: u8,
    /// What becomes of the stored value where the stencil test fails, where the depth test fails, where both pass.
    pub ops: [StencilOp; 3],
}
