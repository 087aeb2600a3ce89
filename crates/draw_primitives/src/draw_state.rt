use gl_records::{Attribs, SetupRules};
use vertex_stage::Stage;

/// The state that a draw fixes at its moment, for all of its vertices and primitives. The context makes it.
#[derive(Drop)]
pub struct DrawState {
    /// How vertices are transformed.
    pub vertex: Stage,
    /// What a vertex takes where no array gives it.
    pub current: Attribs,
    /// Whether each primitive has the colours of its last corner (OpenGL ES 1.1.12, 2.12.7).
    pub flat: bool,
    /// How primitives are set up.
    pub rules: SetupRules,
}
