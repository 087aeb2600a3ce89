use crate::env::Env;
use crate::sampler::Sampler;
use crate::version_id::VersionId;
use gl_tokens::BaseFormat;

/// What one texture unit does to a fragment's colour, where it is on (OpenGL ES 1.1.12, 3.7).
#[derive(Clone, Copy, Debug, PartialEq, Eq)]
pub struct UnitState {
    /// The image that is read.
    pub version: VersionId,
    /// The image's format.
    pub format: BaseFormat,
    pub sampler: Sampler,
    pub env: Env,
}
