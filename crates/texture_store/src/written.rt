use gl_tokens::GlError;

/// What a call answers that writes images or deletes them.
#[derive(Clone, Copy, Debug, PartialEq, Eq)]
pub enum Written {
    /// It is done.
    Done,
    /// The command has this error, and nothing is changed.
    Error(GlError),
    /// A pass names the image's version, and there is no room for another ghost: ghosts take `held` bytes, and the image
    /// has `bytes`.
    Wait { held: u64, bytes: u64 },
    /// The texels are to be copied from the surface.
    Copy,
}
