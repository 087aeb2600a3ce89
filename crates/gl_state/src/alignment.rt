ghost use Rattle.std.specs.Prelude.{◌≡◌, Some, None};
ghost use Rattle.gl_state.specs.Pixels.{alignment, bytes_of};

use gl_tokens::GlError;

/// What the beginning of a row of pixels is a multiple of, in bytes (OpenGL ES 1.1.12, 3.6.1).
#[derive(Clone, Copy, Debug, PartialEq, Eq)]
pub enum Alignment {
    One,
    Two,
    Four,
    Eight,
}

impl Alignment {
    /// The alignment to so many bytes: InvalidValue where they aren't 1, 2, 4 or 8.
    pub fn from_bytes(bytes: u32) -> Result<Alignment, GlError>
        ensures { result ≡ alignment bytes }
    {
        match bytes {
            1 => Ok(Alignment::One),
            2 => Ok(Alignment::Two),
            4 => Ok(Alignment::Four),
            8 => Ok(Alignment::Eight),
            _ => Err(GlError::InvalidValue),
        }
    }

    /// The bytes: 1, 2, 4 or 8.
    pub fn bytes(self) -> u8
        ensures { result ≡ bytes_of self }
    {
        match self {
            Alignment::One => 1,
            Alignment::Two => 2,
            Alignment::Four => 4,
            Alignment::Eight => 8,
        }
    }
}
