ghost use Rattle.std.specs.Prelude.{◌≡◌, None};
ghost use Rattle.gl_state.specs.ErrorFlag.{raised, flag_code};

use gl_tokens::GlError;
use std::marker::Model;

/// The error flag (OpenGL ES 1.1.12, 2.5). Contracts see it as the error that it keeps, or none.
#[derive(Clone, Copy, Debug, PartialEq, Eq)]
pub struct ErrorFlag(Option<GlError>);

impl Model for ErrorFlag {
    ghost use Rattle.std.specs.Prelude.{Option};
    ghost use Rattle.gl_tokens.specs.declared.gl_error.GlError.{GlError};

    ghost Value = { Option GlError };

    ghost view = { λ flag. flag.0 };

    ghost inverse = { λ error. record { 0 = error } };
}

impl ErrorFlag {
    /// There was no error.
    pub fn new() -> ErrorFlag
        ensures { result ≡ None }
    {
        ErrorFlag(None)
    }

    /// An error, which is kept if it is the first.
    pub fn raise(&mut self, error: GlError)
        ensures { self.new ≡ raised self.old error }
    {
        if self.0.is_none() {
            self.0 = Some(error);
        }
    }

    /// The code of the error that is kept, 0 where there is none. None is kept after it.
    pub fn take(&mut self) -> u32
        ensures code { result ≡ flag_code self.old }
        ensures taken { self.new ≡ None }
    {
        match self.0.take() {
            Some(error) => error.code(),
            None => 0,
        }
    }
}
