//! The commands of the matrix stacks.
ghost use Rattle.std.specs.Prelude.{◌≡◌, OnSome};
ghost use Rattle.gl_state.specs.Transforms.{matrix_of as matrix_given, matrix_mode as matrix_mode_of};

use fx_arith::Mat4;
use gl_records::Columns;
use gl_tokens::{GlError, MatrixMode};
use matrix_stacks::Stacks;

/// The matrix that a command gives, column by column.
pub(crate) fn matrix_of(columns: &Columns) -> Mat4
    ensures { result ≡ matrix_given columns.now }
{
    let Columns(a, b, c, d) = columns;
    Mat4([
        a.0, a.1, a.2, a.3, b.0, b.1, b.2, b.3, c.0, c.1, c.2, c.3, d.0, d.1, d.2, d.3,
    ])
}

/// MatrixMode: InvalidEnum where there is no such mode.
pub(crate) fn matrix_mode(stacks: &mut Stacks, code: u32) -> Option<GlError>
    ensures run { (stacks.new, result) ≡ matrix_mode_of stacks.old code }
    ensures unchanged { OnSome result (stacks.new ≡ stacks.old) }
{
    match MatrixMode::from_code(code) {
        Some(mode) => {
            stacks.set_mode(mode);
            None
        }
        None => Some(GlError::InvalidEnum),
    }
}
