ghost use Rattle.std.specs.Prelude.{◌≡◌};
ghost use Rattle.gl_records.specs.AlphaTest.{alpha_passes as passes_alpha_test};

use crate::comparison::passes;
use gl_tokens::Compare;

/// The alpha test (OpenGL ES 1.1.12, 4.1.4).
pub fn alpha_passes(test: Option<(Compare, u8)>, alpha: u8) -> bool
    ensures { result ≡ passes_alpha_test test alpha }
{
    match test {
        Some((comparison, reference)) => passes(comparison, u32::from(alpha), u32::from(reference)),
        None => true,
    }
}
