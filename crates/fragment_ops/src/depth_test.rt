ghost use Rattle.std.specs.Prelude.{◌≡◌};
ghost use Rattle.gl_records.specs.DepthTest.{depth_passes as passes_depth_test, depth_after as stored_after};

use crate::comparison::passes;
use gl_tokens::Compare;

/// The depth test (OpenGL ES 1.1.12, 4.1.6).
pub fn depth_passes(test: Option<(Compare, bool)>, depth: u32, stored: u32) -> bool
    ensures { result ≡ passes_depth_test test depth stored }
{
    match test {
        Some((comparison, _)) => passes(comparison, depth, stored),
        None => true,
    }
}

/// The stored depth after a fragment that passed.
pub fn depth_after(test: Option<(Compare, bool)>, depth: u32, stored: u32) -> u32
    ensures { result ≡ stored_after test depth stored }
{
    match test {
        Some((_, true)) => depth,
        _ => stored,
    }
}
