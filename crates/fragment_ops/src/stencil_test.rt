ghost use Rattle.std.specs.Prelude.{◌≡◌};
ghost use Rattle.gl_records.specs.StencilTest.{stencil_passes as passes_stencil_test, operated as operated_value, written as written_value, stencil_after as stored_after, stencil_fails, depth_fails, both_pass};

use crate::comparison::passes;
use gl_records::StencilState;
use gl_tokens::StencilOp;

/// The stencil test (OpenGL ES 1.1.12, 4.1.5).
pub fn stencil_passes(test: &Option<StencilState>, stored: u8) -> bool
    ensures { result ≡ passes_stencil_test test.now stored }
{
    match test {
        Some(test) => passes(
            test.func,
            u32::from(test.reference & test.mask),
            u32::from(stored & test.mask),
        ),
        None => true,
    }
}

/// The stored value after a fragment that failed the test.
pub fn after_stencil_fail(test: &Option<StencilState>, stored: u8) -> u8
    ensures { result ≡ stored_after test.now stencil_fails stored }
{
    match test {
        Some(test) => written(
            test.write,
            operated(test.ops[0], test.reference, stored),
            stored,
        ),
        None => stored,
    }
}

/// The stored value after a fragment that passed the test and failed the depth test.
pub fn after_depth_fail(test: &Option<StencilState>, stored: u8) -> u8
    ensures { result ≡ stored_after test.now depth_fails stored }
{
    match test {
        Some(test) => written(
            test.write,
            operated(test.ops[1], test.reference, stored),
            stored,
        ),
        None => stored,
    }
}

/// The stored value after a fragment that passed both tests.
pub fn after_both_pass(test: &Option<StencilState>, stored: u8) -> u8
    ensures { result ≡ stored_after test.now both_pass stored }
{
    match test {
        Some(test) => written(
            test.write,
            operated(test.ops[2], test.reference, stored),
            stored,
        ),
        None => stored,
    }
}

/// What an operation makes of a stored value.
fn operated(operation: StencilOp, reference: u8, stored: u8) -> u8
    ensures { result ≡ operated_value operation reference stored }
{
    match operation {
        StencilOp::Zero => 0,
        StencilOp::Invert => stored ^ 0xff,
        StencilOp::Keep => stored,
        StencilOp::Replace => reference,
        StencilOp::Increment => stored.saturating_add(1),
        StencilOp::Decrement => stored.saturating_sub(1),
    }
}

/// The stored value, with the bits of the mask taken from the new one.
fn written(mask: u8, value: u8, stored: u8) -> u8
    ensures { result ≡ written_value mask value stored }
{
    (stored & (mask ^ 0xff)) | (value & mask)
}
