ghost use Rattle.std.specs.Prelude.{◌≡◌};
ghost use Rattle.gl_records.specs.Comparison.{passes as passes_against};

use gl_tokens::Compare;

/// Whether what comes in passes against the other value (OpenGL ES 1.1.12, 4.1.4 to 4.1.6).
pub fn passes(comparison: Compare, incoming: u32, other: u32) -> bool
    ensures { result ≡ passes_against comparison incoming other }
{
    match comparison {
        Compare::Never => false,
        Compare::Less => incoming < other,
        Compare::Equal => incoming == other,
        Compare::LessOrEqual => incoming <= other,
        Compare::Greater => other < incoming,
        Compare::NotEqual => incoming != other,
        Compare::GreaterOrEqual => other <= incoming,
        Compare::Always => true,
    }
}
