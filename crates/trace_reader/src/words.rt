//! The words of a payload as fields of a record, and the fields as words.
ghost use Rattle.std.specs.Prelude.{◌≡◌, ◌≤◌, ◌<◌, ◌+◌, ◌==◌, [], ◌∷◌, not, slice_index, if◌then◌else◌};
ghost use Rattle.std.specs.Int.{w32, cast_signed, cast_unsigned, from_le_bytes, to_le_bytes};
ghost use Rattle.trace_reader.specs.Command.{columns as columns_of, params as params_of};

use fx_arith::Fx;
use gl_records::{Columns, Params};

/// The words that a payload begins with; a byte past its end is 0.
pub type Words = [u32; 16];

/// A word as a number with a sign.
pub fn signed(word: u32) -> i32
    ensures { result ≡ cast_signed w32 word }
{
    word.cast_signed()
}

/// A word as a GLfixed.
pub fn fixed(word: u32) -> Fx
    ensures { result.0 ≡ cast_signed w32 word }
{
    Fx(word.cast_signed())
}

/// Four words from a place on as the four numbers of a parameter.
pub fn params(n: &Words, place: usize) -> Params
    requires { place + 4 ≤ 16 }
    ensures { result ≡ params_of n.now place }
{
    Params(
        fixed(n[place]),
        fixed(n[place + 1]),
        fixed(n[place + 2]),
        fixed(n[place + 3]),
    )
}

/// The sixteen words as the columns of a matrix.
pub fn columns(n: &Words) -> Columns
    ensures { result ≡ columns_of n.now }
{
    Columns(params(n, 0), params(n, 4), params(n, 8), params(n, 12))
}

/// A word as a truth value: each word but 0 is true.
pub fn truth(word: u32) -> bool
    ensures { result ≡ not (word == 0) }
{
    word != 0
}

/// One of the four bytes of a word, the lowest first.
pub fn byte(word: u32, place: usize) -> u8
    requires { place < 4 }
    ensures { result ≡ slice_index (to_le_bytes w32 word) place }
{
    word.to_le_bytes()[place]
}

/// A number with a sign as a word.
pub fn signed_word(number: &i32) -> u32
    ensures word { result ≡ cast_unsigned w32 number.now }
    ensures back { cast_signed w32 result ≡ number.now }
{
    number.cast_unsigned()
}

/// A GLfixed as a word.
pub fn fixed_word(number: &Fx) -> u32
    ensures word { result ≡ cast_unsigned w32 number.now.0 }
    ensures back { cast_signed w32 result ≡ number.now.0 }
{
    number.0.cast_unsigned()
}

/// A truth value as a word, 0 or 1.
pub fn truth_word(flag: &bool) -> u32
    ensures word { result ≡ (if flag.now then 1 else 0) }
    ensures back { not (result == 0) ≡ flag.now }
{
    u32::from(*flag)
}

/// Four bytes as a word, the lowest first.
pub fn bytes_word(first: &u8, second: &u8, third: &u8, fourth: &u8) -> u32
    ensures word { result ≡ from_le_bytes w32 (first.now ∷ second.now ∷ third.now ∷ fourth.now ∷ []) }
    ensures back { to_le_bytes w32 result ≡ first.now ∷ second.now ∷ third.now ∷ fourth.now ∷ [] }
{
    u32::from_le_bytes([*first, *second, *third, *fourth])
}
