//! What commands make of their arguments before they keep them.
ghost use Rattle.std.specs.Prelude.{◌≡◌, IsTrue};
ghost use Rattle.gl_records.specs.VertexState.{IsExponent};
ghost use Rattle.gl_state.specs.Values.{vector as vector_of, word as word_of, low_byte as low_byte_of, low_byte_signed as low_byte_signed_of, in_byte as in_byte_of, is_exponent as is_exponent_of};

use fx_arith::Fx;
use gl_records::Params;

/// The four numbers of a parameter, as a vector or as a colour R G B A.
pub fn vector(values: &Params) -> [Fx; 4]
    ensures { result ≡ vector_of values.now }
{
    [values.0, values.1, values.2, values.3]
}

/// The first of them as a word, where the parameter is a code or a truth value.
pub fn word(values: &Params) -> u32
    ensures { result ≡ word_of values.now }
{
    values.0.0.cast_unsigned()
}

/// The eight low bits of a word.
pub fn low_byte(word: u32) -> u8
    ensures { result ≡ low_byte_of word }
{
    (word % 256) as u8
}

/// The eight low bits of a number with a sign.
pub fn low_byte_signed(number: i32) -> u8
    ensures { result ≡ low_byte_signed_of number }
{
    low_byte(number.cast_unsigned())
}

/// A number, or the end of 0 to 255 that it lies beyond.
pub fn in_byte(number: i32) -> u8
    ensures { result ≡ in_byte_of number }
{
    if number < 0 {
        0
    } else if 255 < number {
        255
    } else {
        number as u8
    }
}

/// Whether this may be an exponent of lighting: 0 to 128.
pub fn is_exponent(exponent: Fx) -> bool
    ensures value { result ≡ is_exponent_of exponent }
    ensures range { IsTrue result → IsExponent exponent }
{
    0 <= exponent.0 && exponent.0 <= 128 * 65536
}
