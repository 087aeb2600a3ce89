ghost use Rattle.std.specs.Prelude.{◌≡◌, ◌≤◌, ◌*◌, false, true};
ghost use Rattle.trace_reader.specs.Shape.{words_of, allows as allows_length, has_piece};

/// How long a command's payload is.
#[derive(Clone, Copy, Debug, PartialEq, Eq)]
pub enum Shape {
    /// So many words of 32 bits.
    Exactly(u8),
    /// So many words of 32 bits, and then bytes of any number: the piece.
    AtLeast(u8),
    /// A list of words of 32 bits, of any number. Its bytes are the piece.
    Words,
}

impl Shape {
    /// How many words the payload begins with, before its piece.
    pub fn words(self) -> u8
        ensures { result ≡ words_of self }
    {
        match self {
            Shape::Exactly(words) => words,
            Shape::AtLeast(words) => words,
            Shape::Words => 0,
        }
    }

    /// Whether a payload may have this many bytes.
    pub fn allows(self, length: u32) -> bool
        ensures allows { result ≡ allows_length self length }
        ensures words { result ≡ true → 4 * words_of self ≤ length }
        ensures piece { result ≡ true → has_piece self ≡ false → length ≡ 4 * words_of self }
    {
        match self {
            Shape::Exactly(words) => length == 4 * u32::from(words),
            Shape::AtLeast(words) => length >= 4 * u32::from(words),
            Shape::Words => length % 4 == 0,
        }
    }
}
