ghost use Rattle.std.specs.Prelude.{◌≡◌};
ghost use Rattle.std.specs.Borrow.{Lends, sem, Array, u32 as word_row};
ghost use Rattle.gl_records.specs.Texels.{with_texels};
ghost use Rattle.gl_records.specs.contracts.texels.Texels.{the_row};

use std::marker::Model;

/// Texels of an image, R G B A: the lowest byte of a word is R, the highest is A. They are made of a command's
/// bytes, and a level keeps them; contracts see them as a list.
#[derive(Drop)]
pub struct Texels {
    items: Vec<u32>,
}

impl Model for Texels {
    ghost use Rattle.std.specs.Prelude.{ℕ, List};

    ghost Value = { List ℕ };

    ghost view = { λ texels. texels.items.items };
}

impl Texels {
    /// The texels that a vector holds; none is copied.
    pub fn new(items: Vec<u32>) -> Texels
        ensures { result ≡ items.items }
    {
        Texels { items }
    }

    /// All of the texels.
    pub fn as_slice(&self) -> &[u32]
        ensures { result.now ≡ self.now }
    {
        self.items.as_slice()
    }

    /// All of the texels, to be written; none comes or goes.
    pub fn as_mut_slice(&mut self) -> &mut [u32]
        ensures* lends { sem 𝓛 (Lends the_row (Array word_row 0) self.entry result (with_texels self.entry.now)) }
        ensures value { result.now ≡ self.old }
    {
        self.items.as_mut_slice()
    }

    /// The texels in a vector; none is copied.
    pub fn into_vec(self) -> Vec<u32>
        ensures { result.items ≡ self }
    {
        self.items
    }
}
