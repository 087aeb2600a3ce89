ghost use Rattle.std.specs.Prelude.{◌↔◌, IsTrue};
ghost use Rattle.glplay.specs.Words.{IsPlay as is_play_words};

/// Whether the words are the one command that there is, `play` alone.
pub fn is_play(words: &[String]) -> bool
    ensures { IsTrue result ↔ is_play_words words.now }
{
    match words {
        [only] => only.as_str() == "play",
        _ => false,
    }
}
