//! Which levels of a minified texture are read (OpenGL ES 1.1.12, 3.7, "Texture Minification").
ghost use Rattle.std.specs.Prelude.{◌≡◌, ℕ, ◌≤◌, Bool};
ghost use Rattle.gl_records.specs.declared.level_choice.LevelChoice.{LevelChoice as LevelChoiceOf};
ghost use Rattle.gl_records.specs.LevelChoice.{nearest_level as nearest_of, single as single_level, two_levels as two_of};

use gl_records::LevelChoice;

/// The choice of levels of a minified texture. Each is a type, so that loops over pixels choose none.
pub trait Minifying {
    // by whether texels are weighted, the last level, and lambda in 1/256
    ghost levels: { Bool → ℕ → ℕ → LevelChoiceOf };

    /// The level or the two levels, for a lambda of `detail` / 256.
    fn choice(linear: bool, last: u8, detail: u32) -> LevelChoice
        requires { detail ≤ 12287 }
        ensures { result ≡ levels linear last detail };
}

/// Level 0 alone.
pub struct FirstLevel;

impl Minifying for FirstLevel {
    ghost levels = { λ linear last detail. single_level linear 0 };

    fn choice(linear: bool, _last: u8, _detail: u32) -> LevelChoice {
        single(linear, 0)
    }
}

/// The level nearest to lambda.
pub struct NearestLevel;

impl Minifying for NearestLevel {
    ghost levels = { λ linear last detail. single_level linear (nearest_of last detail) };

    fn choice(linear: bool, last: u8, detail: u32) -> LevelChoice {
        single(linear, nearest_level(last, detail))
    }
}

/// The levels below and above lambda.
pub struct TwoLevels;

impl Minifying for TwoLevels {
    ghost levels = { two_of };

    fn choice(linear: bool, last: u8, detail: u32) -> LevelChoice {
        two_levels(linear, last, detail)
    }
}

pub fn single(linear: bool, level: u8) -> LevelChoice
    ensures { result ≡ single_level linear level }
{
    LevelChoice {
        linear,
        level,
        weight: 0,
    }
}

/// The level nearest to a lambda above 0, the lower of two that are equally near, at most the last.
fn nearest_level(last: u8, detail: u32) -> u8
    requires { detail ≤ 12287 }
    ensures { result ≡ nearest_of last detail }
{
    ((detail + 128 + 255) / 256 - 1).min(u32::from(last)) as u8
}

/// The level below a lambda, and how much the next one counts; the last level alone from there on.
fn two_levels(linear: bool, last: u8, detail: u32) -> LevelChoice
    ensures { result ≡ two_of linear last detail }
{
    if detail / 256 < u32::from(last) {
        LevelChoice {
            linear,
            level: (detail / 256) as u8,
            weight: (detail % 256) as u8,
        }
    } else {
        single(linear, last)
    }
}
