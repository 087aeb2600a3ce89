//! Levels of an image that a write looks at.
ghost use Rattle.std.specs.Prelude.{◌≡◌, ◌<◌, ◌==◌, ◌&&◌};
ghost use Rattle.gl_records.specs.Complete.{level_at};

use gl_records::{ImageSet, Level};

/// Level `k` of an image.
pub(crate) fn level_in(image: &ImageSet, k: u8) -> &Option<Level>
    requires { k < 11 }
    ensures { result.now ≡ level_at image.now k }
{
    &image.levels[usize::from(k)]
}

/// Whether levels are made of level 0, where level `k` is given or written in part.
pub(crate) fn makes_levels(remakes: bool, k: u8) -> bool
    ensures { result ≡ (remakes && (k == 0)) }
{
    remakes && k == 0
}
