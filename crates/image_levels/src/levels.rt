//! Levels that are given anew.
ghost use Rattle.std.specs.Prelude.{◌≡◌, ◌+◌, ◌<◌, ◌≤◌, None, Some, slice_index_or, slice_set, vec_len};
ghost use Rattle.std.specs.List.{sum_by};
ghost use Rattle.gl_records.specs.Complete.{level_at};
ghost use Rattle.gl_records.specs.ImageBytes.{image_bytes, level_bytes};
ghost use Rattle.image_levels.specs.Levels.{given_levels, with_level, with_levels};

use gl_records::{ImageSet, Level};

fn set_level(levels: &mut [Option<Level>; 11], k: u8, level: Level)
    requires { k < 11 }
    ensures value { levels.new ≡ slice_set levels.old k (Some level) }
    ensures bytes { sum_by level_bytes levels.new + level_bytes (slice_index_or levels.old k None) ≡ sum_by level_bytes levels.old + level_bytes (Some level) }
{
    levels[usize::from(k)] = Some(level);
}

/// Puts a level into an image, as TexImage2D does, in place of the one of its number, if there was one.
#[tactic(auto, unfolding(gl_records::specs::ImageBytes::image_bytes))]
pub fn put_level(set: &mut ImageSet, k: u8, level: Level)
    requires { k < 11 }
    ensures value { set.new ≡ with_level set.old k level }
    ensures bytes { image_bytes set.new + level_bytes (level_at set.old k) ≡ image_bytes set.old + level_bytes (Some level) }
{
    set_level(&mut set.levels, k, level)
}

fn set_levels(levels: &mut [Option<Level>; 11], all: Vec<Level>)
    requires { vec_len all ≤ 11 }
    ensures { levels.new ≡ given_levels all.items levels.old }
{
    let mut k = 0;
    for level in all {
        set_level(levels, k, level);
        k += 1;
    }
}

/// Puts levels into an image from level 0 on, as CompressedTexImage2D does; the others stay. No level is copied.
#[tactic(auto, unfolding(crate::specs::Levels::with_levels))]
pub fn put_levels(set: &mut ImageSet, all: Vec<Level>)
    requires { vec_len all ≤ 11 }
    ensures { set.new ≡ with_levels set.old all.items }
{
    set_levels(&mut set.levels, all)
}
