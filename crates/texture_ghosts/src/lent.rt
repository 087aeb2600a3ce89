//! The images that a pass draws with.
ghost use Rattle.std.specs.Prelude.{◌≡◌, [], Some, IsSome};
ghost use Rattle.texture_ghosts.specs.Versions.{lent_at};

use gl_records::{ImageSet, VersionId};
use std::alloc::Global;
use std::marker::Model;

/// The images that the sealed pass names, each at the number of its version. They are moved out of the images and
/// taken back when the pass is done; no image is copied.
#[derive(Drop)]
pub struct Lent {
    sets: Vec<Option<ImageSet>>,
}

impl Model for Lent {
    ghost use Rattle.std.specs.Prelude.{List, Option};
    ghost use Rattle.gl_records.specs.declared.level.ImageSet.{ImageSet};

    ghost Value = { List (Option ImageSet) };

    ghost view = { λ lent. lent.sets.items };
}

impl Lent {
    /// No image is lent. Nothing is allocated.
    pub fn empty(alloc: Global) -> Lent
        ensures { result ≡ [] }
    {
        Lent {
            sets: Vec::new(alloc),
        }
    }

    /// The image of a version that is lent.
    pub fn image(&self, v: VersionId) -> &ImageSet
        requires { IsSome (lent_at self.now v.0) }
        ensures { lent_at self.now v.0 ≡ Some result.now }
    {
        match &self.sets[v.0 as usize] {
            Some(image) => image,
            None => unreachable!(),
        }
    }
}
