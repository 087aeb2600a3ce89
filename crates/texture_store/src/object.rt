ghost use Rattle.std.specs.Prelude.{◌≡◌, None};
ghost use Rattle.texture_store.specs.Stored.{texture_of};
ghost use Rattle.texture_store.specs.Textures.{opening_texture};

use crate::parameters::Parameters;
use gl_records::{ImageSet, VersionId};
use std::snapshot::Snapshot;

/// A texture object.
#[derive(Drop)]
pub struct Object {
    /// How it is read.
    pub parameters: Parameters,
    /// The version of its image, once it has one.
    pub version: Option<VersionId>,
    /// The contents of its image.
    pub image: Snapshot<ImageSet>,
}

impl Object {
    /// Before anything is said of it.
    pub(crate) fn new() -> Object
        ensures texture { texture_of result ≡ opening_texture }
        ensures version { result.version ≡ None }
    {
        let empty = ImageSet::empty();
        Object {
            parameters: Parameters::new(),
            version: None,
            image: Snapshot::of(&empty),
        }
    }
}
