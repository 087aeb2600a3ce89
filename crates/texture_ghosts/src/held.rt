//! One version, as it is kept.
ghost use Rattle.std.specs.Prelude.{◌≡◌, false, option_copied};
ghost use Rattle.gl_records.specs.ImageBytes.{image_bytes};
ghost use Rattle.texture_ghosts.specs.Versions.{fresh, here, is_pinned};

use gl_records::ImageSet;
use std::marker::Model;
use std::snapshot::Snapshot;

/// A version: its image is here, or it is lent.
#[derive(Drop)]
pub(crate) struct Held {
    image: Option<ImageSet>,
    /// What the image is, also while it is lent.
    was: Snapshot<ImageSet>,
    /// The bytes that it counts.
    bytes: u128,
    current: bool,
    gathered: bool,
}

impl Model for Held {
    ghost use Rattle.std.specs.Prelude.{is_none};
    ghost use Rattle.texture_ghosts.specs.Versions.{Version, IsHeld};

    ghost Value = { Version };

    ghost view = { λ held. record {
      set = held.was.value;
      current = held.current;
      gathered = held.gathered;
      sealed = is_none held.image;
    } };

    ghost invariant = { λ held. IsHeld held.image held.was.value held.bytes };
}

impl Held {
    /// A version that an object has and that no pass names.
    pub(crate) fn new(image: ImageSet) -> Held
        ensures { result ≡ fresh image }
    {
        Held {
            was: Snapshot::of(&image),
            bytes: image.bytes(),
            image: Some(image),
            current: true,
            gathered: false,
        }
    }

    /// The image, where it isn't lent.
    pub(crate) fn image(&self) -> Option<&ImageSet>
        ensures { option_copied result ≡ here self.now }
    {
        self.image.as_ref()
    }

    /// The bytes that the image counts.
    pub(crate) fn bytes(&self) -> u128
        ensures { result ≡ image_bytes self.now.set }
    {
        self.bytes
    }

    /// Whether a pass names it.
    pub(crate) fn is_pinned(&self) -> bool
        ensures { result ≡ is_pinned self.now }
    {
        self.gathered || self.image.is_none()
    }

    /// The same, while no object has it.
    pub(crate) fn left(self) -> Held
        ensures { result ≡ record self { current = false } }
    {
        Held {
            current: false,
            ..self
        }
    }

    /// The image, which isn't lent.
    pub(crate) fn into_image(self) -> ImageSet
        requires { self.sealed ≡ false }
        ensures { result ≡ self.set }
    {
        let Held {
            image,
            was: _,
            bytes: _,
            current: _,
            gathered: _,
        } = self;
        match image {
            Some(image) => image,
            None => unreachable!(),
        }
    }
}
