//! The image that a texture unit reads.
ghost use Rattle.std.specs.Prelude.{◌≡◌, ◌↔◌, ◌<◌, false, None, Some, IfSome};
ghost use Rattle.gl_records.specs.Complete.{is_complete as is_complete_for};
ghost use Rattle.texture_ghosts.specs.Versions.{at, contents, IsCurrent};
ghost use Rattle.gl_records.specs.ImageBytes.{empty_image};
ghost use Rattle.texture_store.specs.Answers.{format_of};
ghost use Rattle.texture_store.specs.Stored.{AreOf, objects_of};
ghost use Rattle.texture_store.specs.Textures.{bound_texture};

use crate::textures::Textures;
use gl_records::{ImageSet, Sampler, VersionId, is_complete};
use gl_tokens::BaseFormat;
use texture_ghosts::{Images, Lent};

/// The format of an image, that of its level 0.
fn format(image: &ImageSet) -> Option<BaseFormat>
    ensures { result ≡ format_of image.now }
{
    match &image.levels[0] {
        Some(level) => Some(level.format),
        None => None,
    }
}

impl Textures {
    /// What a unit, 0 or 1, reads: the version of the image that is bound to it, the format of its level 0, and how it is
    /// read. None exactly where that texture is incomplete (OpenGL ES 1.1.12, 3.7.10).
    pub fn unit_image(
        &self,
        images: &Images,
        lent: &Lent,
        unit: u8,
    ) -> Option<(VersionId, BaseFormat, Sampler)>
        requires unit { unit < 2 }
        requires lent { lent.now ≡ images.now.lent }
        requires of { AreOf self.now images.now }
        ensures none { (result ≡ None) ↔ (is_complete_for (bound_texture (objects_of self.now) unit).image (bound_texture (objects_of self.now) unit).parameters.sampler ≡ false) }
        ensures image { IfSome result (λ read. contents (at images.now read.0.0) ≡ Some (bound_texture (objects_of self.now) unit).image) }
        ensures current { IfSome result (λ read. IsCurrent (at images.now read.0.0)) }
        ensures format { IfSome result (λ read. format_of (bound_texture (objects_of self.now) unit).image ≡ Some read.1) }
        ensures sampler { IfSome result (λ read. read.2 ≡ (bound_texture (objects_of self.now) unit).parameters.sampler) }
    {
        let _kept = self.live();
        let sampler = self.bound_parameters(unit).sampler;
        let Some(v) = self.version(self.bound(unit)) else {
            return None;
        };
        let image = images.get(lent, v);
        if !is_complete(image, sampler) {
            return None;
        }
        let Some(format) = format(image) else {
            return None;
        };
        Some((v, format, sampler))
    }

    /// The image of the texture that is bound to a unit, 0 or 1. None only where that texture has no version of its image
    /// yet, which is empty then.
    pub fn image<'a>(&self, images: &'a Images, lent: &'a Lent, unit: u8) -> Option<&'a ImageSet>
        requires unit { unit < 2 }
        requires lent { lent.now ≡ images.now.lent }
        requires of { AreOf self.now images.now }
        ensures image { IfSome result (λ image. image.now ≡ (bound_texture (objects_of self.now) unit).image) }
        ensures none { result ≡ None → (bound_texture (objects_of self.now) unit).image ≡ empty_image }
    {
        let _kept = self.live();
        let Some(v) = self.version(self.bound(unit)) else {
            return None;
        };
        Some(images.get(lent, v))
    }
}
