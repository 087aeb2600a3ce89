//! The commands of images.
ghost use Rattle.std.specs.Prelude.{◌≡◌, ◌==◌, if◌then◌else◌, ◌+◌, ◌<◌, ◌≤◌, ℕ, false, true, is_some, None, Some, Ok, Err, IfOk, IfSome, OnErr, OnOk, IsTrue, Result};
ghost use Rattle.std.specs.Result.{result_map_both};
ghost use Rattle.gl_records.specs.ImageBytes.{image_bytes};
ghost use Rattle.gl_records.specs.declared.level.ImageSet.{ImageSet as ImageOf};
ghost use Rattle.image_commands.specs.Written.{IsGood, IsPossible, written};
ghost use Rattle.image_commands.specs.Asked.{piece_of as piece_of_rec};
ghost use Rattle.object_names.specs.Names.{object_at};
ghost use Rattle.pixel_unpack.specs.Image.{is_alignment};
ghost use Rattle.texture_ghosts.specs.Versions.{waits};
ghost use Rattle.texture_store.specs.Answers.{AreUnpinned, IsSettled, KeepPinned, WriteAnswer};
ghost use Rattle.texture_store.specs.Changes.{image_at, planned_of, rule_at};
ghost use Rattle.texture_store.specs.Kept.{IsKept};
ghost use Rattle.texture_store.specs.Stored.{AreOf, changed_names, given, image_of_name, objects_of, stored_at, version_at, with_changed, with_versions};
ghost use Rattle.image_commands.specs.Prepared.{IsReady, put_of};
ghost use Rattle.texture_store.specs.Changes.{IsWrite};
ghost use Rattle.texture_store.specs.Writes.{with_image};
ghost use Rattle.texture_store.specs.Textures.{live_bytes, bound_texture};

use crate::change::{change, image_of, plan};
use crate::object::Object;
use crate::textures::Textures;
use crate::written::Written;
use gl_records::{ImageSet, Rec, VersionId};
use gl_tokens::GlError;
use image_commands::{ImageWrite, Prepared, asked, bytes_after, piece_of, prepare};
use object_names::Names;
use std::alloc::AllocError;
use std::snapshot::Snapshot;
use texture_ghosts::{Images, Lent, Wrote};

/// So many bytes may be live: 2^26.
const MOST_BYTES: u64 = 67108864;

/// What a command asks of an image, and how many bytes all images have after it, where the others have so many; or the
/// command's error.
fn planned(
    image: &ImageSet,
    rec: &Rec,
    remakes: bool,
    others: u64,
) -> Result<(ImageWrite, u64), GlError>
    requires good { IsGood image.now }
    requires few { others ≤ 67108864 }
    ensures value { (align : ℕ) → result ≡ planned_of image.now rec.now remakes align others }
    ensures possible { IfOk result (λ planned. IsPossible image.now planned.0) }
    ensures bytes { IfOk result (λ planned. (align : ℕ) → planned.1 ≡ others + image_bytes (written image.now planned.0 remakes align (piece_of_rec rec.now))) }
    ensures few { IfOk result (λ planned. planned.1 ≤ 67108864) }
{
    let write = asked(image, rec)?;
    let bytes = others + bytes_after(image, write, remakes);
    if bytes > MOST_BYTES {
        return Err(GlError::OutOfMemory);
    }
    Ok((write, bytes))
}

/// The object of a name above 0 has this image from now on.
fn give_named(names: &mut Names<Object>, name: u32, version: VersionId, image: Snapshot<ImageSet>)
    ensures { names.new ≡ changed_names (given (Some version) image.value) names.old name (object_at names.old name) }
{
    if names.get(name).is_none() {
        return;
    }
    if let Some(object) = names.replace(name, Object::new()) {
        let parameters = object.parameters;
        let version = Some(version);
        names.replace(
            name,
            Object {
                parameters,
                version,
                image,
            },
        );
    }
}

/// The object of a name has this image from now on.
fn give(
    names: &mut Names<Object>,
    unnamed: &mut Object,
    name: u32,
    version: VersionId,
    image: Snapshot<ImageSet>,
)
    ensures names { names.new ≡ if name == 0 then names.old else changed_names (given (Some version) image.value) names.old name (object_at names.old name) }
    ensures unnamed { unnamed.new ≡ if name == 0 then given (Some version) image.value unnamed.old else unnamed.old }
{
    if name == 0 {
        unnamed.version = Some(version);
        unnamed.image = image;
    } else {
        give_named(names, name, version, image);
    }
}

impl Textures {
    /// Runs TexImage2D, TexSubImage2D or CompressedTexImage2D for the texture that is bound to this unit, 0 or 1; rows of
    /// a piece begin on multiples of `align` bytes, 1, 2, 4 or 8. Errors as OpenGL ES 1.1.12, 3.7.1 to 3.7.3 orders them,
    /// and last OutOfMemory where all images, with the levels that GENERATE_MIPMAP makes, would have more than 2^26
    /// bytes, 4 for each texel. With an error, where the command has to wait, and where memory is out, nothing is changed.
    pub fn write(
        &mut self,
        images: &mut Images,
        lent: &Lent,
        unit: u8,
        align: u8,
        rec: &Rec,
    ) -> Result<Written, AllocError>
        requires unit { unit < 2 }
        requires aligned { IsTrue (is_alignment align) }
        requires lent { lent.now ≡ images.old.lent }
        requires of { AreOf self.old images.old }
        ensures answer { IfOk result (WriteAnswer self.old self.new images.old unit align rec.now) }
        ensures of { AreOf self.new images.new }
        ensures lent { images.new.lent ≡ images.old.lent }
        ensures pinned { KeepPinned images.old images.new }
        ensures unpinned { AreUnpinned images.old → AreUnpinned images.new × IfOk result IsSettled }
        ensures unchanged { OnErr result (self.new ≡ self.old) }
        ensures images { OnErr result (images.new ≡ images.old) }
    {
        let name = self.bound(unit);
        let remakes = self.bound_parameters(unit).remakes;
        let version = self.version(name);
        let wrote = plan(images, lent, version);
        let empty = ImageSet::empty();
        let image = image_of(images, lent, version, &empty);
        let others = self.live() - image.bytes() as u64;
        let (write, live) = match planned(image, rec, remakes, others) {
            Ok(planned) => planned,
            Err(error) => return Ok(Written::Error(error)),
        };
        if let Wrote::NeedsDrain { held, bytes } = wrote {
            return Ok(Written::Wait { held, bytes });
        }
        let prepared = prepare(self.alloc, image, write, remakes, align, piece_of(rec))?;
        self.put(images, lent, name, wrote, prepared, live)?;
        Ok(Written::Done)
    }

    /// Does to the image of a name's texture what was prepared for it, and so to the versions; all images have `live`
    /// bytes then.
    fn put(
        &mut self,
        images: &mut Images,
        lent: &Lent,
        name: u32,
        wrote: Wrote,
        prepared: Prepared,
        live: u64,
    ) -> Result<(), AllocError>
        requires object { is_some (stored_at self.old name) ≡ true }
        requires lent { lent.now ≡ images.old.lent }
        requires of { AreOf self.old images.old }
        requires rule { wrote ≡ rule_at images.old (version_at self.old name) }
        requires now { waits wrote ≡ false }
        requires ready { IsReady (image_of_name self.old name) prepared }
        requires good { IsGood (put_of (image_of_name self.old name) prepared) }
        requires live { live ≡ live_bytes (with_image (objects_of self.old) name (put_of (image_of_name self.old name) prepared)) }
        requires few { live ≤ 67108864 }
        ensures objects { OnOk result (objects_of self.new ≡ with_image (objects_of self.old) name (put_of (image_of_name self.old name) prepared)) }
        ensures moved { OnOk result (IsWrite images.old images.new (version_at self.old name)) }
        ensures of { AreOf self.new images.new }
        ensures lent { images.new.lent ≡ images.old.lent }
        ensures unchanged { OnErr result (self.new ≡ self.old) }
        ensures images { OnErr result (images.new ≡ images.old) }
    {
        let version = self.version(name);
        let (made, image) = change(self.alloc, images, lent, version, wrote, prepared)?;
        self.keep(images, name, made, image, live);
        Ok(())
    }

    /// The texture of a name has this image from now on, which is that of the version `made`; all images have `live`
    /// bytes then.
    fn keep(
        &mut self,
        images: &Images,
        name: u32,
        made: VersionId,
        image: Snapshot<ImageSet>,
        live: u64,
    )
        requires kept { IsKept (with_versions (with_changed (given (Some made) image.value) self.old name) images.now) }
        requires live { live ≡ live_bytes (objects_of (with_changed (given (Some made) image.value) self.old name)) }
        ensures { self.new ≡ with_versions (with_changed (given (Some made) image.value) self.old name) images.now }
    {
        give(&mut self.names, &mut self.unnamed, name, made, image);
        self.live = live;
        self.images = Snapshot::of(images);
    }
}
