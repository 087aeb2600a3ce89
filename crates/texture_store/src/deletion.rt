//! The deletion of names, with the objects that they stand for.
ghost use Rattle.std.specs.Prelude.{◌≡◌, ◌≢◌, ◌≤◌, ℕ, false, IfSome};
ghost use Rattle.std.specs.Prelude.{map as list_map};
ghost use Rattle.gl_records.specs.ImageBytes.{image_bytes};
ghost use Rattle.gl_records.specs.declared.level.ImageSet.{ImageSet as ImageOf};
ghost use Rattle.image_commands.specs.Written.{IsGood};
ghost use Rattle.texture_ghosts.specs.Versions.{at, IsAllowed, IsCurrent};
ghost use Rattle.texture_store.specs.Answers.{AreUnpinned, DropAnswer, IsSettled, KeepPinned};
ghost use Rattle.texture_store.specs.Changes.{image_at};
ghost use Rattle.texture_store.specs.Commands.{unbound as unbound_of, without_live};
ghost use Rattle.texture_store.specs.Drops.{DropWait, IsDropped, NameAnswer, without_stored};
ghost use Rattle.texture_store.specs.Kept.{IsKept};
ghost use Rattle.texture_store.specs.Stored.{AreOf, objects_of, version_at, with_versions};
ghost use Rattle.texture_store.specs.Textures.{live_bytes};

use crate::change::plan;
use crate::textures::Textures;
use crate::written::Written;
use gl_records::VersionId;
use std::snapshot::Snapshot;
use texture_ghosts::{Images, Lent, Wrote};

/// The bytes of the image of a version; none where there is no version yet.
fn bytes_of(images: &Images, lent: &Lent, version: Option<VersionId>) -> u64
    requires lent { lent.now ≡ images.now.lent }
    requires current { IfSome version (λ v. IsCurrent (at images.now v.0)) }
    requires good { (image : ImageOf) → image_at images.now version ≡ Some image → IsGood image }
    ensures { (image : ImageOf) → image_at images.now version ≡ Some image → result ≡ image_bytes image }
{
    match version {
        Some(v) => images.get(lent, v).bytes() as u64,
        None => 0,
    }
}

/// Takes a version from its object, if it has one.
fn leave(images: &mut Images, lent: &Lent, version: Option<VersionId>)
    requires lent { lent.now ≡ images.old.lent }
    requires allowed { IsAllowed images.old version }
    ensures { IsDropped images.old images.new version }
{
    match images.commit(lent, version, None) {
        Ok(_) => (),
        Err(_) => unreachable!(),
    }
}

/// What is bound, once a name is gone: 0 in its place.
fn unbound(bound: [u32; 2], name: u32) -> [u32; 2]
    ensures { result ≡ list_map (unbound_of name) bound }
{
    [unbound_name(bound[0], name), unbound_name(bound[1], name)]
}

fn unbound_name(bound: u32, name: u32) -> u32
    ensures { result ≡ unbound_of name bound }
{
    if bound == name { 0 } else { bound }
}

impl Textures {
    /// Runs DeleteTextures: these names, and the objects that they stand for, are gone, and 0 is bound in their places;
    /// 0 and names that aren't live are passed over. It takes no memory. A name whose image can't be left to the ghosts
    /// yet has to wait: those before it are gone then, and it and those behind it are as they were.
    pub fn drop_names(&mut self, images: &mut Images, lent: &Lent, names: &[u32]) -> Written
        requires lent { lent.now ≡ images.old.lent }
        requires of { AreOf self.old images.old }
        ensures answer { DropAnswer self.old self.new names.now result }
        ensures of { AreOf self.new images.new }
        ensures lent { images.new.lent ≡ images.old.lent }
        ensures pinned { KeepPinned images.old images.new }
        ensures unpinned { AreUnpinned images.old → AreUnpinned images.new × IsSettled result }
        ensures waiting { DropWait self.old self.new images.new names.now result }
    {
        for &name in names {
            match self.drop_name(images, lent, name) {
                Written::Done => {}
                answer => return answer,
            }
        }
        Written::Done
    }

    /// Deletes a name, and the object that it stands for; 0 is passed over.
    fn drop_name(&mut self, images: &mut Images, lent: &Lent, name: u32) -> Written
        requires lent { lent.now ≡ images.old.lent }
        requires of { AreOf self.old images.old }
        ensures answer { NameAnswer self.old self.new images.old images.new name result }
        ensures of { AreOf self.new images.new }
        ensures lent { images.new.lent ≡ images.old.lent }
        ensures pinned { KeepPinned images.old images.new }
        ensures unpinned { AreUnpinned images.old → AreUnpinned images.new × IsSettled result }
    {
        if name == 0 {
            return Written::Done;
        }
        let _kept = self.live();
        let version = self.version(name);
        if let Wrote::NeedsDrain { held, bytes } = plan(images, lent, version) {
            return Written::Wait { held, bytes };
        }
        self.drop_object(images, lent, name, version);
        Written::Done
    }

    /// Deletes a name whose object has this version, if it has one.
    fn drop_object(
        &mut self,
        images: &mut Images,
        lent: &Lent,
        name: u32,
        version: Option<VersionId>,
    )
        requires name { name ≢ 0 }
        requires lent { lent.now ≡ images.old.lent }
        requires of { AreOf self.old images.old }
        requires version { version ≡ version_at self.old name }
        requires allowed { IsAllowed images.old version }
        ensures objects { objects_of self.new ≡ without_live (objects_of self.old) name }
        ensures of { AreOf self.new images.new }
        ensures dropped { IsDropped images.old images.new version }
    {
        let live = self.live() - bytes_of(images, lent, version);
        leave(images, lent, version);
        self.forget(images, name, live);
    }

    /// The name isn't live any more, nor bound; all images have `live` bytes then.
    fn forget(&mut self, images: &Images, name: u32, live: u64)
        requires kept { IsKept (with_versions (without_stored self.old name) images.now) }
        requires live { live ≡ live_bytes (objects_of (without_stored self.old name)) }
        ensures { self.new ≡ with_versions (without_stored self.old name) images.now }
    {
        self.names.remove(name);
        self.bound = unbound(self.bound, name);
        self.live = live;
        self.images = Snapshot::of(images);
    }
}
