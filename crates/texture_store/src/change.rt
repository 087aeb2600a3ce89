//! The change of one texture's image, where it stands or in a version of its own.
ghost use Rattle.std.specs.Prelude.{◌≡◌, false, None, Some, IfOk, IfSome, IsSome, OnErr};
ghost use Rattle.gl_records.specs.ImageBytes.{empty_image};
ghost use Rattle.gl_records.specs.declared.level.ImageSet.{ImageSet as ImageOf};
ghost use Rattle.image_commands.specs.Prepared.{IsReady, put_of};
ghost use Rattle.image_commands.specs.Written.{IsGood};
ghost use Rattle.texture_ghosts.specs.Versions.{at, contents, waits, IsAllowed, IsCurrent, IsUnpinned};
ghost use Rattle.texture_store.specs.Changes.{image_at, rule_at, IsMoved};

use crate::copies::copied;
use gl_records::{ImageSet, VersionId};
use image_commands::{Prepared, put};
use std::alloc::{AllocError, Global};
use std::snapshot::Snapshot;
use texture_ghosts::{Images, Lent, Wrote};

/// The image of a version, `empty` where there is none yet.
pub(crate) fn image_of<'a>(
    images: &'a Images,
    lent: &'a Lent,
    version: Option<VersionId>,
    empty: &'a ImageSet,
) -> &'a ImageSet
    requires lent { lent.now ≡ images.now.lent }
    requires lives { IfSome version (λ v. IsSome (at images.now v.0)) }
    requires empty { empty.now ≡ empty_image }
    ensures { image_at images.now version ≡ Some result.now }
{
    match version {
        Some(v) => images.get(lent, v),
        None => empty,
    }
}

/// What a change of the image does.
pub(crate) fn plan(images: &Images, lent: &Lent, version: Option<VersionId>) -> Wrote
    requires lent { lent.now ≡ images.now.lent }
    requires current { IfSome version (λ v. IsCurrent (at images.now v.0)) }
    requires good { (image : ImageOf) → image_at images.now version ≡ Some image → IsGood image }
    ensures { result ≡ rule_at images.now version }
{
    match version {
        Some(v) => {
            let bytes = images.get(lent, v).bytes() as u64;
            images.plan_write(lent, v, bytes)
        }
        None => Wrote::InPlace,
    }
}

/// Does to the image what was prepared for it, as `plan` says: where it stands, or in a copy beside the version that a
/// pass names. A texture that has no version yet gets its first one.
pub(crate) fn change(
    alloc: Global,
    images: &mut Images,
    lent: &Lent,
    version: Option<VersionId>,
    wrote: Wrote,
    prepared: Prepared,
) -> Result<(VersionId, Snapshot<ImageSet>), AllocError>
    requires lent { lent.now ≡ images.old.lent }
    requires current { IfSome version (λ v. IsCurrent (at images.old v.0)) }
    requires rule { wrote ≡ rule_at images.old version }
    requires now { waits wrote ≡ false }
    requires ready { (image : ImageOf) → image_at images.old version ≡ Some image → IsReady image prepared }
    ensures moved { IfOk result (λ changed. IsMoved images.old images.new version changed.0 changed.1.value) }
    ensures image { IfOk result (λ changed. (image : ImageOf) → image_at images.old version ≡ Some image → changed.1.value ≡ put_of image prepared) }
    ensures no_memory { OnErr result (images.new ≡ images.old) }
{
    let Some(v) = version else {
        return add_version(images, lent, prepared);
    };
    match wrote {
        Wrote::InPlace => Ok((v, change_version(images, v, prepared))),
        _ => change_beside(alloc, images, lent, v, prepared),
    }
}

/// Changes an image where it stands.
fn change_version(images: &mut Images, v: VersionId, prepared: Prepared) -> Snapshot<ImageSet>
    requires current { IsCurrent (at images.old v.0) }
    requires unpinned { IsUnpinned (at images.old v.0) }
    requires ready { (image : ImageOf) → contents (at images.old v.0) ≡ Some image → IsReady image prepared }
    ensures moved { IsMoved images.old images.new (Some v) v result.value }
    ensures image { (image : ImageOf) → contents (at images.old v.0) ≡ Some image → result.value ≡ put_of image prepared }
{
    let empty = ImageSet::empty();
    let mut image = images.exchange(v, empty);
    put(&mut image, prepared);
    let changed = Snapshot::of(&image);
    images.exchange(v, image);
    changed
}

/// Makes the first version of a texture's image.
fn add_version(
    images: &mut Images,
    lent: &Lent,
    prepared: Prepared,
) -> Result<(VersionId, Snapshot<ImageSet>), AllocError>
    requires lent { lent.now ≡ images.old.lent }
    requires ready { IsReady empty_image prepared }
    ensures moved { IfOk result (λ changed. IsMoved images.old images.new None changed.0 changed.1.value) }
    ensures image { IfOk result (λ changed. changed.1.value ≡ put_of empty_image prepared) }
    ensures no_memory { OnErr result (images.new ≡ images.old) }
{
    let mut image = ImageSet::empty();
    put(&mut image, prepared);
    let changed = Snapshot::of(&image);
    match images.commit(lent, None, Some(image))? {
        Some(v) => Ok((v, changed)),
        None => unreachable!(),
    }
}

/// Makes a version beside the one that a pass names: a copy, changed.
fn change_beside(
    alloc: Global,
    images: &mut Images,
    lent: &Lent,
    v: VersionId,
    prepared: Prepared,
) -> Result<(VersionId, Snapshot<ImageSet>), AllocError>
    requires lent { lent.now ≡ images.old.lent }
    requires allowed { IsAllowed images.old (Some v) }
    requires ready { (image : ImageOf) → contents (at images.old v.0) ≡ Some image → IsReady image prepared }
    ensures moved { IfOk result (λ changed. IsMoved images.old images.new (Some v) changed.0 changed.1.value) }
    ensures image { IfOk result (λ changed. (image : ImageOf) → contents (at images.old v.0) ≡ Some image → changed.1.value ≡ put_of image prepared) }
    ensures no_memory { OnErr result (images.new ≡ images.old) }
{
    let mut image = copied(alloc, images.get(lent, v))?;
    put(&mut image, prepared);
    let changed = Snapshot::of(&image);
    match images.commit(lent, Some(v), Some(image))? {
        Some(made) => Ok((made, changed)),
        None => unreachable!(),
    }
}
