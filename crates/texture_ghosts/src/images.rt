//! All versions.
ghost use Rattle.std.specs.Prelude.{◌≡◌, ◌≢◌, ◌≤◌, ◌↔◌, ℕ, true, false, [], None, Some, IsSome, IsOk, IfOk, IfSome, OnOk, OnErr};
ghost use Rattle.texture_ghosts.specs.declared.wrote.Wrote.TheVariants.{InPlace};
ghost use Rattle.texture_ghosts.specs.Versions.{IsAllowed, IsCurrent, IsFree, IsMade, IsOther, IsPinned, IsUnpinned, IsUsed, at, bytes_of, contents, fresh, ghost_bytes, ghosts_after, given, left_over, lent_at, most_ghost_bytes, sealed_set, write_rule};

use crate::held::Held;
use crate::lent::Lent;
use crate::wrote::Wrote;
use gl_records::{ImageSet, VersionId};
use slab::Slab;
use std::alloc::{AllocError, Global};
use std::marker::Model;
use std::snapshot::Snapshot;

/// The most bytes of ghosts.
const MOST_GHOST_BYTES: u64 = 1 << 26;

/// The versions of all texture images, those that objects have and those that passes name.
///
/// Each call that takes a `Lent` is given the one of these images: exactly the versions that they lent and haven't
/// got back.
#[derive(Drop)]
pub struct Images {
    /// Each version under its number.
    held: Slab<Held>,
    /// The bytes of the ghosts.
    held_bytes: u64,
    /// How many versions have ceased to be current while they were pinned.
    ghosts: u64,
    /// What is lent.
    lent: Snapshot<Lent>,
}

impl Model for Images {
    ghost use Rattle.texture_ghosts.specs.Versions.{Versions, IsKept};

    ghost Value = { Versions };

    ghost view = { λ images. record {
      slots = images.held.slots;
      lent = images.lent.value;
      ghosts = images.ghosts;
    } };

    ghost invariant = { λ images. IsKept images.held.slots images.lent.value images.held_bytes };
}

impl Images {
    /// No version. Nothing is allocated.
    pub fn new(alloc: Global) -> Images
        ensures none { result.slots ≡ [] }
        ensures lent { result.lent ≡ [] }
        ensures ghosts { result.ghosts ≡ 0 }
    {
        let lent = Lent::empty(alloc);
        Images {
            held: Slab::new(alloc),
            held_bytes: 0,
            ghosts: 0,
            lent: Snapshot::of(&lent),
        }
    }

    /// The image of a version, also while it is lent.
    pub fn get<'a>(&'a self, lent: &'a Lent, v: VersionId) -> &'a ImageSet
        requires lent { lent.now ≡ self.now.lent }
        requires lives { IsSome (at self.now v.0) }
        ensures { contents (at self.now v.0) ≡ Some result.now }
    {
        match self.held[v.0 as usize].image() {
            Some(image) => image,
            None => lent.image(v),
        }
    }

    /// How many versions have ceased to be current while they were pinned, as far as 64 bits count.
    pub fn ghosts(&self) -> u64
        ensures value { result ≡ self.now.ghosts }
        ensures few { ghost_bytes self.now.slots ≤ most_ghost_bytes }
        ensures used { (v : ℕ) → IsUsed (at self.now v) }
        ensures lends { (v : ℕ) → lent_at self.now.lent v ≡ sealed_set (at self.now v) }
    {
        self.ghosts
    }

    /// What a change of a version does that is current and has so many bytes.
    pub fn plan_write(&self, lent: &Lent, v: VersionId, bytes: u64) -> Wrote
        requires lent { lent.now ≡ self.now.lent }
        requires current { IsCurrent (at self.now v.0) }
        requires bytes { bytes_of (at self.now v.0) ≡ bytes }
        ensures rule { result ≡ write_rule self.now v.0 }
        ensures in_place { result ≡ InPlace ↔ IsUnpinned (at self.now v.0) }
    {
        let _ = lent;
        if !self.held[v.0 as usize].is_pinned() {
            Wrote::InPlace
        } else if bytes <= MOST_GHOST_BYTES - self.held_bytes {
            Wrote::Ghosted
        } else {
            let held = self.held_bytes;
            Wrote::NeedsDrain { held, bytes }
        }
    }

    /// Changes what an object has, as `plan_write` allows: its version `v`, if it has one yet, gives way to `new`, or
    /// to none. A version that a pass names stays as it is; else the new one takes its number. Only a new version
    /// takes memory, and where there is none nothing is changed.
    pub fn commit(
        &mut self,
        lent: &Lent,
        v: Option<VersionId>,
        new: Option<ImageSet>,
    ) -> Result<Option<VersionId>, AllocError>
        requires lent { lent.now ≡ self.old.lent }
        requires allowed { IsAllowed self.old v }
        ensures made { IfOk result (λ made. IsMade self.new made new) }
        ensures free { IfOk result (λ made. IsFree self.old v made) }
        ensures left { IfOk result (λ made. IfSome v (λ old. IsOther made old.0 → at self.new old.0 ≡ left_over (at self.old old.0))) }
        ensures others { IfOk result (λ made. (w : ℕ) → IsOther v w → IsOther made w → at self.new w ≡ at self.old w) }
        ensures ghosts { OnOk result (self.new.ghosts ≡ ghosts_after self.old.ghosts (given self.old v)) }
        ensures lent { self.new.lent ≡ self.old.lent }
        ensures no_memory { OnErr result (self.new ≡ self.old) }
        ensures drops { new ≡ None → IsOk result }
    {
        let _ = lent;
        match new {
            Some(set) => Ok(Some(self.put(v, set)?)),
            None => {
                self.forget(v);
                Ok(None)
            }
        }
    }

    /// Puts other contents into a version that is current and that no pass names, and answers those that it had; no
    /// image is copied.
    pub fn exchange(&mut self, v: VersionId, set: ImageSet) -> ImageSet
        requires current { IsCurrent (at self.old v.0) }
        requires unpinned { IsUnpinned (at self.old v.0) }
        ensures was { contents (at self.old v.0) ≡ Some result }
        ensures here { at self.new v.0 ≡ Some (fresh set) }
        ensures others { (w : ℕ) → w ≢ v.0 → at self.new w ≡ at self.old w }
        ensures ghosts { self.new.ghosts ≡ self.old.ghosts }
        ensures lent { self.new.lent ≡ self.old.lent }
    {
        let old = self.held.remove(v.0 as usize);
        self.held.insert_reserved(Held::new(set));
        old.into_image()
    }

    /// Adds a version that is current.
    fn add(&mut self, set: ImageSet) -> Result<VersionId, AllocError>
        ensures vacant { IfOk result (λ v. at self.old v.0 ≡ None) }
        ensures here { IfOk result (λ v. at self.new v.0 ≡ Some (fresh set)) }
        ensures others { IfOk result (λ v. (w : ℕ) → w ≢ v.0 → at self.new w ≡ at self.old w) }
        ensures bytes { ghost_bytes self.new.slots ≡ ghost_bytes self.old.slots }
        ensures ghosts { self.new.ghosts ≡ self.old.ghosts }
        ensures lent { self.new.lent ≡ self.old.lent }
        ensures no_memory { OnErr result (self.new ≡ self.old) }
    {
        let Ok(number) = u32::try_from(self.held.vacant_key()) else {
            return Err(AllocError);
        };
        self.held.reserve(1)?;
        self.held.insert_reserved(Held::new(set));
        Ok(VersionId(number))
    }

    /// Takes a version from its object while a pass names it.
    fn leave(&mut self, v: VersionId)
        requires allowed { IsAllowed self.old (Some v) }
        requires pinned { IsPinned (at self.old v.0) }
        ensures left { at self.new v.0 ≡ left_over (at self.old v.0) }
        ensures others { (w : ℕ) → w ≢ v.0 → at self.new w ≡ at self.old w }
        ensures ghosts { self.new.ghosts ≡ ghosts_after self.old.ghosts (at self.old v.0) }
        ensures lent { self.new.lent ≡ self.old.lent }
    {
        let old = self.held.remove(v.0 as usize);
        self.held_bytes += old.bytes() as u64;
        self.ghosts = self.ghosts.saturating_add(1);
        self.held.insert_reserved(old.left());
    }

    /// Drops a version that no pass names.
    fn remove(&mut self, v: VersionId)
        requires current { IsCurrent (at self.old v.0) }
        requires unpinned { IsUnpinned (at self.old v.0) }
        ensures left { at self.new v.0 ≡ None }
        ensures others { (w : ℕ) → w ≢ v.0 → at self.new w ≡ at self.old w }
        ensures ghosts { self.new.ghosts ≡ self.old.ghosts }
        ensures lent { self.new.lent ≡ self.old.lent }
    {
        self.held.remove(v.0 as usize);
    }

    /// Whether a pass names a version.
    fn is_pinned(&self, v: VersionId) -> bool
        requires current { IsCurrent (at self.now v.0) }
        ensures pinned { result ≡ true ↔ IsPinned (at self.now v.0) }
        ensures unpinned { result ≡ false ↔ IsUnpinned (at self.now v.0) }
    {
        self.held[v.0 as usize].is_pinned()
    }

    /// Takes an object's version from it, if it has one.
    fn forget(&mut self, v: Option<VersionId>)
        requires allowed { IsAllowed self.old v }
        ensures left { IfSome v (λ old. at self.new old.0 ≡ left_over (at self.old old.0)) }
        ensures others { (w : ℕ) → IsOther v w → at self.new w ≡ at self.old w }
        ensures ghosts { self.new.ghosts ≡ ghosts_after self.old.ghosts (given self.old v) }
        ensures lent { self.new.lent ≡ self.old.lent }
    {
        if let Some(v) = v {
            self.take_from(v);
        }
    }

    /// Takes a version from its object.
    fn take_from(&mut self, v: VersionId)
        requires allowed { IsAllowed self.old (Some v) }
        ensures left { at self.new v.0 ≡ left_over (at self.old v.0) }
        ensures others { (w : ℕ) → w ≢ v.0 → at self.new w ≡ at self.old w }
        ensures ghosts { self.new.ghosts ≡ ghosts_after self.old.ghosts (at self.old v.0) }
        ensures lent { self.new.lent ≡ self.old.lent }
    {
        if self.is_pinned(v) {
            self.leave(v)
        } else {
            self.remove(v)
        }
    }

    /// Makes the contents the version of an object, in place of the one that it has, if it has one.
    fn put(&mut self, v: Option<VersionId>, set: ImageSet) -> Result<VersionId, AllocError>
        requires allowed { IsAllowed self.old v }
        ensures made { IfOk result (λ made. at self.new made.0 ≡ Some (fresh set)) }
        ensures free { IfOk result (λ made. IsFree self.old v (Some made)) }
        ensures left { IfOk result (λ made. IfSome v (λ old. old.0 ≢ made.0 → at self.new old.0 ≡ left_over (at self.old old.0))) }
        ensures others { IfOk result (λ made. (w : ℕ) → IsOther v w → w ≢ made.0 → at self.new w ≡ at self.old w) }
        ensures ghosts { OnOk result (self.new.ghosts ≡ ghosts_after self.old.ghosts (given self.old v)) }
        ensures lent { self.new.lent ≡ self.old.lent }
        ensures no_memory { OnErr result (self.new ≡ self.old) }
    {
        match v {
            Some(v) => self.replace(v, set),
            None => self.add(set),
        }
    }

    /// Makes the contents a version in place of one that an object has.
    fn replace(&mut self, v: VersionId, set: ImageSet) -> Result<VersionId, AllocError>
        requires allowed { IsAllowed self.old (Some v) }
        ensures made { IfOk result (λ made. at self.new made.0 ≡ Some (fresh set)) }
        ensures free { IfOk result (λ made. IsFree self.old (Some v) (Some made)) }
        ensures left { IfOk result (λ made. v.0 ≢ made.0 → at self.new v.0 ≡ left_over (at self.old v.0)) }
        ensures others { IfOk result (λ made. (w : ℕ) → w ≢ v.0 → w ≢ made.0 → at self.new w ≡ at self.old w) }
        ensures ghosts { OnOk result (self.new.ghosts ≡ ghosts_after self.old.ghosts (at self.old v.0)) }
        ensures lent { self.new.lent ≡ self.old.lent }
        ensures no_memory { OnErr result (self.new ≡ self.old) }
    {
        if self.is_pinned(v) {
            self.put_beside(v, set)
        } else {
            self.exchange(v, set);
            Ok(v)
        }
    }

    /// Makes the contents a version beside the ghost of the one that an object has.
    fn put_beside(&mut self, v: VersionId, set: ImageSet) -> Result<VersionId, AllocError>
        requires allowed { IsAllowed self.old (Some v) }
        requires pinned { IsPinned (at self.old v.0) }
        ensures vacant { IfOk result (λ made. at self.old made.0 ≡ None) }
        ensures made { IfOk result (λ made. at self.new made.0 ≡ Some (fresh set)) }
        ensures left { OnOk result (at self.new v.0 ≡ left_over (at self.old v.0)) }
        ensures others { IfOk result (λ made. (w : ℕ) → w ≢ v.0 → w ≢ made.0 → at self.new w ≡ at self.old w) }
        ensures ghosts { OnOk result (self.new.ghosts ≡ ghosts_after self.old.ghosts (at self.old v.0)) }
        ensures lent { self.new.lent ≡ self.old.lent }
        ensures no_memory { OnErr result (self.new ≡ self.old) }
    {
        let made = self.add(set)?;
        self.leave(v);
        Ok(made)
    }
}
