//! The texture objects of a context, with the versions of their images.
ghost use Rattle.std.specs.Prelude.{◌≡◌, ◌≤◌, ◌<◌, [], true, None, IfOk, IfSome, IsTrue, OnErr, OnSome};
ghost use Rattle.std.specs.Option.{option_copied};
ghost use Rattle.gl_records.specs.Captured.{without_version};
ghost use Rattle.gl_records.specs.Complete.{is_complete};
ghost use Rattle.gl_records.specs.Shading.{IsReadable};
ghost use Rattle.draw_front.specs.Draws.{given_image, unit_content, unversioned_image};
ghost use Rattle.std.specs.Result.{result_map_both};
ghost use Rattle.pixel_unpack.specs.Image.{is_alignment};
ghost use Rattle.texture_store.specs.Commands.{behind_names, bind as bind_of, given_names, parameter as parameter_of, without_names};
ghost use Rattle.texture_store.specs.Textures.{bound_name, bound_texture, is_texture as is_texture_of, opening_textures};
ghost use Rattle.texture_store.specs.Writes.{written};
ghost use Rattle.draw_front.specs.Call.{answer_error};

use gl_records::{ImageSet, Rec, Sampler, UnitState, VersionId};
use gl_tokens::{BaseFormat, GlError};
use std::alloc::{AllocError, Global};
use std::marker::Model;
use texture_ghosts::{Images, Lent};
use texture_store::{Textures, Written};

/// The texture objects, and the versions of their images. No pass names a version yet, so that none is lent and each
/// write is in place. Contracts see the objects by value.
#[derive(Drop)]
pub struct OwnedTextures {
    textures: Textures,
    images: Images,
}

impl Model for OwnedTextures {
    ghost use Rattle.std.specs.Prelude.{◌≡◌, []};
    ghost use Rattle.std.specs.Coded.{codes};
    ghost use Rattle.std.specs.FinMap as map;
    ghost use Rattle.texture_store.specs.Textures.{TextureObjects};
    ghost use Rattle.texture_store.specs.Stored.{AreOf, objects_of};
    ghost use Rattle.texture_store.specs.Answers.{AreUnpinned};

    ghost Value = { TextureObjects };

    ghost coded = { Prim.hlevel (codes, map.code) };

    ghost view = { λ owned. objects_of owned.textures };

    ghost invariant = { λ owned. AreOf owned.textures owned.images × AreUnpinned owned.images × (owned.images.lent ≡ []) };
}

impl OwnedTextures {
    /// No name is live, and texture 0 is bound to both units. Nothing is allocated.
    pub fn new(alloc: Global) -> OwnedTextures
        ensures { result ≡ opening_textures }
    {
        OwnedTextures {
            textures: Textures::new(alloc),
            images: Images::new(alloc),
        }
    }

    /// The name that is bound to a unit, 0 or 1.
    pub fn bound(&self, unit: u8) -> u32
        requires { unit < 2 }
        ensures { result ≡ bound_name self.now unit }
    {
        self.textures.bound(unit)
    }

    /// Whether a name stands for an object.
    pub fn is_texture(&self, name: u32) -> bool
        ensures { result ≡ is_texture_of self.now name }
    {
        self.textures.is_texture(name)
    }

    /// The names that GenTextures would give, or its error.
    pub fn names_for(&self, count: i32) -> Result<Result<Vec<u32>, GlError>, AllocError>
        ensures { IfOk result (λ answer. result_map_both (λ names. names.items) (λ error. error) answer ≡ given_names self.now count) }
    {
        self.textures.names_for(count)
    }

    /// Runs GenTextures, and answers its error.
    pub fn make_names(&mut self, count: i32) -> Result<Option<GlError>, AllocError>
        ensures run { IfOk result (λ error. self.new ≡ behind_names self.old (given_names self.old count)) }
        ensures error { IfOk result (λ error. error ≡ answer_error (given_names self.old count)) }
        ensures refused { IfOk result (λ error. OnSome error (self.new ≡ self.old)) }
        ensures memory { OnErr result (self.new ≡ self.old) }
    {
        match self.textures.make_names(count)? {
            Ok(_) => Ok(None),
            Err(error) => Ok(Some(error)),
        }
    }

    /// Runs BindTexture while this unit is active, 0 or 1, and answers its error.
    pub fn bind(&mut self, unit: u8, target: u32, name: u32) -> Result<Option<GlError>, AllocError>
        requires { unit < 2 }
        ensures run { IfOk result (λ error. (self.new, error) ≡ bind_of self.old unit target name) }
        ensures refused { IfOk result (λ error. OnSome error (self.new ≡ self.old)) }
        ensures memory { OnErr result (self.new ≡ self.old) }
    {
        self.textures.bind(unit, target, name)
    }

    /// Runs TexParameterx while this unit is active, 0 or 1, and answers its error.
    pub fn set_param(
        &mut self,
        unit: u8,
        target: u32,
        parameter: u32,
        value: u32,
    ) -> Option<GlError>
        requires { unit < 2 }
        ensures run { (self.new, result) ≡ parameter_of self.old unit target parameter value }
        ensures refused { OnSome result (self.new ≡ self.old) }
    {
        self.textures.set_param(unit, target, parameter, value)
    }

    /// Runs a command of images while this unit is active, 0 or 1, by the alignment of the rows of the piece, and
    /// answers its error.
    pub fn write(
        &mut self,
        lent: &Lent,
        unit: u8,
        align: u8,
        rec: &Rec,
    ) -> Result<Option<GlError>, AllocError>
        requires lent { lent.now ≡ [] }
        requires unit { unit < 2 }
        requires aligned { IsTrue (is_alignment align) }
        ensures run { IfOk result (λ error. (self.new, error) ≡ written self.old unit align rec.now) }
        ensures refused { IfOk result (λ error. OnSome error (self.new ≡ self.old)) }
        ensures memory { OnErr result (self.new ≡ self.old) }
    {
        match self
            .textures
            .write(&mut self.images, lent, unit, align, rec)?
        {
            Written::Done => Ok(None),
            Written::Error(error) => Ok(Some(error)),
            Written::Wait { .. } | Written::Copy => unreachable!(),
        }
    }

    /// Runs DeleteTextures.
    pub fn drop_names(&mut self, lent: &Lent, names: &[u32])
        requires { lent.now ≡ [] }
        ensures { self.new ≡ without_names self.old names.now }
    {
        self.textures.drop_names(&mut self.images, lent, names);
    }

    /// What a unit, 0 or 1, reads: the version of its image, the image's format, and how it is read. None exactly where the
    /// texture that is bound is incomplete.
    pub fn unit_image(&self, lent: &Lent, unit: u8) -> Option<(VersionId, BaseFormat, Sampler)>
        requires lent { lent.now ≡ [] }
        requires unit { unit < 2 }
        ensures value { unversioned_image result ≡ given_image (bound_texture self.now unit) }
        ensures complete { IfSome result (λ read. is_complete (bound_texture self.now unit).image read.2 ≡ true) }
    {
        self.textures.unit_image(&self.images, lent, unit)
    }

    /// The image that is read by a unit, 0 or 1, where it is on: that of the texture that is bound.
    pub fn read<'a>(
        &'a self,
        lent: &'a Lent,
        unit: u8,
        state: &Option<UnitState>,
    ) -> Option<&'a ImageSet>
        requires lent { lent.now ≡ [] }
        requires unit { unit < 2 }
        requires readable { IsReadable (without_version state.now) (unit_content state.now self.now unit) }
        ensures { option_copied result ≡ unit_content state.now self.now unit }
    {
        match state {
            Some(_) => match self.textures.image(&self.images, lent, unit) {
                Some(image) => Some(image),
                None => None,
            },
            None => None,
        }
    }
}
