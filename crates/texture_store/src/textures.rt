ghost use Rattle.std.specs.Prelude.{◌≡◌, ◌<◌, ◌≤◌, is_some, true, [], None, Some, IfOk, OnOk, OnErr, OnSome, slice_index, slice_index_or, slice_set};
ghost use Rattle.std.specs.FinMap as map;
ghost use Rattle.std.specs.Option.{option_copied, option_map};
ghost use Rattle.std.specs.Result.{result_map_both};
ghost use Rattle.texture_store.specs.Commands.{behind_names, bind as bind_of, given_names, new_parameters as new_parameters_of, parameter as parameter_of, with_object};
ghost use Rattle.gl_tokens.specs.Commands.{done};
ghost use Rattle.texture_store.specs.Stored.{objects_of, stored_at, changed_names, told, version_at, with_changed};
ghost use Rattle.texture_store.specs.Kept.{IsKept};
ghost use Rattle.object_names.specs.Names.{object_at};
ghost use Rattle.texture_store.specs.Textures.{bound_name, bound_texture, is_texture as is_texture_of, live_bytes, most_bytes, opening_textures, texture_at};

use crate::object::Object;
use crate::parameters::Parameters;
use gl_records::VersionId;
use gl_tokens::{GlError, TextureParameter, TextureTarget};
use object_names::Names;
use std::alloc::{AllocError, Global};
use std::marker::Model;
use std::snapshot::Snapshot;
use texture_ghosts::Images;

/// The texture objects of a context.
#[derive(Drop)]
pub struct Textures {
    pub(crate) names: Names<Object>,
    pub(crate) unnamed: Object,
    pub(crate) bound: [u32; 2],
    /// The bytes of all images.
    pub(crate) live: u64,
    /// The images when one of these textures was written last.
    pub(crate) images: Snapshot<Images>,
    pub(crate) alloc: Global,
}

impl Model for Textures {
    ghost use Rattle.std.specs.Prelude.{◌≡◌};
    ghost use Rattle.std.specs.Coded.{codes};
    ghost use Rattle.std.specs.FinMap as map;
    ghost use Rattle.texture_store.specs.Stored.{StoredTextures, objects_of};
    ghost use Rattle.texture_store.specs.Textures.{live_bytes};
    ghost use Rattle.texture_store.specs.Kept.{IsKept};

    ghost Value = { StoredTextures };

    ghost coded = { Prim.hlevel (codes, map.code) };

    ghost view = { λ t. record { names = t.names; unnamed = t.unnamed; bound = t.bound; versions = t.images.value } };

    ghost invariant = { λ t.
        (t.live ≡ live_bytes (objects_of (record { names = t.names; unnamed = t.unnamed; bound = t.bound; versions = t.images.value })))
        × IsKept (record { names = t.names; unnamed = t.unnamed; bound = t.bound; versions = t.images.value }) };
}

impl Textures {
    /// No name is live, and texture 0 is bound to both units. Nothing is allocated.
    pub fn new(alloc: Global) -> Textures
        ensures objects { objects_of result ≡ opening_textures }
        ensures versions { result.versions.slots ≡ [] }
    {
        let images = Images::new(alloc);
        Textures {
            names: Names::new(alloc),
            unnamed: Object::new(),
            bound: [0, 0],
            live: 0,
            images: Snapshot::of(&images),
            alloc,
        }
    }

    /// The name that is bound to a unit, 0 or 1.
    pub fn bound(&self, unit: u8) -> u32
        requires { unit < 2 }
        ensures value { result ≡ bound_name (objects_of self.now) unit }
        ensures object { is_some (stored_at self.now result) ≡ true }
    {
        self.bound[usize::from(unit)]
    }

    /// Whether a name stands for an object. One that was given and never bound doesn't, nor does 0.
    pub fn is_texture(&self, name: u32) -> bool
        ensures { result ≡ is_texture_of (objects_of self.now) name }
    {
        match self.names.get(name) {
            Some(_) => true,
            None => false,
        }
    }

    /// The names that GenTextures would give, or its error.
    pub fn names_for(&self, count: i32) -> Result<Result<Vec<u32>, GlError>, AllocError>
        ensures { IfOk result (λ answer. result_map_both (λ names. names.items) (λ error. error) answer ≡ given_names (objects_of self.now) count) }
    {
        let names = self.names.names_for(count)?;
        Ok(names)
    }

    /// Runs GenTextures: the least names that aren't live, so many, in rising order. They are live from now on, and stand
    /// for no object yet. InvalidValue where the count is below 0 or above 65536; OutOfMemory where more than 65536 names
    /// would be live. With an error, and where memory is out, nothing is changed.
    pub fn make_names(&mut self, count: i32) -> Result<Result<Vec<u32>, GlError>, AllocError>
        ensures names { IfOk result (λ answer. result_map_both (λ names. names.items) (λ error. error) answer ≡ given_names (objects_of self.old) count) }
        ensures run { OnOk result (objects_of self.new ≡ behind_names (objects_of self.old) (given_names (objects_of self.old) count)) }
        ensures versions { self.new.versions ≡ self.old.versions }
        ensures unchanged { OnErr result (self.new ≡ self.old) }
    {
        let names = self.names.make_names(count)?;
        Ok(names)
    }

    /// Runs BindTexture while this unit is active, 0 or 1: commands of images speak of the texture that the name stands
    /// for from now on; where it stands for none, one is made. InvalidEnum where there is no such target; OutOfMemory
    /// where more than 65536 names would be live. With an error, and where memory is out, nothing is changed.
    pub fn bind(&mut self, unit: u8, target: u32, name: u32) -> Result<Option<GlError>, AllocError>
        requires { unit < 2 }
        ensures run { IfOk result (λ error. (objects_of self.new, error) ≡ bind_of (objects_of self.old) unit target name) }
        ensures refused { IfOk result (λ error. OnSome error (self.new ≡ self.old)) }
        ensures versions { self.new.versions ≡ self.old.versions }
        ensures unchanged { OnErr result (self.new ≡ self.old) }
    {
        if TextureTarget::from_code(target).is_none() {
            return Ok(Some(GlError::InvalidEnum));
        }
        let error = self.make_object(name)?;
        if error.is_none() {
            self.set_bound(unit, name);
        }
        Ok(error)
    }

    /// Runs TexParameterx for the texture that is bound to this unit, 0 or 1. InvalidEnum where there is no such target,
    /// then where there is no such parameter, then where it has no such value. With an error nothing is changed.
    pub fn set_param(&mut self, unit: u8, target: u32, pname: u32, value: u32) -> Option<GlError>
        requires { unit < 2 }
        ensures run { (objects_of self.new, result) ≡ parameter_of (objects_of self.old) unit target pname value }
        ensures refused { OnSome result (self.new ≡ self.old) }
        ensures versions { self.new.versions ≡ self.old.versions }
    {
        match self.new_parameters(unit, target, pname, value) {
            Ok(parameters) => {
                self.set_parameters(self.bound(unit), parameters);
                None
            }
            Err(error) => Some(error),
        }
    }

    fn new_parameters(
        &self,
        unit: u8,
        target: u32,
        pname: u32,
        value: u32,
    ) -> Result<Parameters, GlError>
        requires { unit < 2 }
        ensures { result ≡ new_parameters_of (objects_of self.now) unit target pname value }
    {
        if TextureTarget::from_code(target).is_none() {
            return Err(GlError::InvalidEnum);
        }
        match TextureParameter::from_code(pname) {
            Some(parameter) => self.bound_parameters(unit).with(parameter, value),
            None => Err(GlError::InvalidEnum),
        }
    }

    /// A name stands for an object from now on: where it stood for none, for one of which nothing was said. OutOfMemory
    /// where more than 65536 names would be live.
    fn make_object(&mut self, name: u32) -> Result<Option<GlError>, AllocError>
        ensures run { IfOk result (λ error. (objects_of self.new, error) ≡ done (objects_of self.old) (with_object (objects_of self.old) name (texture_at (objects_of self.old) name))) }
        ensures refused { IfOk result (λ error. OnSome error (self.new ≡ self.old)) }
        ensures made { IfOk result (λ error. error ≡ None → is_some (stored_at self.new name) ≡ true) }
        ensures versions { self.new.versions ≡ self.old.versions }
        ensures unchanged { OnErr result (self.new ≡ self.old) }
    {
        if let Some(_) = self.object(name) {
            return Ok(None);
        }
        if self.names.lacks_room(name) {
            return Ok(Some(GlError::OutOfMemory));
        }
        self.names.put(name, Object::new())?;
        Ok(None)
    }

    fn set_bound(&mut self, unit: u8, name: u32)
        requires unit { unit < 2 }
        requires object { is_some (stored_at self.old name) ≡ true }
        ensures { self.new ≡ record self.old { bound = slice_set self.old.bound unit name } }
    {
        self.bound[usize::from(unit)] = name;
    }

    pub(crate) fn bound_parameters(&self, unit: u8) -> Parameters
        requires { unit < 2 }
        ensures { result ≡ (bound_texture (objects_of self.now) unit).parameters }
    {
        match self.object(self.bound(unit)) {
            Some(object) => object.parameters,
            None => Parameters::new(),
        }
    }

    /// The object of a name has these parameters from now on.
    fn set_parameters(&mut self, name: u32, parameters: Parameters)
        requires { is_some (stored_at self.old name) ≡ true }
        ensures { self.new ≡ with_changed (told parameters) self.old name }
    {
        if name == 0 {
            self.unnamed.parameters = parameters;
        } else {
            tell(&mut self.names, name, parameters);
        }
    }

    /// The bytes of all images.
    pub(crate) fn live(&self) -> u64
        ensures value { result ≡ live_bytes (objects_of self.now) }
        ensures few { result ≤ most_bytes }
        ensures kept { IsKept self.now }
    {
        self.live
    }

    /// The version of the image of a name's texture, if it has one.
    pub(crate) fn version(&self, name: u32) -> Option<VersionId>
        ensures { result ≡ version_at self.now name }
    {
        match self.object(name) {
            Some(object) => object.version,
            None => None,
        }
    }

    /// The object that a name stands for.
    fn object(&self, name: u32) -> Option<&Object>
        ensures { option_copied result ≡ stored_at self.now name }
    {
        if name == 0 {
            Some(&self.unnamed)
        } else {
            self.names.get(name)
        }
    }
}

/// The object of a name has these parameters from now on.
fn tell(names: &mut Names<Object>, name: u32, parameters: Parameters)
    ensures { names.new ≡ changed_names (told parameters) names.old name (object_at names.old name) }
{
    if names.get(name).is_none() {
        return;
    }
    if let Some(object) = names.replace(name, Object::new()) {
        let version = object.version;
        let image = object.image;
        names.replace(
            name,
            Object {
                parameters,
                version,
                image,
            },
        );
    }
}
