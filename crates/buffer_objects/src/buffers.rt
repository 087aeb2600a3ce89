ghost use Rattle.std.specs.Prelude.{◌≡◌, ◌↔◌, ◌<◌, ◌≤◌, ◌+◌, ◌^◌, nat_abs, IsSome, IfOk, OnOk, OnErr, OnSome, IfSome, length, List, ℕ};
ghost use Rattle.std.specs.FinMap as map;
ghost use Rattle.std.specs.Result.{result_map_both};
ghost use Rattle.gl_tokens.specs.BufferTarget.{from_code_of};
ghost use Rattle.gl_tokens.specs.declared.buffer_target.BufferTarget.{BufferTarget};
ghost use Rattle.buffer_objects.specs.Buffers.{opening_buffers, binding as binding_of, bound_at, bound_name, bytes_of, is_buffer as is_buffer_of};
ghost use Rattle.buffer_objects.specs.Commands.{given_names, behind_names, bind as bind_of, data_key as data_key_of, data_of, sub_key as sub_key_of, sub_data, with_bytes, is_past_bytes, without_name, without_names, sized as sized_of, spliced as spliced_of};
ghost use Rattle.buffer_objects.specs.Kept.{IsLive};

use crate::bindings::Bindings;
use crate::buffer_key::BufferKey;
use crate::object::{Object, bytes_of, size_of};
use crate::pieces::{sized, spliced};
use gl_records::Bytes;
use gl_tokens::{BufferTarget, BufferUsage, GlError};
use object_names::Names;
use std::alloc::{AllocError, Global};
use std::marker::Model;

/// So many bytes may be live: 2^26.
const MOST_BYTES: usize = 67108864;

/// The buffer objects of a context.
#[derive(Drop)]
pub struct Buffers {
    names: Names<Object>,
    bindings: Bindings,
    made: u64,
    live: usize,
    alloc: Global,
}

impl Model for Buffers {
    ghost use Rattle.buffer_objects.specs.Buffers.{BufferObjects, buffers_code, live_bytes};
    ghost use Rattle.buffer_objects.specs.Kept.{IsKept};
    ghost use Rattle.std.specs.Prelude.{◌≡◌};

    ghost Value = { BufferObjects };

    ghost coded = { buffers_code };

    ghost view = { λ b. record { names = b.names; bindings = b.bindings; made = b.made } };

    ghost invariant = { λ b. (b.live ≡ live_bytes (record { names = b.names; bindings = b.bindings; made = b.made })) × IsKept (record { names = b.names; bindings = b.bindings; made = b.made }) };
}

impl Buffers {
    /// No name is live, and nothing is bound. Nothing is allocated.
    pub fn new(alloc: Global) -> Buffers
        ensures { result ≡ opening_buffers }
    {
        Buffers {
            names: Names::new(alloc),
            bindings: Bindings::new(),
            made: 0,
            live: 0,
            alloc,
        }
    }

    /// The name that is bound to a target, 0 where none is.
    pub fn binding(&self, target: BufferTarget) -> u32
        ensures { result ≡ binding_of self.now target }
    {
        match self.bindings.at(target) {
            Some(key) => key.name,
            None => 0,
        }
    }

    /// Name and object that are bound to the target of this code, 0x8892 or 0x8893; None exactly where 0 is.
    pub fn bound(&self, target: u32) -> Option<(u32, BufferKey)>
        requires { IsSome (from_code_of target) }
        ensures value { result ≡ bound_at self.now target }
        ensures none { (result ≡ None) ↔ (bound_name self.now target ≡ 0) }
        ensures live { IfSome result (λ bound. IsLive self.now bound.1) }
        ensures given { IfSome result (λ bound. bound.1.serial < self.now.made) }
    {
        let bound = self.bound_to(target);
        let _held = &self.bindings;
        bound
    }

    fn bound_to(&self, target: u32) -> Option<(u32, BufferKey)>
        ensures { result ≡ bound_at self.now target }
    {
        let target = BufferTarget::from_code(target)?;
        let key = self.bindings.at(target)?;
        Some((key.name, key))
    }

    /// Whether a name stands for an object. One that was given and never bound doesn't, nor does 0.
    pub fn is_buffer(&self, name: u32) -> bool
        ensures { result ≡ is_buffer_of self.now name }
    {
        self.names.get(name).is_some()
    }

    /// The bytes of an object as they are now; none once it is deleted, also where its name stands for another.
    pub fn bytes(&self, key: BufferKey) -> &[u8]
        ensures { result.now ≡ bytes_of self.now key }
    {
        let Some(object) = self.names.get(key.name) else {
            return &[];
        };
        if object.serial != key.serial {
            return &[];
        }
        object.bytes.as_slice()
    }

    /// Runs GenBuffers: the least names that aren't live, so many, in rising order. They are live from now on, and stand
    /// for no object yet. InvalidValue where the count is below 0 or above 65536; OutOfMemory where more than 65536
    /// names would be live. With an error, and where memory is out, nothing is changed.
    pub fn make_names(&mut self, count: i32) -> Result<Result<Vec<u32>, GlError>, AllocError>
        ensures names { IfOk result (λ answer. result_map_both (λ names. names.items) (λ error. error) answer ≡ given_names self.old count) }
        ensures run { OnOk result (self.new ≡ behind_names self.old (given_names self.old count)) }
        ensures unchanged { OnErr result (self.new ≡ self.old) }
    {
        let names = self.names.make_names(count)?;
        Ok(names)
    }

    /// The names that GenBuffers would give, or its error.
    pub fn names_for(&self, count: i32) -> Result<Result<Vec<u32>, GlError>, AllocError>
        ensures { IfOk result (λ answer. result_map_both (λ names. names.items) (λ error. error) answer ≡ given_names self.now count) }
    {
        self.names.names_for(count)
    }

    /// Runs BindBuffer: with 0 nothing is bound to the target from now on, else the object that the name stands for;
    /// where it stands for none, one with no bytes is made. InvalidEnum where there is no such target; OutOfMemory where
    /// more than 65536 names would be live. With an error, and where memory is out, nothing is changed.
    pub fn bind(&mut self, target: u32, name: u32) -> Result<Option<GlError>, AllocError>
        ensures run { IfOk result (λ error. (self.new, error) ≡ bind_of self.old target name) }
        ensures unchanged { OnErr result (self.new ≡ self.old) }
    {
        let Some(target) = BufferTarget::from_code(target) else {
            return Ok(Some(GlError::InvalidEnum));
        };
        if name == 0 {
            self.bindings.put(target, None);
            return Ok(None);
        }
        if let Some(object) = self.names.get(name) {
            let serial = object.serial;
            self.bindings.put(target, Some(BufferKey { name, serial }));
            return Ok(None);
        }
        if self.names.lacks_room(name) {
            return Ok(Some(GlError::OutOfMemory));
        }
        let serial = self.made;
        if serial == u64::MAX {
            return Err(AllocError);
        }
        let bytes = Bytes::new(Vec::new(self.alloc));
        self.names.put(name, Object { serial, bytes })?;
        self.made = serial + 1;
        self.bindings.put(target, Some(BufferKey { name, serial }));
        Ok(None)
    }

    /// Runs BufferData: the object that is bound holds `size` bytes from now on, those of the piece, zeros past its end.
    /// InvalidEnum where there is no such target, then where there is no such usage; InvalidValue where the size is below
    /// 0; InvalidOperation where nothing is bound; OutOfMemory where more than 2^26 bytes would be live. With an error, and
    /// where memory is out, nothing is changed. Where the piece has as many bytes as asked for, none is copied.
    pub fn fill(
        &mut self,
        target: u32,
        usage: u32,
        size: i32,
        piece: Bytes,
    ) -> Result<Option<GlError>, AllocError>
        ensures run { IfOk result (λ error. (self.new, error) ≡ data_of self.old target usage size piece) }
        ensures unchanged { OnErr result (self.new ≡ self.old) }
    {
        let key = match self.data_key(target, usage, size) {
            Ok(key) => key,
            Err(error) => return Ok(Some(error)),
        };
        let size = size.unsigned_abs() as usize;
        let live = self.live - size_of(self.names.get(key.name)) + size;
        if live > MOST_BYTES {
            return Ok(Some(GlError::OutOfMemory));
        }
        let bytes = sized(self.alloc, piece, size)?;
        let serial = key.serial;
        self.names.replace(key.name, Object { serial, bytes });
        self.live = live;
        Ok(None)
    }

    /// Runs BufferSubData: `size` bytes of the object that is bound, from the byte `offset` on, are those of the piece,
    /// zeros past its end. InvalidEnum where there is no such target; InvalidValue where the offset or the size is below 0;
    /// InvalidOperation where nothing is bound; InvalidValue where the bytes don't lie within the object. With an error
    /// nothing is changed. No memory is taken.
    pub fn sub(&mut self, target: u32, offset: i32, size: i32, piece: &[u8]) -> Option<GlError>
        ensures run { (self.new, result) ≡ sub_data self.old target offset size piece.now }
    {
        let key = match self.sub_key(target, offset, size) {
            Ok(key) => key,
            Err(error) => return Some(error),
        };
        let start = offset.unsigned_abs() as usize;
        self.write(key, start, size.unsigned_abs() as usize, piece);
        None
    }

    /// Runs DeleteBuffers: these names, and the objects that they stand for, are gone, and what was bound of them isn't.
    /// 0 and names that aren't live are passed over.
    pub fn drop_names(&mut self, names: &[u32])
        ensures { self.new ≡ without_names self.old names.now }
    {
        for &name in names {
            self.drop_name(name);
        }
    }

    /// So many bytes of a live object, from a place on, are those of the piece from now on, zeros past its end.
    fn write(&mut self, key: BufferKey, place: usize, size: usize, piece: &[u8])
        requires live { IsLive self.old key }
        requires within { place + size ≤ length (bytes_of self.old key) }
        ensures { self.new ≡ with_bytes self.old key (spliced_of (bytes_of self.old key) place (sized_of size piece.now)) }
    {
        let serial = key.serial;
        let empty = Bytes::new(Vec::new(self.alloc));
        let object = self.names.replace(
            key.name,
            Object {
                serial,
                bytes: empty,
            },
        );
        let bytes = spliced(bytes_of(self.alloc, object), place, size, piece);
        self.names.replace(key.name, Object { serial, bytes });
    }

    fn drop_name(&mut self, name: u32)
        ensures { self.new ≡ without_name self.old name }
    {
        let gone = self.names.remove(name);
        self.live -= size_of(gone.as_ref());
        self.bindings.unbind(name);
    }

    /// The object that BufferData fills, or the first error but for memory.
    fn data_key(&self, target: u32, usage: u32, size: i32) -> Result<BufferKey, GlError>
        ensures value { result ≡ data_key_of self.now target usage size }
        ensures live { IfOk result (λ key. IsLive self.now key) }
    {
        let Some(target) = BufferTarget::from_code(target) else {
            return Err(GlError::InvalidEnum);
        };
        if BufferUsage::from_code(usage).is_none() {
            return Err(GlError::InvalidEnum);
        }
        if size < 0 {
            return Err(GlError::InvalidValue);
        }
        self.bindings.at(target).ok_or(GlError::InvalidOperation)
    }

    /// The object that BufferSubData writes to, or the first error.
    fn sub_key(&self, target: u32, offset: i32, size: i32) -> Result<BufferKey, GlError>
        ensures value { result ≡ sub_key_of self.now target offset size }
        ensures live { IfOk result (λ key. IsLive self.now key) }
        ensures within { IfOk result (λ key. nat_abs offset + nat_abs size ≤ length (bytes_of self.now key)) }
    {
        let Some(target) = BufferTarget::from_code(target) else {
            return Err(GlError::InvalidEnum);
        };
        if offset < 0 || size < 0 {
            return Err(GlError::InvalidValue);
        }
        let Some(key) = self.bindings.at(target) else {
            return Err(GlError::InvalidOperation);
        };
        let end = offset.unsigned_abs() as usize + size.unsigned_abs() as usize;
        if end > self.bytes(key).len() {
            return Err(GlError::InvalidValue);
        }
        Ok(key)
    }
}
