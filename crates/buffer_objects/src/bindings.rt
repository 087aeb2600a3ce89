ghost use Rattle.std.specs.Prelude.{◌≡◌};
ghost use Rattle.buffer_objects.specs.Buffers.{key_at, with_key, opening_bindings};
ghost use Rattle.buffer_objects.specs.Commands.{unbound_key, unbound as unbound_of};

use crate::buffer_key::BufferKey;
use gl_tokens::BufferTarget;

/// The buffer objects that are bound, each to its target.
#[derive(Clone, Copy, Debug, PartialEq, Eq)]
pub struct Bindings {
    /// The one that pointers of vertex arrays speak of.
    pub array: Option<BufferKey>,
    /// The one that indices are read from.
    pub element_array: Option<BufferKey>,
}

impl Bindings {
    pub(crate) fn new() -> Bindings
        ensures { result ≡ opening_bindings }
    {
        Bindings {
            array: None,
            element_array: None,
        }
    }

    /// The object that is bound to a target.
    pub(crate) fn at(&self, target: BufferTarget) -> Option<BufferKey>
        ensures { result ≡ key_at self.now target }
    {
        match target {
            BufferTarget::Array => self.array,
            BufferTarget::ElementArray => self.element_array,
        }
    }

    pub(crate) fn put(&mut self, target: BufferTarget, key: Option<BufferKey>)
        ensures { self.new ≡ with_key self.old target key }
    {
        match target {
            BufferTarget::Array => self.array = key,
            BufferTarget::ElementArray => self.element_array = key,
        }
    }

    /// An object with this name is bound to no target any more.
    pub(crate) fn unbind(&mut self, name: u32)
        ensures { self.new ≡ unbound_of self.old name }
    {
        self.array = unbound(self.array, name);
        self.element_array = unbound(self.element_array, name);
    }
}

fn unbound(key: Option<BufferKey>, name: u32) -> Option<BufferKey>
    ensures { result ≡ unbound_key key name }
{
    match key {
        Some(key) => { if key.name == name { None } else { Some(key) } }
        None => None,
    }
}
