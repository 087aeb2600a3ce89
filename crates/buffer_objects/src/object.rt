ghost use Rattle.std.specs.Prelude.{◌≡◌, []};
ghost use Rattle.std.specs.Option.{option_copied, option_map_or};
ghost use Rattle.object_names.specs.Names.{size_or_0};
ghost use Rattle.buffer_objects.specs.Buffers.{object_size};

use gl_records::Bytes;
use std::alloc::Global;

/// A buffer object.
#[derive(Drop)]
pub struct Object {
    /// How many objects were made before this one.
    pub serial: u64,
    /// What it holds.
    pub bytes: Bytes,
}

/// How many bytes an object holds; none where there is none.
pub(crate) fn size_of(object: Option<&Object>) -> usize
    ensures { result ≡ size_or_0 object_size (option_copied object.entry) }
{
    match object {
        Some(object) => object.bytes.as_slice().len(),
        None => 0,
    }
}

/// What an object holds, in a vector; none is copied.
pub(crate) fn bytes_of(alloc: Global, object: Option<Object>) -> Vec<u8>
    ensures { result.items ≡ option_map_or (λ object. object.bytes) object [] }
{
    match object {
        Some(object) => object.bytes.into_vec(),
        None => Vec::new(alloc),
    }
}
