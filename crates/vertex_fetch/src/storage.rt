ghost use Rattle.std.specs.Prelude.{◌≡◌};
ghost use Rattle.vertex_fetch.specs.Storage.{storage, is_nowhere as is_nowhere_of, stored};

use crate::regions::{LAST_REGION, Regions};
use buffer_objects::{BufferKey, Buffers};

/// What holds the bytes of an array or of indices.
#[derive(Clone, Copy, Debug, PartialEq, Eq)]
pub enum Storage {
    /// A buffer object, by what it holds when it is read.
    Buffer(BufferKey),
    /// A client region.
    Region(u32),
}

impl Storage {
    /// The buffer object that is bound where a command speaks of its array or indices, else the client region that it
    /// names.
    pub fn new(bound: Option<BufferKey>, region: u32) -> Storage
        ensures { result ≡ storage bound region }
    {
        match bound {
            Some(key) => Storage::Buffer(key),
            None => Storage::Region(region),
        }
    }

    /// Whether there is no such client region.
    pub(crate) fn is_nowhere(self) -> bool
        ensures { result ≡ is_nowhere_of self }
    {
        match self {
            Storage::Buffer(_) => false,
            Storage::Region(region) => region > LAST_REGION,
        }
    }

    /// The bytes that it holds: none once the buffer object is deleted, none where there is no such region.
    pub(crate) fn bytes<'a>(self, buffers: &'a Buffers, regions: &'a Regions) -> &'a [u8]
        ensures { result.now ≡ stored buffers.now regions.now self }
    {
        match self {
            Storage::Buffer(key) => buffers.bytes(key),
            Storage::Region(region) => regions.bytes(region),
        }
    }
}
