ghost use Rattle.std.specs.Prelude.{◌≡◌, [], OnSome};
ghost use Rattle.vertex_fetch.specs.Regions.{opening_regions, with_region, bytes_of};

use gl_records::Bytes;
use gl_tokens::GlError;
use std::alloc::Global;
use std::marker::Model;

/// The greatest number of a region.
pub(crate) const LAST_REGION: u32 = 15;

/// The client regions, which arrays are read from. ClientBytes sets them.
#[derive(Drop)]
pub struct Regions {
    all: [Bytes; 16],
}

impl Model for Regions {
    ghost use Rattle.std.specs.Prelude.{ℕ, List, length, ◌≡◌};

    ghost Value = { List (List ℕ) };

    ghost view = { λ regions. regions.all };

    ghost invariant = { λ regions. length regions.all ≡ 16 };
}

/// No bytes, in no memory.
fn empty(alloc: Global) -> Bytes
    ensures { result ≡ [] }
{
    Bytes::new(Vec::new(alloc))
}

impl Regions {
    /// Regions with no bytes. Nothing is allocated.
    pub fn new(alloc: Global) -> Regions
        ensures { result ≡ opening_regions }
    {
        Regions {
            all: [
                empty(alloc),
                empty(alloc),
                empty(alloc),
                empty(alloc),
                empty(alloc),
                empty(alloc),
                empty(alloc),
                empty(alloc),
                empty(alloc),
                empty(alloc),
                empty(alloc),
                empty(alloc),
                empty(alloc),
                empty(alloc),
                empty(alloc),
                empty(alloc),
            ],
        }
    }

    /// Runs ClientBytes: the region holds the piece from now on, and no other bytes. InvalidValue where the region
    /// is above 15; then nothing is changed.
    pub fn set(&mut self, region: u32, piece: Bytes) -> Option<GlError>
        ensures run { (self.new, result) ≡ with_region self.old region piece }
        ensures unchanged { OnSome result (self.new ≡ self.old) }
    {
        if region > LAST_REGION {
            return Some(GlError::InvalidValue);
        }
        self.all[region as usize] = piece;
        None
    }

    /// The bytes that a region holds; none where there is no such region.
    pub fn bytes(&self, region: u32) -> &[u8]
        ensures { result.now ≡ bytes_of self.now region }
    {
        match self.all.get(region as usize) {
            Some(piece) => piece.as_slice(),
            None => &[],
        }
    }
}
