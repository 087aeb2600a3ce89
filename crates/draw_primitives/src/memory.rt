ghost use Rattle.std.specs.Prelude.{◌≡◌};
ghost use Rattle.draw_primitives.specs.Memory.{Memory as MemoryOf};

use buffer_objects::Buffers;
use std::marker::Model;
use vertex_fetch::{Arrays, Regions};

/// What vertices are read from: the arrays, and what buffer objects and client regions hold.
#[derive(Drop)]
pub struct Memory<'a> {
    pub(crate) arrays: &'a Arrays,
    pub(crate) buffers: &'a Buffers,
    pub(crate) regions: &'a Regions,
}

impl<'a> Model for Memory<'a> {
    ghost use Rattle.buffer_objects.specs.Buffers.{buffers_code};
    ghost use Rattle.draw_primitives.specs.Memory.{Memory};
    ghost use Rattle.std.specs.Coded.{codes};

    ghost Value = { Memory };

    ghost coded = { Prim.hlevel (codes, buffers_code) };

    ghost view = { λ memory. record {
      arrays = memory.arrays.now;
      buffers = memory.buffers.now;
      regions = memory.regions.now;
    } };
}

impl<'a> Memory<'a> {
    /// These arrays, buffer objects and client regions.
    pub fn new(arrays: &'a Arrays, buffers: &'a Buffers, regions: &'a Regions) -> Memory<'a>
        ensures { result ≡ record { arrays = arrays.now; buffers = buffers.now; regions = regions.now } }
    {
        Memory {
            arrays,
            buffers,
            regions,
        }
    }
}
