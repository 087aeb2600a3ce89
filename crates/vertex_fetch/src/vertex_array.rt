ghost use Rattle.std.specs.Prelude.{◌≡◌};
ghost use Rattle.vertex_fetch.specs.Fetch.{three_of, four_of};

use crate::pointer::Pointer;
use crate::regions::Regions;
use buffer_objects::Buffers;
use fx_arith::Fx;

/// A vertex array: where it lies, and whether it is on.
#[derive(Clone, Copy, Debug, PartialEq, Eq)]
pub struct VertexArray {
    pub pointer: Pointer,
    pub on: bool,
}

impl VertexArray {
    /// Element k, where the array is on, else what is current.
    #[tactic(auto, unfolding(crate::specs::Fetch::three_of))]
    pub(crate) fn three(
        &self,
        buffers: &Buffers,
        regions: &Regions,
        current: &[Fx; 3],
        k: u32,
    ) -> [Fx; 3]
        ensures { result ≡ three_of self.now buffers.now regions.now current.now k }
    {
        if self.on {
            self.pointer
                .three(self.pointer.storage().bytes(buffers, regions), k)
        } else {
            *current
        }
    }

    /// The same of four components.
    #[tactic(auto, unfolding(crate::specs::Fetch::four_of))]
    pub(crate) fn four(
        &self,
        buffers: &Buffers,
        regions: &Regions,
        current: &[Fx; 4],
        k: u32,
    ) -> [Fx; 4]
        ensures { result ≡ four_of self.now buffers.now regions.now current.now k }
    {
        if self.on {
            self.pointer
                .four(self.pointer.storage().bytes(buffers, regions), k)
        } else {
            *current
        }
    }
}
