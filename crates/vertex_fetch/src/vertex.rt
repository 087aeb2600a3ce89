ghost use Rattle.std.specs.Prelude.{◌≡◌};
ghost use Rattle.vertex_fetch.specs.Fetch.{fetch_of};

use crate::arrays::Arrays;
use crate::regions::Regions;
use buffer_objects::Buffers;
use gl_records::Attribs;

/// The vertex with this index in the arrays. Where an array is off, the vertex has the current value; so has the
/// position. A byte that lies outside of what an array's buffer object or client region holds is 0.
#[tactic(auto, unfolding(crate::specs::Fetch::fetch_of))]
pub fn fetch(
    arrays: &Arrays,
    buffers: &Buffers,
    regions: &Regions,
    current: &Attribs,
    index: u32,
) -> Attribs
    ensures { result ≡ fetch_of arrays.now buffers.now regions.now current.now index }
{
    let [first, second] = &current.tex;
    Attribs {
        pos: arrays.vertex.four(buffers, regions, &current.pos, index),
        normal: arrays
            .normal
            .three(buffers, regions, &current.normal, index),
        color: arrays.color.four(buffers, regions, &current.color, index),
        tex: [
            arrays.texture0.four(buffers, regions, first, index),
            arrays.texture1.four(buffers, regions, second, index),
        ],
    }
}
