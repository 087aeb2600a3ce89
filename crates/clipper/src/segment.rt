ghost use Rattle.std.specs.Prelude.{◌≡◌};
ghost use Rattle.clipper.specs.Segment.{shortened as shortened_of};

use crate::crossing::crossing;
use crate::planes::Plane;
use gl_records::ClipVertex;

/// The part of a segment on the inner side of a plane.
#[tactic(auto, unfolding(crate::specs::Segment::shortened))]
pub(crate) fn shortened(ends: [ClipVertex; 2], plane: Plane) -> Option<[ClipVertex; 2]>
    ensures { result ≡ shortened_of ends plane }
{
    let [a, b] = ends;
    match (plane.is_inside(&a), plane.is_inside(&b)) {
        (true, true) => Some([a, b]),
        (true, false) => Some([a, crossing(plane, &a, &b)]),
        (false, true) => Some([crossing(plane, &b, &a), b]),
        (false, false) => None,
    }
}
