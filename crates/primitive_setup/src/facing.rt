ghost use Rattle.std.specs.Prelude.{◌≡◌, ◌≤◌, ◌^◌, unsigned_abs};
ghost use Rattle.primitive_setup.specs.Facing.{faces_front as front_is_seen, is_culled as side_is_culled, takes_back_colors as back_colors_of};
ghost use Rattle.primitive_setup.specs.Setup.{area_of};
ghost use Rattle.primitive_setup.specs.Window.{IsInViewport};

use crate::cross::cross;
use crate::window::Place;
use fx_arith::span;

/// Twice the area of a triangle, in units of 1/256 square pixel: above 0 where its corners run
/// counterclockwise.
#[tactic(auto, unfolding(gl_records::specs::Coverage::doubled_area))]
pub(crate) fn doubled_area(a: Place, b: Place, c: Place) -> i64
    requires first { IsInViewport a }
    requires second { IsInViewport b }
    requires third { IsInViewport c }
    ensures value { result ≡ area_of a b c }
    ensures bound { unsigned_abs result ≤ 2 ^ 43 }
{
    cross(
        span(a.x, b.x),
        span(a.y, b.y),
        span(a.x, c.x),
        span(a.y, c.y),
    )
}

/// Whether the front of a triangle of this doubled area is seen.
#[tactic(auto, unfolding(crate::specs::Facing::faces_front))]
pub(crate) fn faces_front(front_is_counterclockwise: bool, area: i64) -> bool
    ensures { result ≡ front_is_seen front_is_counterclockwise area }
{
    if front_is_counterclockwise {
        0 < area
    } else {
        area < 0
    }
}

/// Whether culling is on for the side that is seen.
#[tactic(auto, unfolding(crate::specs::Facing::is_culled))]
pub(crate) fn is_culled(sides: &Option<[bool; 2]>, front: bool) -> bool
    ensures { result ≡ side_is_culled sides.now front }
{
    match sides {
        Some(sides) => if front { sides[0] } else { sides[1] },
        None => false,
    }
}

/// Whether a triangle takes its corners' back colours.
#[tactic(auto, unfolding(crate::specs::Facing::takes_back_colors))]
pub(crate) fn takes_back_colors(two_side: bool, front: bool) -> bool
    ensures { result ≡ back_colors_of two_side front }
{
    two_side && !front
}
