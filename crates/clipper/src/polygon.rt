ghost use Rattle.std.specs.Prelude.{◌≡◌, ◌<◌, ◌-◌, length};
ghost use Rattle.std.specs.List.{list_all, list_any};
ghost use Rattle.arrayvec.specs.ArrayVec.{array_vec_len};
ghost use Rattle.clipper.specs.Planes.{is_inside};
ghost use Rattle.clipper.specs.Polygon.{clipped, cut as cut_of, first_out as first_out_of, goes_out as goes_out_at, run_length as run_length_of, turned, IsMixed, IsTurned, ComesInAt};

use crate::crossing::crossing;
use crate::planes::Plane;
use arrayvec::ArrayVec;
use gl_records::ClipVertex;

/// As many corners as a triangle can have once each of the eight planes has cut it.
pub const CORNERS: usize = 11;

/// Leaves of a polygon the part on the inner side of a plane.
#[tactic(auto, unfolding(crate::specs::Polygon::clipped))]
pub(crate) fn clip_by(polygon: &mut ArrayVec<ClipVertex, CORNERS>, plane: Plane)
    requires { array_vec_len polygon.old < CORNERS }
    ensures { polygon.new.items ≡ clipped polygon.old.items plane }
{
    let corners = polygon.as_slice();
    if all_inside(corners, plane) {
        return;
    }
    if !any_inside(corners, plane) {
        polygon.clear();
        return;
    }
    let out = first_out(corners, plane);
    polygon.rotate_left(out + 1);
    cut(polygon, plane);
}

fn all_inside(corners: &[ClipVertex], plane: Plane) -> bool
    ensures { result ≡ list_all (is_inside plane) corners.now }
{
    corners.iter().all(|corner| plane.is_inside(corner))
}

fn any_inside(corners: &[ClipVertex], plane: Plane) -> bool
    ensures { result ≡ list_any (is_inside plane) corners.now }
{
    corners.iter().any(|corner| plane.is_inside(corner))
}

/// The least corner that is inside while the one after it, for the last corner 0, is outside.
fn first_out(corners: &[ClipVertex], plane: Plane) -> usize
    requires { IsMixed plane corners.now }
    ensures value { result ≡ first_out_of plane corners.now }
    ensures within { result < length corners.now }
    ensures turns { IsTurned plane (turned result corners.now) }
{
    let count = corners.len();
    for i in 0..count {
        if goes_out(corners, plane, i) {
            return i;
        }
    }
    count
}

/// Whether corner `i` is inside and the one after it outside.
fn goes_out(corners: &[ClipVertex], plane: Plane, i: usize) -> bool
    requires { i < length corners.now }
    ensures { result ≡ goes_out_at plane corners.now i }
{
    let next = (i + 1) % corners.len();
    plane.is_inside(&corners[i]) && !plane.is_inside(&corners[next])
}

/// Where the run of inside corners at the end begins.
fn run_start(corners: &[ClipVertex], plane: Plane) -> usize
    requires { IsTurned plane corners.now }
    ensures value { result ≡ length corners.now - run_length_of plane corners.now }
    ensures comes_in { ComesInAt plane corners.now result }
{
    let mut start = 0;
    for (i, corner) in corners.iter().enumerate() {
        if !plane.is_inside(corner) {
            start = i + 1;
        }
    }
    start
}

/// Takes the crossings of the two cut edges in place of a polygon's outside corners. Only the run of inside
/// corners at the end is kept.
#[tactic(auto, unfolding(crate::specs::Polygon::cut))]
fn cut(polygon: &mut ArrayVec<ClipVertex, CORNERS>, plane: Plane)
    requires room { array_vec_len polygon.old < CORNERS }
    requires turned { IsTurned plane polygon.old.items }
    ensures { polygon.new.items ≡ cut_of plane polygon.old.items }
{
    let corners = polygon.as_slice();
    let (start, count) = (run_start(corners, plane), corners.len());
    let before = crossing(plane, &corners[start], &corners[start - 1]);
    let after = crossing(plane, &corners[count - 1], &corners[0]);
    polygon.rotate_left(start);
    polygon.truncate(count - start);
    polygon.insert(0, before);
    polygon.push(after);
}
