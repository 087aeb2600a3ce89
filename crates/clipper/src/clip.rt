ghost use Rattle.std.specs.Prelude.{◌≡◌, ◌<◌, ◌≤◌, ◌+◌, IfSome, IsTrue, length};
ghost use Rattle.std.specs.List.{All, list_all};
ghost use Rattle.clipper.specs.Planes.{is_inside, planes as planes_of, IsInFront};
ghost use Rattle.clipper.specs.Polygon.{clipped_polygon};
ghost use Rattle.clipper.specs.Segment.{clipped_segment};

use crate::planes::planes;
use crate::polygon::{CORNERS, clip_by};
use crate::segment::shortened;
use arrayvec::ArrayVec;
use gl_records::ClipVertex;

/// Whether a point is inside of each plane, the user's among them where `plane` says so (OpenGL ES 1.1.12, 2.11).
pub fn clip_point(v: &ClipVertex, plane: bool) -> bool
    ensures value { result ≡ list_all (λ side. is_inside side v.now) (planes_of plane) }
    ensures in_front { IsTrue result → IsInFront v.now }
{
    for side in planes(plane) {
        if !side.is_inside(v) {
            return false;
        }
    }
    true
}

/// The part of a segment that is inside of each plane, the user's among them where `plane` says so, or none
/// (OpenGL ES 1.1.12, 2.11; the order of the planes and the rounding are this project's profile). Its ends keep
/// their order.
pub fn clip_line(v: &[ClipVertex; 2], plane: bool) -> Option<[ClipVertex; 2]>
    ensures value { result ≡ clipped_segment v.now (planes_of plane) }
    ensures in_front { IfSome result (λ ends. All IsInFront ends) }
{
    let mut ends = *v;
    for side in planes(plane) {
        ends = shortened(ends, *side)?;
    }
    Some(ends)
}

/// The part of a triangle that is inside of each plane, the user's among them where `plane` says so: the corners
/// of a polygon in their order, to be drawn as a fan, or none (OpenGL ES 1.1.12, 2.11; the order of the planes and
/// the rounding are this project's profile). Where a plane cuts, the list begins with the crossing at which the
/// polygon comes in.
pub fn clip_triangle(v: &[ClipVertex; 3], plane: bool) -> ArrayVec<ClipVertex, CORNERS>
    ensures value { result.items ≡ clipped_polygon v.now (planes_of plane) }
    ensures in_front { All IsInFront result.items }
    ensures at_most { length result.items ≤ 3 + length (planes_of plane) }
    ensures at_least { 0 < length result.items → 3 ≤ length result.items }
{
    let mut polygon = ArrayVec::new();
    for corner in v {
        polygon.push(*corner);
    }
    for side in planes(plane) {
        clip_by(&mut polygon, *side);
    }
    polygon
}
