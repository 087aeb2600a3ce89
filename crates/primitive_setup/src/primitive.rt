ghost use Rattle.std.specs.Prelude.{◌≡◌, ◌≢◌, ◌≤◌, ◌^◌, ◌≤ℤ◌, pos, negsuc, unsigned_abs, IfSome};
ghost use Rattle.gl_records.specs.ClipVertex.{AreInFront, vertex};
ghost use Rattle.gl_records.specs.SetupRules.{AreRulesInRange};
ghost use Rattle.gl_records.specs.Valid.{IsValid};
ghost use Rattle.gl_records.specs.Coverage.{doubled_area as area_in};
ghost use Rattle.primitive_setup.specs.Bounds.{AreBoundsOf};
ghost use Rattle.primitive_setup.specs.Offset.{with_offset as corner_with_offset};
ghost use Rattle.primitive_setup.specs.Setup.{offset_triangle as offset_triangle_of, setup_of, triangle_of, counterclockwise_triangle as counterclockwise_of};
ghost use Rattle.primitive_setup.specs.Window.{IsInWindow};

use crate::bounds::{is_empty, pixel_bounds};
use crate::facing::{doubled_area, faces_front, is_culled, takes_back_colors};
use crate::line::line;
use crate::offset::depth_offset;
use crate::point::point;
use crate::window::{corner, viewport_transform};
use fx_arith::Fx;
use gl_records::{ClipVertex, Prim, PrimKind, SetupRules, Size, VertexOut};

/// The primitive that these clipped vertices make, in window coordinates. Of a line the first two count, of a point
/// the first. None where the standard draws nothing: a triangle without area, one whose visible side is culled,
/// a line whose ends are at the same place, and a primitive with no pixel of the surface in its bounds.
pub fn setup(rules: &SetupRules, kind: PrimKind, v: &[ClipVertex; 3], size: Size) -> Option<Prim>
    requires rules_in_range { AreRulesInRange rules.now }
    requires in_front { AreInFront v.now }
    ensures value { result ≡ setup_of rules.now kind v.now size }
    ensures valid { IfSome result (λ prim. IsValid prim size) }
    ensures bounds { IfSome result (λ prim. AreBoundsOf prim.kind size prim) }
{
    match kind {
        PrimKind::Triangle => triangle(rules, size, v),
        PrimKind::Line => line(rules, size, &v[0], &v[1]),
        PrimKind::Point => point(rules, size, &v[0]),
    }
}

#[tactic(auto, unfolding(crate::specs::Setup::triangle_of, crate::specs::Setup::visible_triangle))]
fn triangle(rules: &SetupRules, size: Size, v: &[ClipVertex; 3]) -> Option<Prim>
    requires rules_in_range { AreRulesInRange rules.now }
    requires in_front { AreInFront v.now }
    ensures value { result ≡ triangle_of rules.now size (vertex v.now 0) (vertex v.now 1) (vertex v.now 2) }
    ensures valid { IfSome result (λ prim. IsValid prim size) }
    ensures bounds { IfSome result (λ prim. AreBoundsOf prim.kind size prim) }
{
    let a = viewport_transform(rules, &v[0]);
    let b = viewport_transform(rules, &v[1]);
    let c = viewport_transform(rules, &v[2]);
    let area = doubled_area(a, b, c);
    let front = faces_front(rules.front_ccw, area);
    if area == 0 || is_culled(&rules.cull, front) {
        return None;
    }
    let behind = takes_back_colors(rules.two_side, front);
    let a = corner(rules, behind, &v[0], a);
    let b = corner(rules, behind, &v[1], b);
    let c = corner(rules, behind, &v[2], c);
    counterclockwise_triangle(&rules.offset, size, area, &a, &b, &c)
}

/// The triangle of these corners and of this doubled area.
#[tactic(auto, unfolding(crate::specs::Setup::counterclockwise_triangle))]
fn counterclockwise_triangle(
    offset: &Option<[Fx; 2]>,
    size: Size,
    area: i64,
    a: &VertexOut,
    b: &VertexOut,
    c: &VertexOut,
) -> Option<Prim>
    requires nonzero { area ≢ pos 0 }
    requires bound { unsigned_abs area ≤ 2 ^ 43 }
    requires of_corners { area ≡ area_in a.now.x a.now.y b.now.x b.now.y c.now.x c.now.y }
    requires first { IsInWindow a.now }
    requires second { IsInWindow b.now }
    requires third { IsInWindow c.now }
    ensures value { result ≡ counterclockwise_of offset.now size area a.now b.now c.now }
    ensures valid { IfSome result (λ prim. IsValid prim size) }
    ensures bounds { IfSome result (λ prim. AreBoundsOf prim.kind size prim) }
{
    if area < 0 {
        offset_triangle(offset, size, area.unsigned_abs(), a, c, b)
    } else {
        offset_triangle(offset, size, area.unsigned_abs(), a, b, c)
    }
}

/// The triangle of these corners, which run counterclockwise, and of this doubled area.
#[tactic(auto, unfolding(crate::specs::Setup::offset_triangle))]
fn offset_triangle(
    offset: &Option<[Fx; 2]>,
    size: Size,
    area: u64,
    a: &VertexOut,
    b: &VertexOut,
    c: &VertexOut,
) -> Option<Prim>
    requires area_from { 1 ≤ area }
    requires area_to { area ≤ 2 ^ 43 }
    requires counterclockwise { area_in a.now.x a.now.y b.now.x b.now.y c.now.x c.now.y ≡ pos area }
    requires first { IsInWindow a.now }
    requires second { IsInWindow b.now }
    requires third { IsInWindow c.now }
    ensures value { result ≡ offset_triangle_of offset.now size area a.now b.now c.now }
    ensures valid { IfSome result (λ prim. IsValid prim size) }
    ensures bounds { IfSome result (λ prim. AreBoundsOf prim.kind size prim) }
{
    let bounds = pixel_bounds(size, a, b, c);
    if is_empty(&bounds) {
        return None;
    }
    let offset = depth_offset(offset, area, a, b, c);
    Some(Prim {
        kind: PrimKind::Triangle,
        verts: [
            with_offset(a, offset),
            with_offset(b, offset),
            with_offset(c, offset),
        ],
        width: 0,
        bounds,
    })
}

/// The corner with this offset added to its depth.
fn with_offset(v: &VertexOut, offset: i32) -> VertexOut
    requires offset_from { negsuc 33554431 ≤ℤ offset }
    requires offset_to { offset ≤ℤ pos 33554432 }
    requires in_window { IsInWindow v.now }
    ensures { result ≡ corner_with_offset offset v.now }
{
    let mut corner = *v;
    corner.z += offset;
    corner
}
