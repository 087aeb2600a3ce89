//! Points.
ghost use Rattle.std.specs.Prelude.{◌≡◌, ◌≤◌, ◌≤ℤ◌, pos, IfSome};
ghost use Rattle.gl_records.specs.ClipVertex.{w_of};
ghost use Rattle.gl_records.specs.SetupRules.{AreRulesInRange};
ghost use Rattle.gl_records.specs.Valid.{IsValid};
ghost use Rattle.primitive_setup.specs.Bounds.{AreBoundsOf};
ghost use Rattle.primitive_setup.specs.PointSetup.{point_at as point_at_of, point_bounds as bounds_of, point_of};
ghost use Rattle.primitive_setup.specs.Window.{IsInWindow};

use crate::bounds::{cut, is_empty};
use crate::window::front_corner;
use gl_records::{ClipVertex, PixelBox, Prim, PrimKind, SetupRules, Size, VertexOut, first_about};

/// The point at a vertex, in its front colour.
#[tactic(auto, unfolding(crate::specs::PointSetup::point_of))]
pub(crate) fn point(rules: &SetupRules, size: Size, v: &ClipVertex) -> Option<Prim>
    requires rules_in_range { AreRulesInRange rules.now }
    requires in_front { pos 1 ≤ℤ w_of v.now }
    ensures value { result ≡ point_of rules.now size v.now }
    ensures valid { IfSome result (λ prim. IsValid prim size) }
    ensures bounds { IfSome result (λ prim. AreBoundsOf prim.kind size prim) }
{
    let v = front_corner(rules, v);
    point_at(size, rules.point, &v)
}

/// The point of this size at a place. None where it covers no pixel of the surface.
fn point_at(size: Size, width: u16, v: &VertexOut) -> Option<Prim>
    requires width_from { 1 ≤ width }
    requires width_to { width ≤ 64 }
    requires place { IsInWindow v.now }
    ensures value { result ≡ point_at_of size width v.now }
    ensures valid { IfSome result (λ prim. IsValid prim size) }
    ensures bounds { IfSome result (λ prim. AreBoundsOf prim.kind size prim) }
{
    let bounds = point_bounds(size, width, v);
    if is_empty(&bounds) {
        return None;
    }
    Some(Prim {
        kind: PrimKind::Point,
        verts: [*v; 3],
        width,
        bounds,
    })
}

/// The pixels of the surface that a point covers.
#[tactic(auto, unfolding(crate::specs::PointSetup::point_bounds))]
fn point_bounds(size: Size, width: u16, v: &VertexOut) -> PixelBox
    requires width_from { 1 ≤ width }
    requires width_to { width ≤ 64 }
    requires place { IsInWindow v.now }
    ensures { result ≡ bounds_of size width v.now }
{
    let left = first_about(v.x, width);
    let bottom = first_about(v.y, width);
    let side = i32::from(width);
    cut(size, left, bottom, left + side, bottom + side)
}
