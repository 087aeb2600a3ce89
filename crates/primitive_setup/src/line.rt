//! Lines.
ghost use Rattle.std.specs.Prelude.{◌≡◌, ◌≤◌, ◌≤ℤ◌, pos, negsuc, IfSome};
ghost use Rattle.fx_arith.specs.Number.{floor_div};
ghost use Rattle.gl_records.specs.ClipVertex.{w_of};
ghost use Rattle.gl_records.specs.SetupRules.{AreRulesInRange};
ghost use Rattle.gl_records.specs.Valid.{IsValid};
ghost use Rattle.primitive_setup.specs.Bounds.{AreBoundsOf};
ghost use Rattle.primitive_setup.specs.LineSetup.{are_same_place as same_place, end_near as end_of, first_near as first_of, line_between as line_between_of, line_bounds as bounds_of, line_of};
ghost use Rattle.primitive_setup.specs.Window.{IsInWindow};

use crate::bounds::{cut, is_empty};
use crate::window::front_corner;
use gl_records::{ClipVertex, PixelBox, Prim, PrimKind, SetupRules, Size, VertexOut};

/// The line between two vertices, in their front colours.
#[tactic(auto, unfolding(crate::specs::LineSetup::line_of))]
pub(crate) fn line(rules: &SetupRules, size: Size, a: &ClipVertex, b: &ClipVertex) -> Option<Prim>
    requires rules_in_range { AreRulesInRange rules.now }
    requires first { pos 1 ≤ℤ w_of a.now }
    requires second { pos 1 ≤ℤ w_of b.now }
    ensures value { result ≡ line_of rules.now size a.now b.now }
    ensures valid { IfSome result (λ prim. IsValid prim size) }
    ensures bounds { IfSome result (λ prim. AreBoundsOf prim.kind size prim) }
{
    let a = front_corner(rules, a);
    let b = front_corner(rules, b);
    line_between(size, rules.line, &a, &b)
}

/// The line of this width between two ends. None where they are at the same place, or no pixel of the surface is in
/// its bounds.
fn line_between(size: Size, width: u16, a: &VertexOut, b: &VertexOut) -> Option<Prim>
    requires width_from { 1 ≤ width }
    requires width_to { width ≤ 16 }
    requires first { IsInWindow a.now }
    requires second { IsInWindow b.now }
    ensures value { result ≡ line_between_of size width a.now b.now }
    ensures valid { IfSome result (λ prim. IsValid prim size) }
    ensures bounds { IfSome result (λ prim. AreBoundsOf prim.kind size prim) }
{
    if are_same_place(a, b) {
        return None;
    }
    let bounds = line_bounds(size, width, a, b);
    if is_empty(&bounds) {
        return None;
    }
    Some(Prim {
        kind: PrimKind::Line,
        verts: [*a, *b, *b],
        width,
        bounds,
    })
}

fn are_same_place(a: &VertexOut, b: &VertexOut) -> bool
    ensures { result ≡ same_place a.now b.now }
{
    a.x == b.x && a.y == b.y
}

/// The pixels of the surface up to the line's width beyond the box of its ends.
#[tactic(auto, unfolding(crate::specs::LineSetup::line_bounds))]
fn line_bounds(size: Size, width: u16, a: &VertexOut, b: &VertexOut) -> PixelBox
    requires width { width ≤ 16 }
    requires first { IsInWindow a.now }
    requires second { IsInWindow b.now }
    ensures { result ≡ bounds_of size width a.now b.now }
{
    cut(
        size,
        first_near(a.x, b.x, width),
        first_near(a.y, b.y, width),
        end_near(a.x, b.x, width),
        end_near(a.y, b.y, width),
    )
}

/// The column, or row, that is the line's width before its lesser end.
fn first_near(start: i32, end: i32, width: u16) -> i32
    requires start_from { negsuc 65535 ≤ℤ start }
    requires start_to { start ≤ℤ pos 98304 }
    requires end_from { negsuc 65535 ≤ℤ end }
    requires end_to { end ≤ℤ pos 98304 }
    requires width { width ≤ 16 }
    ensures { result ≡ first_of start end width }
{
    pixel_of(start.min(end)) - i32::from(width)
}

/// One past the column, or row, that is the line's width past its greater end.
fn end_near(start: i32, end: i32, width: u16) -> i32
    requires start_from { negsuc 65535 ≤ℤ start }
    requires start_to { start ≤ℤ pos 98304 }
    requires end_from { negsuc 65535 ≤ℤ end }
    requires end_to { end ≤ℤ pos 98304 }
    requires width { width ≤ 16 }
    ensures { result ≡ end_of start end width }
{
    pixel_of(start.max(end)) + i32::from(width) + 1
}

/// The column, or row, that holds the place.
fn pixel_of(place: i32) -> i32
    requires from { negsuc 65535 ≤ℤ place }
    requires to { place ≤ℤ pos 98304 }
    ensures value { result ≡ floor_div place 16 }
    ensures at_least { negsuc 65535 ≤ℤ result }
    ensures at_most { result ≤ℤ pos 98304 }
{
    place >> 4
}
