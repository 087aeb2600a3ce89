//! What clipping leaves of a primitive, piece by piece.
ghost use Rattle.std.specs.Prelude.{◌≡◌, ◌≤◌, ◌++◌, [], ◌∷◌, Some, IsNone, IfSome, All, option_to_list, if◌then◌else◌};
ghost use Rattle.gl_records.specs.SetupRules.{AreRulesInRange};
ghost use Rattle.gl_records.specs.Valid.{IsValid};
ghost use Rattle.std.specs.List.{list_all};
ghost use Rattle.clipper.specs.Planes.{IsInFront, is_inside, planes};
ghost use Rattle.draw_primitives.specs.Fan.{clipped as clipped_of, fan as fan_of, fan_from, point_corners, segment_corners, set_up};

use arrayvec::ArrayVec;
use clipper::{CORNERS, clip_line, clip_point, clip_triangle};
use gl_records::{ClipVertex, Prim, PrimKind, SetupRules, Size};
use primitive_setup::setup;
use std::marker::Model;

/// The pieces still to come of a clipped primitive: triangles of its polygon's fan.
#[derive(Drop)]
pub struct Fan {
    polygon: ArrayVec<ClipVertex, CORNERS>,
    /// The triangle that comes next.
    next: usize,
}

impl Model for Fan {
    ghost use Rattle.std.specs.Prelude.{List, All};
    ghost use Rattle.gl_records.specs.declared.clip_vertex.ClipVertex.{ClipVertex};
    ghost use Rattle.clipper.specs.Planes.{IsInFront};
    ghost use Rattle.draw_primitives.specs.Fan.{fan_from};

    ghost Value = { List (List ClipVertex) };

    ghost view = { λ fan. fan_from fan.polygon.items fan.next };

    ghost invariant = { λ fan. All IsInFront fan.polygon.items };
}

impl Fan {
    /// Nothing.
    pub fn empty() -> Fan
        ensures { result ≡ [] }
    {
        Fan {
            polygon: ArrayVec::new(),
            next: 0,
        }
    }

    /// What clipping leaves of the primitive with these corners, by the planes of the clip volume and, where `user` says
    /// so, by the user's plane.
    pub fn clipped(kind: PrimKind, user: bool, corners: &[ClipVertex; 3]) -> Fan
        ensures { result ≡ fan_of (clipped_of kind user corners.now) }
    {
        Fan {
            polygon: clipped(kind, user, corners),
            next: 0,
        }
    }

    /// Takes pieces until set-up makes a primitive of one, and answers it; None where it makes none of any that is left.
    pub fn next(&mut self, rules: &SetupRules, kind: PrimKind, size: Size) -> Option<Prim>
        requires { AreRulesInRange rules.now }
        ensures prims { set_up rules.now kind size self.old ≡ option_to_list result ++ set_up rules.now kind size self.new }
        ensures none { IsNone result → self.new ≡ [] }
        ensures valid { IfSome result (λ prim. IsValid prim size) }
    {
        let (prim, next) = next_prim(&self.polygon, self.next, rules, kind, size);
        self.next = next;
        prim
    }
}

/// The corners of the polygon that clipping leaves.
fn clipped(kind: PrimKind, user: bool, corners: &[ClipVertex; 3]) -> ArrayVec<ClipVertex, CORNERS>
    ensures value { result.items ≡ clipped_of kind user corners.now }
    ensures in_front { All IsInFront result.items }
{
    match kind {
        PrimKind::Triangle => clip_triangle(corners, user),
        PrimKind::Line => match clip_line(&[corners[0], corners[1]], user) {
            Some(ends) => segment(ends),
            None => ArrayVec::new(),
        },
        PrimKind::Point => point(corners[0], user),
    }
}

/// The corners that stand for a segment.
fn segment(ends: [ClipVertex; 2]) -> ArrayVec<ClipVertex, CORNERS>
    requires { All IsInFront ends }
    ensures value { result.items ≡ segment_corners (Some ends) }
    ensures in_front { All IsInFront result.items }
{
    let [a, b] = ends;
    three(a, b, b)
}

/// The corners of what clipping leaves of a point.
fn point(v: ClipVertex, user: bool) -> ArrayVec<ClipVertex, CORNERS>
    ensures value { result.items ≡ if list_all (λ plane. is_inside plane v) (planes user) then point_corners v else [] }
    ensures in_front { All IsInFront result.items }
{
    if clip_point(&v, user) {
        three(v, v, v)
    } else {
        ArrayVec::new()
    }
}

fn three(a: ClipVertex, b: ClipVertex, c: ClipVertex) -> ArrayVec<ClipVertex, CORNERS>
    requires first { IsInFront a }
    requires second { IsInFront b }
    requires third { IsInFront c }
    ensures in_front { All IsInFront result.items }
    ensures value { result.items ≡ a ∷ b ∷ c ∷ [] }
{
    let mut polygon = ArrayVec::new();
    polygon.push(a);
    polygon.push(b);
    polygon.push(c);
    polygon
}

/// The first primitive that set-up makes of the fan's triangles from `next` on, and the triangle after it.
fn next_prim(
    polygon: &[ClipVertex],
    next: usize,
    rules: &SetupRules,
    kind: PrimKind,
    size: Size,
) -> (Option<Prim>, usize)
    requires rules { AreRulesInRange rules.now }
    requires in_front { All IsInFront polygon.now }
    ensures prims { set_up rules.now kind size (fan_from polygon.now next)
        ≡ option_to_list result.0 ++ set_up rules.now kind size (fan_from polygon.now result.1) }
    ensures none { IsNone result.0 → fan_from polygon.now result.1 ≡ [] }
    ensures valid { IfSome result.0 (λ prim. IsValid prim size) }
{
    let end = polygon.len().saturating_sub(2);
    for i in next..end {
        let corners = [polygon[0], polygon[i + 1], polygon[i + 2]];
        if let Some(prim) = setup(rules, kind, &corners, size) {
            return (Some(prim), i + 1);
        }
    }
    (None, end)
}
