ghost use Rattle.std.specs.Prelude.{◌≡◌, ◌≤◌, ◌^◌, ◌≤ℤ◌, ◌*ℤ◌, ◌+ℤ◌, ◌-ℤ◌, pos, negsuc, false, unsigned_abs};
ghost use Rattle.fx_arith.specs.Number.{floor_quotient as quotient_of};
ghost use Rattle.gl_records.specs.ClipVertex.{w_of};
ghost use Rattle.gl_records.specs.SetupRules.{AreRulesInRange};
ghost use Rattle.primitive_setup.specs.Window.{along_axis as along, IsInViewport, IsInWindow, place_of, depth_of, reciprocal_of, color_bytes as bytes_of, raw_coordinates as raw_of, corner_of};

use crate::clamping::{clamp_to, clamp_wide};
use fx_arith::{Fx, c8, floor_quotient, floor_quotient_wide};
use gl_records::{ClipVertex, GREATEST_DEPTH, SetupRules, VertexOut};

/// The greatest depth, as a factor of wide products.
const DEPTHS: i128 = GREATEST_DEPTH as i128;

/// A place in the window, in units of 1/16 pixel from the lower left of the surface.
#[derive(Clone, Copy, Debug, PartialEq, Eq)]
pub(crate) struct Place {
    pub(crate) x: i32,
    pub(crate) y: i32,
}

/// Where a vertex is in the window.
#[tactic(auto, unfolding(crate::specs::Window::place_of))]
pub(crate) fn viewport_transform(rules: &SetupRules, vertex: &ClipVertex) -> Place
    requires rules_in_range { AreRulesInRange rules.now }
    requires in_front { pos 1 ≤ℤ w_of vertex.now }
    ensures value { result ≡ place_of rules.now vertex.now }
    ensures in_viewport { IsInViewport result }
{
    let [x, y, width, height] = rules.viewport;
    let w = vertex.clip[3];
    Place {
        x: along_axis(x, width, vertex.clip[0], w),
        y: along_axis(y, height, vertex.clip[1], w),
    }
}

/// A vertex as a corner of a primitive that is seen from in front, or from behind.
#[tactic(auto, unfolding(crate::specs::Window::corner_of))]
pub(crate) fn corner(
    rules: &SetupRules,
    behind: bool,
    vertex: &ClipVertex,
    place: Place,
) -> VertexOut
    requires rules_in_range { AreRulesInRange rules.now }
    requires in_front { pos 1 ≤ℤ w_of vertex.now }
    requires at_place { place ≡ place_of rules.now vertex.now }
    requires in_viewport { IsInViewport place }
    ensures value { result ≡ corner_of rules.now behind vertex.now }
    ensures same_x { result.x ≡ place.x }
    ensures same_y { result.y ≡ place.y }
    ensures in_window { IsInWindow result }
{
    let range = rules.range;
    let clip = vertex.clip;
    let color = if behind { vertex.back } else { vertex.front };
    let tex = vertex.tex;
    VertexOut {
        x: place.x,
        y: place.y,
        z: depth(range[0], range[1], clip[2], clip[3]),
        q: reciprocal(clip[3]),
        rgba: color_bytes(&color),
        tex: [raw_coordinates(&tex[0]), raw_coordinates(&tex[1])],
        fog: vertex.fog.0,
    }
}

/// A vertex as a corner in its front colour, where the window has it.
pub(crate) fn front_corner(rules: &SetupRules, vertex: &ClipVertex) -> VertexOut
    requires rules_in_range { AreRulesInRange rules.now }
    requires in_front { pos 1 ≤ℤ w_of vertex.now }
    ensures value { result ≡ corner_of rules.now false vertex.now }
    ensures in_window { IsInWindow result }
{
    corner(rules, false, vertex, viewport_transform(rules, vertex))
}

/// A clip coordinate as a place along one axis of the viewport, whose lower end and side are in pixels.
#[tactic(auto, unfolding(crate::specs::Window::along_axis))]
fn along_axis(start: i32, side: i32, clip: Fx, w: Fx) -> i32
    requires start_from { negsuc 4095 ≤ℤ start }
    requires start_to { start ≤ℤ pos 4096 }
    requires side_from { pos 0 ≤ℤ side }
    requires side_to { side ≤ℤ pos 2048 }
    requires in_front { pos 1 ≤ℤ w.0 }
    ensures value { result ≡ along start side clip.0 w.0 }
    ensures from { negsuc 65535 ≤ℤ result }
    ensures to { result ≤ℤ pos 98304 }
{
    let (low, half, high) = (16 * start, 8 * side, 16 * (start + side));
    clamp_to(
        i64::from(low + half) + from_middle(half, clip, w),
        low,
        high,
    )
}

/// How far a clip coordinate is from the viewport's middle, whose half side is in units of 1/16 pixel.
fn from_middle(half: i32, clip: Fx, w: Fx) -> i64
    requires half_from { pos 0 ≤ℤ half }
    requires half_to { half ≤ℤ pos 16384 }
    requires in_front { pos 1 ≤ℤ w.0 }
    ensures value { result ≡ quotient_of (half *ℤ clip.0) w.0 }
    ensures bound { unsigned_abs result ≤ 2 ^ 48 }
{
    floor_quotient(product(half, clip), i64::from(w.0))
}

/// The depth of a vertex, 0 to the greatest that there is.
#[tactic(auto, unfolding(crate::specs::Window::depth_of))]
fn depth(near: Fx, far: Fx, z: Fx, w: Fx) -> i32
    requires near_from { pos 0 ≤ℤ near.0 }
    requires near_to { near.0 ≤ℤ pos 65536 }
    requires far_from { pos 0 ≤ℤ far.0 }
    requires far_to { far.0 ≤ℤ pos 65536 }
    requires in_front { pos 1 ≤ℤ w.0 }
    ensures value { result ≡ depth_of near.0 far.0 z.0 w.0 }
    ensures from { pos 0 ≤ℤ result }
    ensures to { result ≤ℤ pos GREATEST_DEPTH }
{
    let weighted = DEPTHS * i128::from(between(near, far, z, w));
    clamp_wide(
        floor_quotient_wide(weighted, 131072 * i64::from(w.0)),
        0,
        GREATEST_DEPTH as i32,
    )
}

/// The depth between the near and the far plane, times 131072 w.
fn between(near: Fx, far: Fx, z: Fx, w: Fx) -> i64
    requires near_from { pos 0 ≤ℤ near.0 }
    requires near_to { near.0 ≤ℤ pos 65536 }
    requires far_from { pos 0 ≤ℤ far.0 }
    requires far_to { far.0 ≤ℤ pos 65536 }
    ensures value { result ≡ (far.0 -ℤ near.0) *ℤ z.0 +ℤ (near.0 +ℤ far.0) *ℤ w.0 }
    ensures bound { unsigned_abs result ≤ 2 ^ 49 }
{
    product(far.0 - near.0, z) + product(near.0 + far.0, w)
}

/// The exact product.
fn product(factor: i32, clip: Fx) -> i64
    requires from { negsuc 131071 ≤ℤ factor }
    requires to { factor ≤ℤ pos 131072 }
    ensures value { result ≡ factor *ℤ clip.0 }
    ensures bound { unsigned_abs result ≤ 2 ^ 48 }
{
    i64::from(factor) * i64::from(clip.0)
}

/// 2^31 over w.
#[tactic(auto, unfolding(crate::specs::Window::reciprocal_of))]
fn reciprocal(w: Fx) -> u32
    requires { pos 1 ≤ℤ w.0 }
    ensures value { result ≡ reciprocal_of w.0 }
    ensures from { 1 ≤ result }
    ensures to { result ≤ 2 ^ 31 }
{
    0x8000_0000 / w.0.unsigned_abs()
}

#[tactic(auto, unfolding(crate::specs::Window::color_bytes))]
fn color_bytes(color: &[Fx; 4]) -> [u8; 4]
    ensures { result ≡ bytes_of color.now }
{
    [c8(color[0]), c8(color[1]), c8(color[2]), c8(color[3])]
}

#[tactic(auto, unfolding(crate::specs::Window::raw_coordinates))]
fn raw_coordinates(coordinates: &[Fx; 3]) -> [i32; 3]
    ensures { result ≡ raw_of coordinates.now }
{
    [coordinates[0].0, coordinates[1].0, coordinates[2].0]
}
