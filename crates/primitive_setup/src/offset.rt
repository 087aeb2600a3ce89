ghost use Rattle.std.specs.Prelude.{◌≡◌, ◌≤◌, ◌^◌, ◌*◌, ◌≤ℤ◌, ◌*ℤ◌, pos, negsuc, unsigned_abs};
ghost use Rattle.fx_arith.specs.Number.{floor_div};
ghost use Rattle.primitive_setup.specs.Offset.{offset_for as offset_by, offset_of, slope_along_x as along_x, slope_along_y as along_y, steepest as steepest_of};
ghost use Rattle.primitive_setup.specs.Window.{IsInWindow};

use crate::clamping::clamp_wide;
use crate::cross::cross;
use fx_arith::{Fx, floor_div_wide, span};
use gl_records::VertexOut;

/// What polygon offset adds to the depths of a triangle of this doubled area.
#[tactic(auto, unfolding(crate::specs::Offset::offset_of))]
pub(crate) fn depth_offset(
    rule: &Option<[Fx; 2]>,
    area: u64,
    a: &VertexOut,
    b: &VertexOut,
    c: &VertexOut,
) -> i32
    requires area_from { 1 ≤ area }
    requires area_to { area ≤ 2 ^ 43 }
    requires first { IsInWindow a.now }
    requires second { IsInWindow b.now }
    requires third { IsInWindow c.now }
    ensures value { result ≡ offset_of rule.now area a.now b.now c.now }
    ensures from { negsuc 33554431 ≤ℤ result }
    ensures to { result ≤ℤ pos 33554432 }
{
    match rule {
        Some(rule) => offset_for(rule[0], rule[1], steepest(a, b, c), area),
        None => 0,
    }
}

/// The greater of the slopes of depth along x and along y, times the doubled area.
#[tactic(auto, unfolding(crate::specs::Offset::steepest))]
fn steepest(a: &VertexOut, b: &VertexOut, c: &VertexOut) -> u64
    requires first { IsInWindow a.now }
    requires second { IsInWindow b.now }
    requires third { IsInWindow c.now }
    ensures value { result ≡ steepest_of a.now b.now c.now }
    ensures bound { result ≤ 2 ^ 43 }
{
    slope_along_x(a, b, c)
        .unsigned_abs()
        .max(slope_along_y(a, b, c).unsigned_abs())
}

fn slope_along_x(a: &VertexOut, b: &VertexOut, c: &VertexOut) -> i64
    requires first { IsInWindow a.now }
    requires second { IsInWindow b.now }
    requires third { IsInWindow c.now }
    ensures value { result ≡ along_x a.now b.now c.now }
    ensures bound { unsigned_abs result ≤ 2 ^ 43 }
{
    cross(
        span(a.z, b.z),
        span(a.y, b.y),
        span(a.z, c.z),
        span(a.y, c.y),
    )
}

fn slope_along_y(a: &VertexOut, b: &VertexOut, c: &VertexOut) -> i64
    requires first { IsInWindow a.now }
    requires second { IsInWindow b.now }
    requires third { IsInWindow c.now }
    ensures value { result ≡ along_y a.now b.now c.now }
    ensures bound { unsigned_abs result ≤ 2 ^ 43 }
{
    cross(
        span(a.z, c.z),
        span(a.x, c.x),
        span(a.z, b.z),
        span(a.x, b.x),
    )
}

/// The slope for each pixel times the factor, and the units.
#[tactic(auto, unfolding(crate::specs::Offset::offset_for))]
fn offset_for(factor: Fx, units: Fx, slope: u64, area: u64) -> i32
    requires slope_to { slope ≤ 2 ^ 43 }
    requires area_from { 1 ≤ area }
    requires area_to { area ≤ 2 ^ 43 }
    ensures value { result ≡ offset_by factor.0 units.0 slope area }
    ensures from { negsuc 33554431 ≤ℤ result }
    ensures to { result ≤ℤ pos 33554432 }
{
    clamp_wide(
        slope_part(factor, slope, area) + i128::from(whole(units)),
        -33554432,
        33554432,
    )
}

/// The whole part, rounded down.
fn whole(a: Fx) -> i32
    ensures { result ≡ floor_div a.0 65536 }
{
    a.0 >> 16
}

/// The slope for each pixel times the factor, as a depth.
fn slope_part(factor: Fx, slope: u64, area: u64) -> i128
    requires slope_to { slope ≤ 2 ^ 43 }
    requires area_from { 1 ≤ area }
    requires area_to { area ≤ 2 ^ 43 }
    ensures value { result ≡ floor_div (pos 16 *ℤ pos slope *ℤ factor.0) (65536 * area) }
    ensures bound { unsigned_abs result ≤ 2 ^ 80 }
{
    floor_div_wide(i128::from(16 * slope) * i128::from(factor.0), 65536 * area)
}
