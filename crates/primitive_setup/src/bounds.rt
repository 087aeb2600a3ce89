ghost use Rattle.std.specs.Prelude.{◌≡◌, ◌↔◌, ℕ, ◌<◌, ◌≤ℤ◌, pos, negsuc, IsTrue};
ghost use Rattle.std.specs.Int.{int_max, int_min};
ghost use Rattle.primitive_setup.specs.Bounds.{bounds_of, cut as cut_to, end_at as end_of, first_from as first_of, greatest as greatest_of, is_empty as holds_none, least as least_of, HoldsCenters};
ghost use Rattle.primitive_setup.specs.Window.{IsInWindow};

use gl_records::{PixelBox, Size, VertexOut};

/// The pixels of the surface whose centres lie in the closed box of the corners.
#[tactic(auto, unfolding(crate::specs::Bounds::bounds_of))]
pub(crate) fn pixel_bounds(size: Size, a: &VertexOut, b: &VertexOut, c: &VertexOut) -> PixelBox
    requires first { IsInWindow a.now }
    requires second { IsInWindow b.now }
    requires third { IsInWindow c.now }
    ensures value { result ≡ bounds_of size a.now b.now c.now }
    ensures exact { HoldsCenters result size a.now b.now c.now }
{
    PixelBox {
        x0: first_from(least(a.x, b.x, c.x)),
        y0: first_from(least(a.y, b.y, c.y)),
        x1: end_at(greatest(a.x, b.x, c.x), size.w),
        y1: end_at(greatest(a.y, b.y, c.y), size.h),
    }
}

/// The pixels of the surface from a column and a row on, to a column and a row, these two excluded.
pub(crate) fn cut(size: Size, left: i32, bottom: i32, right: i32, top: i32) -> PixelBox
    ensures { result ≡ cut_to size left bottom right top }
{
    PixelBox {
        x0: from_surface(left),
        y0: from_surface(bottom),
        x1: to_surface(right, size.w),
        y1: to_surface(top, size.h),
    }
}

/// The first column, or row, of the surface from this one on.
fn from_surface(first: i32) -> i32
    ensures { result ≡ int_max (pos 0) first }
{
    0.max(first)
}

/// The column, or row, at which a box ends on a surface of this side.
fn to_surface(end: i32, side: u16) -> i32
    ensures { result ≡ int_min (pos side) end }
{
    i32::from(side).min(end)
}

/// Whether the box holds no pixel.
pub(crate) fn is_empty(area: &PixelBox) -> bool
    ensures { result ≡ holds_none area.now }
{
    area.x1 <= area.x0 || area.y1 <= area.y0
}

fn least(a: i32, b: i32, c: i32) -> i32
    requires a_from { negsuc 65535 ≤ℤ a }
    requires a_to { a ≤ℤ pos 98304 }
    requires b_from { negsuc 65535 ≤ℤ b }
    requires c_from { negsuc 65535 ≤ℤ c }
    ensures value { result ≡ least_of a b c }
    ensures from { negsuc 65535 ≤ℤ result }
    ensures to { result ≤ℤ pos 98304 }
{
    a.min(b.min(c))
}

fn greatest(a: i32, b: i32, c: i32) -> i32
    requires a_from { negsuc 65535 ≤ℤ a }
    requires a_to { a ≤ℤ pos 98304 }
    requires b_to { b ≤ℤ pos 98304 }
    requires c_to { c ≤ℤ pos 98304 }
    ensures value { result ≡ greatest_of a b c }
    ensures from { negsuc 65535 ≤ℤ result }
    ensures to { result ≤ℤ pos 98304 }
{
    a.max(b.max(c))
}

/// The first column, or row, of the surface whose centre is at the place or past it.
fn first_from(place: i32) -> i32
    requires from { negsuc 65535 ≤ℤ place }
    requires to { place ≤ℤ pos 98304 }
    ensures { result ≡ first_of place }
{
    0.max((place + 7) >> 4)
}

/// One past the last column, or row, of the surface whose centre is at the place or short of it.
fn end_at(place: i32, side: u16) -> i32
    requires from { negsuc 65535 ≤ℤ place }
    requires to { place ≤ℤ pos 98304 }
    ensures { result ≡ end_of place (pos side) }
{
    i32::from(side).min((place + 8) >> 4)
}
