ghost use Rattle.std.specs.Prelude.{◌≡◌, ◌≤◌, ◌≤ℤ◌, pos, negsuc};
ghost use Rattle.gl_records.specs.PointCoverage.{first_about as first_of};

/// The first column, or row, of the square of pixels that a point of this size covers (OpenGL ES 1.1.12, 3.3).
/// `place` is the point's, in units of 1/16 pixel; the square has `size` columns and rows.
pub fn first_about(place: i32, size: u16) -> i32
    requires from { negsuc 65535 ≤ℤ place }
    requires to { place ≤ℤ pos 98304 }
    requires size_from { 1 ≤ size }
    requires size_to { size ≤ 64 }
    ensures value { result ≡ first_of place size }
    ensures at_least { negsuc 65535 ≤ℤ result }
    ensures at_most { result ≤ℤ pos 98304 }
{
    (place - 8 * (i32::from(size) - 1)) >> 4
}
