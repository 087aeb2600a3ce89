//! How much the corners of a primitive count at a pixel.
ghost use Rattle.std.specs.Prelude.{◌≤◌, ◌^◌, unsigned_abs};

/// How much each corner counts at a pixel in perspective: its weight times its q (OpenGL 1.5, 3.5.1).
#[derive(Clone, Copy)]
pub struct Shares {
    pub first: i128,
    pub second: i128,
    pub third: i128,
    ghost first_small: { unsigned_abs first ≤ 2 ^ 69 },
    ghost second_small: { unsigned_abs second ≤ 2 ^ 69 },
    ghost third_small: { unsigned_abs third ≤ 2 ^ 69 },
}
