ghost use Rattle.std.specs.Prelude.{◌≡◌, ◌≤ℤ◌};
ghost use Rattle.fx_arith.specs.Number.{clamp as clamped, nearest_fixed};

/// A GLfixed: the number of 1/65536 that it holds (OpenGL ES 1.1.12, 2.3).
#[derive(Clone, Copy, Debug, Default, PartialEq, Eq)]
pub struct Fx(pub i32);

impl Fx {
    pub const ZERO: Fx = Fx(0);

    pub const ONE: Fx = Fx(65536);
}

/// `a`, or the end of `low..=high` that it lies beyond.
pub fn clamp(a: Fx, low: Fx, high: Fx) -> Fx
    requires { low.0 ≤ℤ high.0 }
    ensures value { result.0 ≡ clamped low.0 high.0 a.0 }
    ensures lower_bound { low.0 ≤ℤ result.0 }
    ensures upper_bound { result.0 ≤ℤ high.0 }
{
    if a.0 < low.0 {
        low
    } else if high.0 < a.0 {
        high
    } else {
        a
    }
}

/// The GLfixed nearest to `raw`, in units of 1/65536.
pub fn saturate(raw: i64) -> Fx
    ensures { result.0 ≡ nearest_fixed raw }
{
    if raw < -2147483648 {
        Fx(i32::MIN)
    } else if 2147483647 < raw {
        Fx(i32::MAX)
    } else {
        Fx(raw as i32)
    }
}

/// [`saturate`] on 128 bits.
pub fn saturate_wide(raw: i128) -> Fx
    ensures { result.0 ≡ nearest_fixed raw }
{
    if raw < -2147483648 {
        Fx(i32::MIN)
    } else if 2147483647 < raw {
        Fx(i32::MAX)
    } else {
        Fx(raw as i32)
    }
}
