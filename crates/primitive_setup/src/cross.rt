ghost use Rattle.std.specs.Prelude.{◌≡◌, ◌≤◌, ◌^◌, ◌-ℤ◌, ◌*ℤ◌, unsigned_abs};

/// The cross product of the vectors (ux, uy) and (vx, vy).
pub(crate) fn cross(ux: i64, uy: i64, vx: i64, vy: i64) -> i64
    requires ux_bound { unsigned_abs ux ≤ 2 ^ 24 }
    requires uy_bound { unsigned_abs uy ≤ 2 ^ 18 }
    requires vx_bound { unsigned_abs vx ≤ 2 ^ 24 }
    requires vy_bound { unsigned_abs vy ≤ 2 ^ 18 }
    ensures value { result ≡ ux *ℤ vy -ℤ vx *ℤ uy }
    ensures bound { unsigned_abs result ≤ 2 ^ 43 }
{
    ux * vy - vx * uy
}
