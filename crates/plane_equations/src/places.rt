//! The values of a linear function over a tile.
ghost use Rattle.std.specs.Prelude.{◌≡◌, ℕ, pos, ◌≤◌, ◌*◌, ◌^◌, ◌<ℤ◌, ◌+ℤ◌, ◌*ℤ◌, ◌&&◌, ◌==◌, IfSome, IfNone, IsTrue, ◌↔◌, ◌+◌, unsigned_abs};
ghost use Rattle.plane_equations.specs.Within.{is_narrow as is_narrow_value, is_within as is_within_bound};
ghost use Rattle.plane_equations.specs.Planes.{IsPlane, IsWithin, is_positive as is_positive_everywhere, plane_at};

use crate::plane::Plane;

/// The function with these numbers, where its values over the tile are within 2^61.
pub fn narrowed(origin: i128, right: i128, up: i128) -> Option<Plane>
    requires origin { unsigned_abs origin ≤ 2 ^ 110 }
    requires right { unsigned_abs right ≤ 2 ^ 110 }
    requires up { unsigned_abs up ≤ 2 ^ 110 }
    ensures plane { IfSome result (IsPlane origin right up) }
    ensures too_wide { IfNone result (IsWithin (2 ^ 61) origin right up → ⊥) }
{
    if is_within(origin, right, up) {
        Some(Plane {
            origin: origin as i64,
            right: right as i64,
            up: up as i64,
        })
    } else {
        None
    }
}

fn is_within(origin: i128, right: i128, up: i128) -> bool
    requires origin { unsigned_abs origin ≤ 2 ^ 110 }
    requires right { unsigned_abs right ≤ 2 ^ 110 }
    requires up { unsigned_abs up ≤ 2 ^ 110 }
    ensures { result ≡ is_within_bound origin right up }
{
    let along = corner(origin, right);
    are_all(
        is_narrow(origin),
        is_narrow(along),
        is_narrow(corner(origin, up)),
        is_narrow(corner(along, up)),
    )
}

fn are_all(first: bool, along: bool, above: bool, across: bool) -> bool
    ensures { result ≡ (first && along && above && across) }
{
    first && along && above && across
}

/// The value 16 steps further.
fn corner(value: i128, step: i128) -> i128
    requires value { unsigned_abs value ≤ 2 ^ 115 }
    requires step { unsigned_abs step ≤ 2 ^ 110 }
    ensures value { result ≡ value +ℤ pos 16 *ℤ step }
    ensures bound { unsigned_abs result ≤ unsigned_abs value + 2 ^ 114 }
{
    value + 16 * step
}

fn is_narrow(value: i128) -> bool
    ensures { result ≡ is_narrow_value value }
{
    value.unsigned_abs() <= 1 << 61
}

impl Plane {
    /// The value in column `i` and row `j`.
    pub fn at(&self, i: u16, j: u16) -> i64
        requires i { i ≤ 16 }
        requires j { j ≤ 16 }
        ensures value { result ≡ plane_at self.now i j }
        ensures bound { unsigned_abs result ≤ 2 ^ 61 }
    {
        self.origin + steps(i, self.right) + steps(j, self.up)
    }

    /// Whether the function is above 0 at all places of the tile.
    pub fn is_positive(&self) -> bool
        ensures value { result ≡ is_positive_everywhere self.now }
        ensures positive { IsTrue result → (i j : ℕ) → i ≤ 16 → j ≤ 16 → pos 0 <ℤ plane_at self.now i j }
    {
        self.has_positive_corners()
    }

    fn has_positive_corners(&self) -> bool
        ensures { result ≡ is_positive_everywhere self.now }
    {
        self.at(0, 0) > 0 && self.at(16, 0) > 0 && self.at(0, 16) > 0 && self.at(16, 16) > 0
    }

    /// Whether the function has one value at all places.
    pub fn is_constant(&self) -> bool
        ensures value { IsTrue result ↔ ((self.now.right ≡ pos 0) × (self.now.up ≡ pos 0)) }
        ensures constant { IsTrue result → (i j : ℕ) → plane_at self.now i j ≡ self.now.origin }
    {
        self.right == 0 && self.up == 0
    }
}

fn steps(count: u16, step: i64) -> i64
    requires count { count ≤ 16 }
    requires step { unsigned_abs step ≤ 2 ^ 58 }
    ensures value { result ≡ pos count *ℤ step }
    ensures bound { unsigned_abs result ≤ 2 ^ 62 }
{
    i64::from(count) * step
}
