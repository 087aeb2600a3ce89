//! The numbers of a viewport, in pixels.
ghost use Rattle.std.specs.Prelude.{◌≡◌, ◌≤◌, pos, negsuc, ◌≤ℤ◌};
ghost use Rattle.gl_state.specs.Raster.{place, side};

use std::marker::Model;

/// Where a viewport begins: -4096 to 4096.
#[derive(Clone, Copy, Debug, PartialEq, Eq)]
pub struct ViewportPlace(i32);

impl Model for ViewportPlace {
    ghost use Rattle.std.specs.Prelude.{ℤ, pos, negsuc, ◌≤ℤ◌};

    ghost Value = { ℤ };

    ghost view = { λ place. place.0 };

    ghost invariant = { λ place. (negsuc 4095 ≤ℤ place.0) × (place.0 ≤ℤ pos 4096) };

    ghost inverse = { λ number. record { 0 = number } };
}

impl ViewportPlace {
    /// The number, or the end of -4096 to 4096 that it lies beyond.
    pub fn clamped(number: i32) -> ViewportPlace
        ensures { result ≡ place number }
    {
        if number < -4096 {
            ViewportPlace(-4096)
        } else if 4096 < number {
            ViewportPlace(4096)
        } else {
            ViewportPlace(number)
        }
    }

    /// The number.
    pub fn get(self) -> i32
        ensures value { result ≡ self }
        ensures from { negsuc 4095 ≤ℤ result }
        ensures to { result ≤ℤ pos 4096 }
    {
        self.0
    }
}

/// How wide or high a viewport is: 0 to 2048.
#[derive(Clone, Copy, Debug, PartialEq, Eq)]
pub struct ViewportSide(i32);

impl Model for ViewportSide {
    ghost use Rattle.std.specs.Prelude.{ℤ, pos, ◌≤ℤ◌};

    ghost Value = { ℤ };

    ghost view = { λ side. side.0 };

    ghost invariant = { λ side. (pos 0 ≤ℤ side.0) × (side.0 ≤ℤ pos 2048) };

    ghost inverse = { λ number. record { 0 = number } };
}

impl ViewportSide {
    /// The number, or the end of 0 to 2048 that it lies beyond.
    pub fn clamped(number: i32) -> ViewportSide
        ensures { result ≡ side number }
    {
        if number < 0 {
            ViewportSide(0)
        } else if 2048 < number {
            ViewportSide(2048)
        } else {
            ViewportSide(number)
        }
    }

    /// A side of a surface, 1 to 1024.
    pub fn of_surface(side: u16) -> ViewportSide
        requires { side ≤ 1024 }
        ensures { result ≡ pos side }
    {
        ViewportSide(i32::from(side))
    }

    /// The number.
    pub fn get(self) -> i32
        ensures value { result ≡ self }
        ensures from { pos 0 ≤ℤ result }
        ensures to { result ≤ℤ pos 2048 }
    {
        self.0
    }
}
