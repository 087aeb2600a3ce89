ghost use Rattle.std.specs.Prelude.{◌≡◌, pos, ◌≤ℤ◌};
ghost use Rattle.fx_arith.specs.Number.{in_unit as unit_of};

use fx_arith::{Fx, in_unit};
use std::marker::Model;

/// A GLfixed of 0 to 1. Contracts see it as the GLfixed.
#[derive(Clone, Copy, Debug, PartialEq, Eq)]
pub struct UnitFx(Fx);

impl Model for UnitFx {
    ghost use Rattle.std.specs.Prelude.{pos, ◌≤ℤ◌};
    ghost use Rattle.fx_arith.specs.declared.fx.Fx.{Fx};

    ghost Value = { Fx };

    ghost view = { λ number. number.0 };

    ghost invariant = { λ number. (pos 0 ≤ℤ number.0.0) × (number.0.0 ≤ℤ pos 65536) };

    ghost inverse = { λ fx. record { 0 = fx } };
}

impl UnitFx {
    /// The number, or the end of 0 to 1 that it lies beyond.
    pub fn clamped(number: Fx) -> UnitFx
        ensures { result ≡ unit_of number }
    {
        UnitFx(in_unit(number))
    }

    /// The number.
    pub fn get(self) -> Fx
        ensures value { result ≡ self }
        ensures from { pos 0 ≤ℤ result.0 }
        ensures to { result.0 ≤ℤ pos 65536 }
    {
        self.0
    }
}
