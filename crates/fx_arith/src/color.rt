ghost use Rattle.std.specs.Prelude.{◌≡◌};
ghost use Rattle.fx_arith.specs.Number.{c8 as byte_of, in_unit as unit_of, fixed_from_byte as fixed_of_byte};

use crate::fx::{Fx, clamp};

/// The byte of a colour component, 0 to 255 for 0 to 1, rounded to the nearest; a component beyond an
/// end has the end's byte (OpenGL ES 1.1.12, 2.12.8).
pub fn c8(a: Fx) -> u8
    ensures { result ≡ byte_of a.0 }
{
    let component = clamp(a, Fx::ZERO, Fx::ONE).0.unsigned_abs();
    ((255 * component + 32768) / 65536) as u8
}

/// A component between 0 and 1, or the end of these that it lies beyond.
pub fn in_unit(component: Fx) -> Fx
    ensures { result ≡ unit_of component }
{
    clamp(component, Fx::ZERO, Fx::ONE)
}

/// The number of 255ths that a colour byte stands for, rounded down (OpenGL ES 1.1.12, 2.7).
pub fn fixed_from_byte(byte: u8) -> Fx
    ensures { result ≡ fixed_of_byte byte }
{
    Fx((65536 * u32::from(byte) / 255) as i32)
}
