//! Places outside of an image (OpenGL ES 1.1.12, 3.7, "Texture Wrap Modes").
ghost use Rattle.std.specs.Prelude.{◌≡◌, pos, ◌<◌, ◌≤◌, ◌-◌, ◌^◌, ◌+ℤ◌, true, unsigned_abs};
ghost use Rattle.std.specs.Int.{int_rem_euclid, is_power_of_two};
ghost use Rattle.fx_arith.specs.Number.{clamp};
ghost use Rattle.gl_tokens.specs.declared.wrap.Wrap.{Wrap};
ghost use Rattle.gl_tokens.specs.declared.wrap.Wrap.TheVariants as modes;
ghost use Rattle.gl_records.specs.Texel.{wrapped as wrapped_place};

/// A wrap mode: which texel a place outside of an image stands for. Each mode is a type, so that loops over pixels choose
/// none.
pub trait Wrapping {
    // the mode
    ghost wrap: { Wrap };

    /// The texel along a side of `side` texels that a place stands for.
    fn place(side: u16, place: i64) -> u16
        requires { 0 < side }
        ensures value { result ≡ wrapped_place wrap side place }
        ensures bound { result < side };

    /// The texels that a place and the next stand for.
    fn pair(side: u16, place: i64) -> (u16, u16)
        requires side { 0 < side }
        requires place { unsigned_abs place ≤ 2 ^ 56 }
        ensures first { result.0 ≡ wrapped_place wrap side place }
        ensures second { result.1 ≡ wrapped_place wrap side (place +ℤ pos 1) }
        ensures first_bound { result.0 < side }
        ensures second_bound { result.1 < side };
}

/// REPEAT.
pub struct Repeating;

impl Wrapping for Repeating {
    ghost wrap = { modes.Repeat };

    fn place(side: u16, place: i64) -> u16 {
        repeated(side, place)
    }

    fn pair(side: u16, place: i64) -> (u16, u16) {
        repeated_pair(side, place)
    }
}

/// CLAMP_TO_EDGE.
pub struct Clamping;

impl Wrapping for Clamping {
    ghost wrap = { modes.ClampToEdge };

    fn place(side: u16, place: i64) -> u16 {
        clamped(side, place)
    }

    fn pair(side: u16, place: i64) -> (u16, u16) {
        (clamped(side, place), clamped(side, place + 1))
    }
}

/// The place, or the first or the last where it lies before or behind.
fn clamped(side: u16, place: i64) -> u16
    requires { 0 < side }
    ensures value { result ≡ unsigned_abs (clamp (pos 0) (pos (side - 1)) place) }
    ensures bound { result < side }
{
    place.clamp(0, i64::from(side) - 1) as u16
}

/// The place modulo the side, which is a power of two wherever a command made the image.
fn repeated(side: u16, place: i64) -> u16
    requires { 0 < side }
    ensures value { result ≡ unsigned_abs (int_rem_euclid place (pos side)) }
    ensures bound { result < side }
{
    if side.is_power_of_two() {
        masked(side, place)
    } else {
        remainder(side, place)
    }
}

/// The place and the next modulo the side.
fn repeated_pair(side: u16, place: i64) -> (u16, u16)
    requires side { 0 < side }
    requires place { unsigned_abs place ≤ 2 ^ 56 }
    ensures first { result.0 ≡ unsigned_abs (int_rem_euclid place (pos side)) }
    ensures second { result.1 ≡ unsigned_abs (int_rem_euclid (place +ℤ pos 1) (pos side)) }
    ensures first_bound { result.0 < side }
    ensures second_bound { result.1 < side }
{
    if side.is_power_of_two() {
        (masked(side, place), masked(side, place + 1))
    } else {
        (remainder(side, place), remainder(side, place + 1))
    }
}

fn remainder(side: u16, place: i64) -> u16
    requires { 0 < side }
    ensures value { result ≡ unsigned_abs (int_rem_euclid place (pos side)) }
    ensures bound { result < side }
{
    place.rem_euclid(i64::from(side)) as u16
}

/// The place modulo a power of two.
pub fn masked(power: u16, place: i64) -> u16
    requires above { 0 < power }
    requires power { is_power_of_two power ≡ true }
    ensures value { result ≡ unsigned_abs (int_rem_euclid place (pos power)) }
    ensures bound { result < power }
{
    (place & i64::from(power - 1)) as u16
}
