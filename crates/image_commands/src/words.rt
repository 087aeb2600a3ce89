//! Words of the commands, and the numbers that they may be.
ghost use Rattle.std.specs.Prelude.{◌≡◌, ◌+◌, ◌<◌, ◌≤◌, nat_abs, Some, IfOk, IsTrue, IfSome};
ghost use Rattle.image_commands.specs.Asked.{is_number as is_number_of, level_number as level_number_of, is_side as is_side_of, level_side as level_side_of, palette_side as palette_side_of, is_outside as is_outside_of};

use gl_tokens::GlError;

/// Whether a word is this number.
#[tactic(auto, unfolding(crate::specs::Asked::is_number))]
pub(crate) fn is_number(word: i32, number: u64) -> bool
    ensures { result ≡ is_number_of word number }
{
    word >= 0 && u64::from(word.unsigned_abs()) == number
}

/// The number of a level, 0 to 10.
#[tactic(auto, unfolding(crate::specs::Asked::level_number))]
pub(crate) fn level_number(level: i32) -> Result<u8, GlError>
    ensures value { result ≡ level_number_of level }
    ensures small { IfOk result (λ k. k < 11) }
{
    if level < 0 || level.unsigned_abs() > 10 {
        return Err(GlError::InvalidValue);
    }
    Ok(level.unsigned_abs() as u8)
}

/// Whether a word is 0, or a power of two up to 1024.
fn is_side(side: i32) -> bool
    ensures value { result ≡ is_side_of side }
    ensures most { IsTrue result → nat_abs side ≤ 1024 }
{
    if side < 0 {
        return false;
    }
    let side = side.unsigned_abs();
    side <= 1024 && (side == 0 || side.is_power_of_two())
}

/// A side of a level: 0, or a power of two up to 1024.
#[tactic(auto, unfolding(crate::specs::Asked::level_side))]
pub(crate) fn level_side(side: i32) -> Result<u16, GlError>
    ensures value { result ≡ level_side_of side }
    ensures most { IfOk result (λ side. side ≤ 1024) }
{
    if !is_side(side) {
        return Err(GlError::InvalidValue);
    }
    Ok(side.unsigned_abs() as u16)
}

/// A side of a level with a palette: a power of two up to 1024.
#[tactic(auto, unfolding(crate::specs::Asked::palette_side))]
pub(crate) fn palette_side(side: i32) -> Result<u16, GlError>
    ensures value { result ≡ palette_side_of side }
    ensures least { IfOk result (λ side. 1 ≤ side) }
    ensures most { IfOk result (λ side. side ≤ 1024) }
{
    let found = level_side(side)?;
    if found == 0 {
        return Err(GlError::InvalidValue);
    }
    Ok(found)
}

/// Whether one of so many places from the first on is outside of a side, or a number is below 0.
pub(crate) fn is_outside(side: u16, first: i32, count: i32) -> bool
    ensures { result ≡ is_outside_of side first count }
{
    if first < 0 || count < 0 {
        return true;
    }
    u64::from(side) < u64::from(first.unsigned_abs()) + u64::from(count.unsigned_abs())
}
