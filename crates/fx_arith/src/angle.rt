ghost use Rattle.std.specs.Prelude.{◌≡◌, ◌<◌, ◌≤◌, ◌*◌};
ghost use Rattle.fx_arith.specs.Angle.{quarter, part_sine as part_sine_of, turn_sine as turn_sine_of, sine as sine_of, cosine as cosine_of};

use crate::fx::Fx;

/// 90 degrees.
const QUARTER_TURN: u32 = 90 * 65536;

/// The sine of an angle in degrees, in units of 1/65536 both. It is this project's polynomial and not the
/// nearest number.
pub fn sin_deg(a: Fx) -> Fx
    ensures { result.0 ≡ sine_of a.0 }
{
    sine(i64::from(a.0))
}

/// The cosine of an angle in degrees: [`sin_deg`] of 90 degrees more, also where that sum is no GLfixed.
pub fn cos_deg(a: Fx) -> Fx
    ensures { result.0 ≡ cosine_of a.0 }
{
    sine(i64::from(a.0) + i64::from(QUARTER_TURN))
}

fn sine(angle: i64) -> Fx
    ensures { result.0 ≡ sine_of angle }
{
    let turn = i64::from(4 * QUARTER_TURN);
    turn_sine(angle.rem_euclid(turn) as u32)
}

/// The sine of an angle from 0 up to a whole turn.
#[tactic(auto, unfolding(crate::specs::Angle::turn_sine))]
fn turn_sine(angle: u32) -> Fx
    requires { angle < 4 * quarter }
    ensures { result.0 ≡ turn_sine_of angle }
{
    let part = angle % QUARTER_TURN / 90;
    if angle < QUARTER_TURN {
        Fx(part_sine(part) as i32)
    } else if angle < 2 * QUARTER_TURN {
        Fx(part_sine(65536 - part) as i32)
    } else if angle < 3 * QUARTER_TURN {
        Fx(-(part_sine(part) as i32))
    } else {
        Fx(-(part_sine(65536 - part) as i32))
    }
}

/// The sine of a part of a quarter turn, the whole of which is 65536.
#[tactic(auto, unfolding(crate::specs::Angle::part_sine))]
fn part_sine(part: u32) -> u32
    requires { part ≤ 65536 }
    ensures value { result ≡ part_sine_of part }
    ensures bound { result ≤ 102944 }
{
    let part = u64::from(part);
    let square = part * part / 65536;
    let slope = 102944 - square * (42323 - 4915 * square / 65536) / 65536;
    (part * slope / 65536) as u32
}
