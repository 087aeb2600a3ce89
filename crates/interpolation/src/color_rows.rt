//! Colours of a row, of the rows of their components.
ghost use Rattle.std.specs.Prelude.{◌≡◌, ℕ, pos, ◌<◌, ◌≤◌, [], get_or};
ghost use Rattle.fx_arith.specs.Number.{component};
ghost use Rattle.interpolation.specs.Rows.{IsJoined};

use fx_arith::Fx;

/// The components of the colours of a row, each a whole number.
#[derive(Drop)]
pub struct ChannelRows {
    pub red: [Fx; 17],
    pub green: [Fx; 17],
    pub blue: [Fx; 17],
    pub alpha: [Fx; 17],
}

impl ChannelRows {
    pub fn new() -> ChannelRows {
        ChannelRows {
            red: [Fx(0); 17],
            green: [Fx(0); 17],
            blue: [Fx(0); 17],
            alpha: [Fx(0); 17],
        }
    }
}

/// The colours of the row, where their components are bytes.
pub fn joined_row(rows: &ChannelRows, colors: &mut [[u8; 4]; 16])
    ensures { (i : ℕ) → i < 16
        → IsJoined (component rows.now.red i) (component rows.now.green i) (component rows.now.blue i) (component rows.now.alpha i) (get_or colors.new i []) }
{
    for i in 0..16 {
        colors[i] = joined(rows.red[i], rows.green[i], rows.blue[i], rows.alpha[i]);
    }
}

fn joined(red: Fx, green: Fx, blue: Fx, alpha: Fx) -> [u8; 4]
    ensures { IsJoined red.0 green.0 blue.0 alpha.0 result }
{
    [byte(red), byte(green), byte(blue), byte(alpha)]
}

fn byte(number: Fx) -> u8
    ensures { (n : ℕ) → number.0 ≡ pos n → n ≤ 255 → result ≡ n }
{
    number.0.clamp(0, 255) as u8
}
