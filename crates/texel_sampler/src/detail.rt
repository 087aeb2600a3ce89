//! The level of detail (OpenGL ES 1.1.12, 3.7, "Texture Minification").
ghost use Rattle.std.specs.Prelude.{◌≡◌, pos, negsuc, ◌-◌, ◌*◌, ◌/◌, ◌^◌, ◌+◌, ◌<◌, ◌≤◌, ◌≤ℤ◌};
ghost use Rattle.gl_records.specs.LevelOfDetail.{lambda as lambda_of};

use gl_records::top_bit;

/// Lambda, the logarithm of base 2 of rho over 65536, in 1/256, rounded down between powers of two; -32768 for a rho
/// of 0.
#[tactic(auto, unfolding(gl_records::specs::LevelOfDetail::lambda))]
pub fn lambda(rho: u64) -> i32
    ensures value { result ≡ lambda_of rho }
    ensures from { negsuc 32767 ≤ℤ result }
    ensures to { result ≤ℤ pos 12287 }
{
    if rho == 0 {
        -32768
    } else {
        let place = top_bit(rho);
        256 * (place as i32 - 16) + mantissa(rho, place) as i32
    }
}

/// What a number is beyond its highest bit, which has this place, in 1/256 of it, rounded down.
fn mantissa(n: u64, place: u32) -> u32
    requires place { place < 64 }
    requires at_least { 2 ^ place ≤ n }
    requires below { n < 2 ^ (place + 1) }
    ensures value { result ≡ (n - 2 ^ place) * 256 / 2 ^ place }
    ensures bound { result < 256 }
{
    leading(n, place) - 256
}

/// The nine leading bits.
fn leading(n: u64, place: u32) -> u32
    requires place { place < 64 }
    requires at_least { 2 ^ place ≤ n }
    requires below { n < 2 ^ (place + 1) }
    ensures value { result ≡ 256 + (n - 2 ^ place) * 256 / 2 ^ place }
    ensures bound { result < 512 }
{
    ((n << (63 - place)) >> 55) as u32
}
