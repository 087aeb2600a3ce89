//! Fog (OpenGL ES 1.1.12, 3.8).
ghost use Rattle.std.specs.Prelude.{◌≡◌, ℤ};
ghost use Rattle.gl_records.specs.FogColor.{fogged as fogged_color, fogged_by as fogged_by_factor};
ghost use Rattle.interpolation.specs.Shares.{ArePositive, AreShares};

use crate::functions::mixed;
use gl_records::Prim;
use interpolation::{Shares, fog_byte};

/// The colour in fog, where fog is on and the corners have these shares.
pub fn fogged(fog: Option<[u8; 4]>, prim: &Prim, shares: &Shares, color: [u8; 4]) -> [u8; 4]
    requires { ArePositive shares.now }
    ensures { (x y : ℤ) → AreShares shares.now prim.now x y → result ≡ fogged_color fog prim.now x y color }
{
    match fog {
        Some(fog) => fogged_by(fog_byte(prim, shares), fog, color),
        None => color,
    }
}

/// The colour goes over to the fog's, and alpha stays.
pub fn fogged_by(factor: u8, fog: [u8; 4], color: [u8; 4]) -> [u8; 4]
    ensures { result ≡ fogged_by_factor factor fog color }
{
    [
        mixed(factor, fog[0], color[0]),
        mixed(factor, fog[1], color[1]),
        mixed(factor, fog[2], color[2]),
        color[3],
    ]
}
