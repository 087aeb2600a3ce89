//! The fog factor (OpenGL ES 1.1.12, 3.8).
ghost use Rattle.std.specs.Prelude.{◌≡◌, ℤ};
ghost use Rattle.gl_records.specs.FogColor.{fog_byte as fog_byte_of};
ghost use Rattle.interpolation.specs.Shares.{ArePositive, AreShares};

use crate::shares::Shares;
use crate::sharing::{sum, total};
use fx_arith::{c8, floor_quotient_128, saturate_wide};
use gl_records::Prim;

/// The fog factor where the corners have these shares, 0 to 255, which is how much of the colour is left.
pub fn fog_byte(prim: &Prim, shares: &Shares) -> u8
    requires { ArePositive shares.now }
    ensures { (x y : ℤ) → AreShares shares.now prim.now x y → result ≡ fog_byte_of prim.now x y }
{
    let [a, b, c] = &prim.verts;
    let sum = sum(shares, a.fog, b.fog, c.fog);
    c8(saturate_wide(floor_quotient_128(sum, total(shares))))
}
