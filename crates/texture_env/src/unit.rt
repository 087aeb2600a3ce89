//! A texture unit at a pixel.
ghost use Rattle.std.specs.Prelude.{◌≡◌, ℤ, ◌<◌, true};
ghost use Rattle.std.specs.Option.{option_copied};
ghost use Rattle.gl_records.specs.Complete.{is_complete, last_level as last_of};
ghost use Rattle.gl_records.specs.LevelChoice.{chosen};
ghost use Rattle.gl_records.specs.Shading.{IsReadable};
ghost use Rattle.gl_records.specs.TextureEnvironment.{height_of, image_rho, textured as textured_color, unit_texel as texel_of_unit, width_of};
ghost use Rattle.gl_records.specs.Valid.{IsInRange};
ghost use Rattle.interpolation.specs.Coordinates.{AreCoordinates};
ghost use Rattle.interpolation.specs.Shares.{AreShares, AreSmall};

use crate::environment::environment;
use crate::moves::rho;
use gl_records::{ImageSet, Level, Prim, Sampler, UnitState, last_level};
use interpolation::{Coordinates, Shares, coordinates_at};
use texel_sampler::{asks_for_rho, texel};

/// The colour behind unit `k`, where the corners have these shares. A unit that is off, or has no image, leaves the
/// colour as it comes in.
pub fn textured(
    unit: &Option<UnitState>,
    image: Option<&ImageSet>,
    prim: &Prim,
    k: usize,
    shares: &Shares,
    primary: [u8; 4],
    previous: [u8; 4],
) -> [u8; 4]
    requires in_range { IsInRange prim.now }
    requires unit { k < 2 }
    requires small { AreSmall shares.now }
    requires readable { IsReadable unit.now (option_copied image) }
    ensures { (x y : ℤ) → AreShares shares.now prim.now x y
        → result ≡ textured_color unit.now (option_copied image.entry) prim.now k x y primary previous }
{
    match (unit, image) {
        (Some(unit), Some(set)) => {
            let texel = unit_texel(unit, set, prim, k, shares);
            environment(unit, texel, primary, previous)
        }
        _ => previous,
    }
}

/// The unit's texel.
fn unit_texel(unit: &UnitState, set: &ImageSet, prim: &Prim, k: usize, shares: &Shares) -> [u8; 4]
    requires in_range { IsInRange prim.now }
    requires unit { k < 2 }
    requires small { AreSmall shares.now }
    requires complete { is_complete set.now unit.now.sampler ≡ true }
    ensures { (x y : ℤ) → AreShares shares.now prim.now x y → result ≡ texel_of_unit unit.now set.now prim.now k x y }
{
    let here = coordinates_at(prim, k, shares);
    let rho = asked_rho(unit.sampler, set, prim, k, shares, here);
    texel(set, unit.sampler, here.s, here.t, rho)
}

/// Rho where the sampler's choice of levels goes by it, and 0 where it doesn't.
fn asked_rho(
    sampler: Sampler,
    set: &ImageSet,
    prim: &Prim,
    k: usize,
    shares: &Shares,
    here: Coordinates,
) -> u64
    requires in_range { IsInRange prim.now }
    requires unit { k < 2 }
    requires small { AreSmall shares.now }
    ensures { (x y : ℤ) → AreShares shares.now prim.now x y → AreCoordinates here prim.now k x y
        → chosen sampler (last_of set.now) result ≡ chosen sampler (last_of set.now) (image_rho set.now prim.now k x y) }
{
    if !asks_for_rho(sampler, last_level(set)) {
        return 0;
    }
    rho(
        prim,
        k,
        width(&set.levels[0]),
        height(&set.levels[0]),
        shares,
        here,
    )
}

pub fn width(level: &Option<Level>) -> u16
    ensures { result ≡ width_of level.now }
{
    match level {
        Some(level) => level.w,
        None => 0,
    }
}

pub fn height(level: &Option<Level>) -> u16
    ensures { result ≡ height_of level.now }
{
    match level {
        Some(level) => level.h,
        None => 0,
    }
}
