//! A texture unit along a row of a tile.
ghost use Rattle.std.specs.Prelude.{◌≡◌, ℕ, ◌<◌, [], false, true, get_or, Option, slice_index};
ghost use Rattle.std.specs.Int.{bit_at};
ghost use Rattle.std.specs.Option.{option_copied};
ghost use Rattle.gl_records.specs.declared.level.ImageSet.{ImageSet as ImageSetOf};
ghost use Rattle.gl_records.specs.declared.unit_state.UnitState.{UnitState as UnitStateOf};
ghost use Rattle.gl_records.specs.Complete.{is_complete, last_level as last_of};
ghost use Rattle.gl_records.specs.LevelChoice.{chosen};
ghost use Rattle.gl_records.specs.Shading.{IsReadable};
ghost use Rattle.gl_records.specs.TextureEnvironment.{environment as environment_of, image_rho, textured as textured_color, unit_texel as texel_of_unit};
ghost use Rattle.interpolation.specs.TileValues.{x_of, y_of};
ghost use Rattle.texture_env.specs.Rows.{HaveColors};
ghost use Rattle.texture_env.specs.TextureUnits.{IsUnitOf};

use crate::coordinate_rows::{coordinate_row, rho_row};
use crate::environment::environment_row;
use crate::row_values::RowValues;
use crate::unit::{height, width};
use fx_arith::Fx;
use gl_records::{ImageSet, UnitState};
use std::marker::Model;
use texel_sampler::ImageSampler;

/// A unit that is on, with its image.
#[derive(Drop)]
pub struct TileUnit<'a> {
    unit: &'a UnitState,
    image: ImageSampler<'a>,
    /// The sides of level 0.
    w: u16,
    h: u16,
}

impl<'a> Model for TileUnit<'a> {
    ghost use Rattle.std.specs.Prelude.{◌≡◌};
    ghost use Rattle.gl_records.specs.Complete.{level_at};
    ghost use Rattle.gl_records.specs.TextureEnvironment.{height_of, width_of};
    ghost use Rattle.texture_env.specs.TextureUnits.{TextureUnit};

    ghost Value = { TextureUnit };

    ghost view = { λ u. record { unit = u.unit.now; set = u.image.set } };

    ghost invariant = { λ u. (u.image.sampler ≡ u.unit.now.sampler) × (u.w ≡ width_of (level_at u.image.set 0)) × (u.h ≡ height_of (level_at u.image.set 0)) };
}

impl<'a> TileUnit<'a> {
    fn new(unit: &'a UnitState, set: &'a ImageSet) -> TileUnit<'a>
        requires { is_complete set.now unit.now.sampler ≡ true }
        ensures { result ≡ record { unit = unit.now; set = set.now } }
    {
        TileUnit {
            unit,
            image: ImageSampler::new(set, unit.sampler),
            w: width(&set.levels[0]),
            h: height(&set.levels[0]),
        }
    }

    /// The colours behind the unit, where it is unit `k`, at the pixels of a row whose bits are set. `colors` come in,
    /// and are left as the unit makes them.
    pub fn color_row(
        &self,
        at: &RowValues<'_>,
        k: usize,
        bits: u16,
        primary: &[[u8; 4]; 16],
        colors: &mut [[u8; 4]; 16],
    )
        requires { k < 2 }
        ensures { (i : ℕ) → i < 16 → bit_at bits i ≡ 1
            → get_or colors.new i [] ≡ environment_of self.now.unit
            (texel_of_unit self.now.unit self.now.set at.now.on.prim k (x_of at.now.on i) (y_of at.now.on at.now.row)) (get_or primary.now i []) (get_or colors.old i []) }
    {
        let mut texels = [[0; 4]; 16];
        self.texel_row(at, k, bits, &mut texels);
        environment_row(self.unit, bits, &texels, primary, colors);
    }

    /// The unit's texels at the pixels of a row whose bits are set.
    fn texel_row(&self, at: &RowValues<'_>, k: usize, bits: u16, texels: &mut [[u8; 4]; 16])
        requires { k < 2 }
        ensures { HaveColors bits
            (λ i. texel_of_unit self.now.unit self.now.set at.now.on.prim k (x_of at.now.on i) (y_of at.now.on at.now.row)) texels.new }
    {
        let mut s = [Fx(0); 16];
        let mut t = [Fx(0); 16];
        coordinate_row(at, k, bits, &mut s, &mut t);
        let rhos = self.asked_rhos(at, k, bits);
        self.image.texels(bits, &s, &t, &rhos, texels);
    }

    /// Each rho where the sampler's choice of levels goes by it, and 0 where it doesn't.
    fn asked_rhos(&self, at: &RowValues<'_>, k: usize, bits: u16) -> [u64; 16]
        requires { k < 2 }
        ensures { (i : ℕ) → i < 16 → bit_at bits i ≡ 1
            → chosen self.now.unit.sampler (last_of self.now.set) (slice_index result i)
            ≡ chosen self.now.unit.sampler (last_of self.now.set) (image_rho self.now.set at.now.on.prim k (x_of at.now.on i) (y_of at.now.on at.now.row)) }
    {
        let mut rhos = [0; 16];
        if !self.image.asks_for_rho() {
            return rhos;
        }
        rho_row(at, k, self.w, self.h, bits, &mut rhos);
        rhos
    }

    /// Whether the unit asks for the coordinates at the next pixels too.
    pub fn asks_for_next(&self) -> bool
        ensures { result ≡ false → (rho : ℕ) → chosen self.now.unit.sampler (last_of self.now.set) rho ≡ chosen self.now.unit.sampler (last_of self.now.set) 0 }
    {
        self.image.asks_for_rho()
    }
}

/// A unit with its image, where it is on and has one.
pub fn tile_unit<'a>(
    unit: &'a Option<UnitState>,
    image: Option<&'a ImageSet>,
) -> Option<TileUnit<'a>>
    requires { IsReadable unit.now (option_copied image) }
    ensures { IsUnitOf result unit.now (option_copied image.entry) }
{
    match (unit, image) {
        (Some(unit), Some(set)) => Some(TileUnit::new(unit, set)),
        _ => None,
    }
}

/// The colours behind unit `k` at the pixels of a row whose bits are set. A unit that is off, or has no image, leaves the
/// colours as they come in.
pub fn textured_row(
    unit: &Option<TileUnit<'_>>,
    at: &RowValues<'_>,
    k: usize,
    bits: u16,
    primary: &[[u8; 4]; 16],
    colors: &mut [[u8; 4]; 16],
)
    requires { k < 2 }
    ensures { (asked : Option UnitStateOf) (image : Option ImageSetOf) → IsUnitOf unit.now asked image → HaveColors bits
        (λ i. textured_color asked image at.now.on.prim k (x_of at.now.on i) (y_of at.now.on at.now.row) (get_or primary.now i []) (get_or colors.old i [])) colors.new }
{
    if let Some(unit) = unit {
        unit.color_row(at, k, bits, primary, colors);
    }
}

/// Whether the unit asks for the coordinates at the next pixels too, which makes no difference to a colour.
pub fn asks_for_next(unit: &Option<TileUnit<'_>>) -> bool {
    match unit {
        Some(unit) => unit.asks_for_next(),
        None => false,
    }
}
