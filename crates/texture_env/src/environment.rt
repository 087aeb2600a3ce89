//! What a texture unit makes of its texels and of the colours that come in.
ghost use Rattle.std.specs.Prelude.{◌≡◌, ℕ, ◌<◌, [], get_or, true};
ghost use Rattle.std.specs.Int.{bit_at};
ghost use Rattle.gl_records.specs.TextureEnvironment.{environment as environment_of};

use crate::modes::{Adding, Blending, Combining, Decaling, Mode, Modulating, Replacing};
use gl_records::UnitState;
use gl_tokens::EnvMode;
use texel_sampler::is_set;

/// The colour behind a unit, of its texel, the colour before texturing and the one that comes in (OpenGL ES 1.1.12,
/// 3.7.12). Which components the texel has goes by the unit's format.
pub fn environment(unit: &UnitState, texel: [u8; 4], primary: [u8; 4], previous: [u8; 4]) -> [u8; 4]
    ensures { result ≡ environment_of unit.now texel primary previous }
{
    match unit.env.mode {
        EnvMode::Add => Adding::color(unit, texel, primary, previous),
        EnvMode::Blend => Blending::color(unit, texel, primary, previous),
        EnvMode::Replace => Replacing::color(unit, texel, primary, previous),
        EnvMode::Modulate => Modulating::color(unit, texel, primary, previous),
        EnvMode::Decal => Decaling::color(unit, texel, primary, previous),
        EnvMode::Combine => Combining::color(unit, texel, primary, previous),
    }
}

/// The same at the pixels of a row whose bits are set. `colors` come in, and are left as the unit makes them.
pub fn environment_row(
    unit: &UnitState,
    bits: u16,
    texels: &[[u8; 4]; 16],
    primary: &[[u8; 4]; 16],
    colors: &mut [[u8; 4]; 16],
)
    ensures { (i : ℕ) → i < 16 → bit_at bits i ≡ 1
        → get_or colors.new i [] ≡ environment_of unit.now (get_or texels.now i []) (get_or primary.now i []) (get_or colors.old i []) }
{
    match unit.env.mode {
        EnvMode::Add => mode_row::<Adding>(unit, bits, texels, primary, colors),
        EnvMode::Blend => mode_row::<Blending>(unit, bits, texels, primary, colors),
        EnvMode::Replace => mode_row::<Replacing>(unit, bits, texels, primary, colors),
        EnvMode::Modulate => mode_row::<Modulating>(unit, bits, texels, primary, colors),
        EnvMode::Decal => mode_row::<Decaling>(unit, bits, texels, primary, colors),
        EnvMode::Combine => mode_row::<Combining>(unit, bits, texels, primary, colors),
    }
}

fn mode_row<M: Mode>(
    unit: &UnitState,
    bits: u16,
    texels: &[[u8; 4]; 16],
    primary: &[[u8; 4]; 16],
    colors: &mut [[u8; 4]; 16],
)
    requires { unit.now.env.mode ≡ M.mode }
    ensures { (i : ℕ) → i < 16 → bit_at bits i ≡ 1
        → get_or colors.new i [] ≡ environment_of unit.now (get_or texels.now i []) (get_or primary.now i []) (get_or colors.old i []) }
{
    for i in 0..16 {
        let set = is_set(bits, i);
        colors[i] = color_where::<M>(set, unit, texels[i], primary[i], colors[i]);
    }
}

/// The colour behind the unit where the pixel is one of those, and else the colour that comes in.
#[inline(always)]
fn color_where<M: Mode>(
    set: bool,
    unit: &UnitState,
    texel: [u8; 4],
    primary: [u8; 4],
    previous: [u8; 4],
) -> [u8; 4]
    requires { unit.now.env.mode ≡ M.mode }
    ensures { set ≡ true → result ≡ environment_of unit.now texel primary previous }
{
    if set {
        M::color(unit, texel, primary, previous)
    } else {
        previous
    }
}
