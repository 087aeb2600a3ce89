//! Which levels of an image are read (OpenGL ES 1.1.12, 3.7, "Texture Minification" and "Texture Magnification").
ghost use Rattle.std.specs.Prelude.{◌≡◌, ℕ, pos, ◌^◌, ◌≤ℤ◌, false, IsTrue};
ghost use Rattle.gl_records.specs.Complete.{is_mipmap as reads_levels};
ghost use Rattle.gl_records.specs.LevelChoice.{chosen, is_linear as weights_texels, is_sharper_minified as is_sharper, threshold as threshold_of};
ghost use Rattle.gl_records.specs.LevelOfDetail.{lambda as lambda_of};
ghost use Rattle.texel_sampler.specs.Choosings.{chosen_from, fixed_by};

use crate::detail::lambda;
use crate::minifying::{FirstLevel, Minifying, NearestLevel, TwoLevels, single};
use gl_records::{LevelChoice, Sampler};
use gl_tokens::Filter;

/// The level or the two levels that the sampler reads of an image whose last level is `last`, how much the second
/// counts, and the filter inside of a level, for a rho in 1/65536 texel of level 0.
#[tactic(auto, unfolding(gl_records::specs::LevelChoice::chosen))]
pub fn choose(sampler: Sampler, last: u8, rho: u64) -> LevelChoice
    ensures { result ≡ chosen sampler last rho }
{
    let choosing = Choosing::new(sampler, last);
    match sampler.min {
        Filter::Nearest | Filter::Linear => chosen_at::<FirstLevel>(choosing, rho),
        Filter::NearestMipmapNearest | Filter::LinearMipmapNearest => {
            chosen_at::<NearestLevel>(choosing, rho)
        }
        Filter::NearestMipmapLinear | Filter::LinearMipmapLinear => {
            chosen_at::<TwoLevels>(choosing, rho)
        }
    }
}

/// What a sampler and the last level of its image fix for the choices at all pixels.
#[derive(Clone, Copy)]
pub struct Choosing {
    last: u8,
    /// The greatest lambda, in 1/256, at which the texture is magnified.
    threshold: i32,
    /// Whether MAG weights texels, and whether MIN does.
    mag: bool,
    min: bool,
}

impl Choosing {
    pub fn new(sampler: Sampler, last: u8) -> Choosing
        ensures value { result ≡ fixed_by sampler last }
        ensures from { pos 0 ≤ℤ result.threshold }
    {
        Choosing {
            last,
            threshold: threshold(sampler),
            mag: is_linear(sampler.mag),
            min: is_linear(sampler.min),
        }
    }
}

/// The choice for a rho in 1/65536 texel of level 0.
#[inline(always)]
pub fn chosen_at<M: Minifying>(choosing: Choosing, rho: u64) -> LevelChoice
    requires { pos 0 ≤ℤ choosing.threshold }
    ensures { result ≡ chosen_from M.levels choosing (lambda_of rho) }
{
    let detail = lambda(rho);
    if detail <= choosing.threshold {
        single(choosing.mag, 0)
    } else {
        M::choice(choosing.min, choosing.last, detail.unsigned_abs())
    }
}

/// The greatest lambda, in 1/256, at which the texture is magnified.
fn threshold(sampler: Sampler) -> i32
    ensures value { result ≡ threshold_of sampler }
    ensures from { pos 0 ≤ℤ result }
{
    if is_sharper_minified(sampler.mag, sampler.min) {
        128
    } else {
        0
    }
}

fn is_sharper_minified(mag: Filter, min: Filter) -> bool
    ensures { result ≡ is_sharper mag min }
{
    matches!(
        (mag, min),
        (
            Filter::Linear,
            Filter::NearestMipmapNearest | Filter::NearestMipmapLinear
        )
    )
}

/// Whether the filter weights four texels of a level, and does not take the nearest.
pub fn is_linear(filter: Filter) -> bool
    ensures { result ≡ weights_texels filter }
{
    matches!(
        filter,
        Filter::Linear | Filter::LinearMipmapNearest | Filter::LinearMipmapLinear
    )
}

/// Whether the choice goes by rho at all. Where it does not, it is the one for a rho of 0.
pub fn asks_for_rho(sampler: Sampler, last: u8) -> bool
    ensures unasked { result ≡ false → (rho : ℕ) → chosen sampler last rho ≡ chosen sampler last 0 }
    ensures asked { IsTrue result → ¬ (chosen sampler last (2 ^ 47) ≡ chosen sampler last 0) }
{
    is_linear(sampler.mag) != is_linear(sampler.min) || (last > 0 && is_mipmap(sampler.min))
}

fn is_mipmap(filter: Filter) -> bool
    ensures { result ≡ reads_levels filter }
{
    !matches!(filter, Filter::Nearest | Filter::Linear)
}
