//! The choices of levels of a row of pixels.
ghost use Rattle.std.specs.Prelude.{◌≡◌, ℕ, ◌<◌, pos, ◌≤ℤ◌, slice_index};
ghost use Rattle.std.specs.Int.{bit_at};
ghost use Rattle.gl_records.specs.LevelChoice.{chosen};
ghost use Rattle.gl_records.specs.LevelOfDetail.{lambda as lambda_of};
ghost use Rattle.texel_sampler.specs.Choosings.{choice_at, chosen_from};

use crate::bits::{is_set, run_of};
use crate::choice::{Choosing, chosen_at};
use crate::minifying::{FirstLevel, Minifying, NearestLevel, TwoLevels};
use gl_records::{LevelChoice, Sampler};
use gl_tokens::Filter;

/// The choices for the pixels whose bits are set, at these rho in 1/65536 texel of level 0. The others are anything.
#[tactic(auto, unfolding(gl_records::specs::LevelChoice::chosen))]
pub fn choose_row(
    sampler: Sampler,
    last: u8,
    bits: u16,
    rhos: &[u64; 16],
    choices: &mut [LevelChoice; 16],
)
    ensures { (i : ℕ) → i < 16 → bit_at bits i ≡ 1 → choice_at choices.new i ≡ chosen sampler last (slice_index rhos.now i) }
{
    let choosing = Choosing::new(sampler, last);
    match sampler.min {
        Filter::Nearest | Filter::Linear => {
            choose_each::<FirstLevel>(choosing, bits, rhos, choices)
        }
        Filter::NearestMipmapNearest | Filter::LinearMipmapNearest => {
            choose_each::<NearestLevel>(choosing, bits, rhos, choices)
        }
        Filter::NearestMipmapLinear | Filter::LinearMipmapLinear => {
            choose_each::<TwoLevels>(choosing, bits, rhos, choices)
        }
    }
}

fn choose_each<M: Minifying>(
    choosing: Choosing,
    bits: u16,
    rhos: &[u64; 16],
    choices: &mut [LevelChoice; 16],
)
    requires { pos 0 ≤ℤ choosing.threshold }
    ensures { (i : ℕ) → i < 16 → bit_at bits i ≡ 1
        → choice_at choices.new i ≡ chosen_from M.levels choosing (lambda_of (slice_index rhos.now i)) }
{
    let (first, end) = run_of(bits);
    for i in first..end {
        if is_set(bits, i) {
            choices[i] = chosen_at::<M>(choosing, rhos[i]);
        }
    }
}
