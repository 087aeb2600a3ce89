//! An image with its sampler.
ghost use Rattle.std.specs.Prelude.{◌≡◌, ℕ, ◌<◌, true, false, [], get_or, slice_index};
ghost use Rattle.std.specs.Int.{bit_at};
ghost use Rattle.fx_arith.specs.Number.{component};
ghost use Rattle.gl_records.specs.Complete.{is_complete, last_level as last_of};
ghost use Rattle.gl_records.specs.LevelChoice.{chosen};
ghost use Rattle.gl_records.specs.Sampling.{texel_of};

use crate::choice::{asks_for_rho, choose, is_linear};
use crate::choice_row::choose_row;
use crate::filtering::{EitherFilter, NearestTexel, WeightedTexels};
use crate::minifying::single;
use crate::sampling::filter;
use crate::texel_row::{filter_row, first_row};
use crate::wrapping::{Clamping, Repeating, Wrapping};
use fx_arith::Fx;
use gl_records::{ImageSet, LevelChoice, Sampler, last_level};
use gl_tokens::Wrap;
use std::marker::Model;

/// A complete image that is read by a sampler, and what these fix for the choice of levels at all pixels.
#[derive(Drop)]
pub struct ImageSampler<'a> {
    set: &'a ImageSet,
    sampler: Sampler,
    last: u8,
    asks: bool,
    /// The choice for a rho of 0, and for each where the sampler doesn't ask for it.
    first: LevelChoice,
}

impl<'a> Model for ImageSampler<'a> {
    ghost use Rattle.texel_sampler.specs.SampledImage.{IsSampled, SampledImage};

    ghost Value = { SampledImage };

    ghost view = { λ s. record { set = s.set.now; sampler = s.sampler } };

    ghost invariant = { λ s. IsSampled (record { set = s.set.now; sampler = s.sampler }) s.last s.asks s.first };
}

impl<'a> ImageSampler<'a> {
    pub fn new(set: &'a ImageSet, sampler: Sampler) -> ImageSampler<'a>
        requires { is_complete set.now sampler ≡ true }
        ensures { result ≡ record { set = set.now; sampler = sampler } }
    {
        let last = last_level(set);
        ImageSampler {
            set,
            sampler,
            last,
            asks: asks_for_rho(sampler, last),
            first: choose(sampler, last, 0),
        }
    }

    /// Whether the choice of levels goes by rho at all.
    pub fn asks_for_rho(&self) -> bool
        ensures { result ≡ false → (rho : ℕ) → chosen self.now.sampler (last_of self.now.set) rho ≡ chosen self.now.sampler (last_of self.now.set) 0 }
    {
        self.asks
    }

    /// The texel at S and T, R G B A, for a rho in 1/65536 texel of level 0.
    pub fn texel(&self, s: Fx, t: Fx, rho: u64) -> [u8; 4]
        ensures { result ≡ texel_of self.now.set self.now.sampler s.0 t.0 rho }
    {
        filter(self.set, self.sampler, self.choice(rho), s, t)
    }

    /// The texels of the pixels of a row whose bits are set, R G B A, at these S and T and for these rho in 1/65536 texel
    /// of level 0. The others are anything.
    pub fn texels(
        &self,
        bits: u16,
        s: &[Fx; 16],
        t: &[Fx; 16],
        rhos: &[u64; 16],
        texels: &mut [[u8; 4]; 16],
    )
        ensures { (i : ℕ) → i < 16 → bit_at bits i ≡ 1
            → get_or texels.new i [] ≡ texel_of self.now.set self.now.sampler (component s.now i) (component t.now i) (slice_index rhos.now i) }
    {
        match (self.sampler.wrap_s, self.sampler.wrap_t) {
            (Wrap::Repeat, Wrap::Repeat) => {
                self.wrapped_texels::<Repeating, Repeating>(bits, s, t, rhos, texels)
            }
            (Wrap::Repeat, Wrap::ClampToEdge) => {
                self.wrapped_texels::<Repeating, Clamping>(bits, s, t, rhos, texels)
            }
            (Wrap::ClampToEdge, Wrap::Repeat) => {
                self.wrapped_texels::<Clamping, Repeating>(bits, s, t, rhos, texels)
            }
            (Wrap::ClampToEdge, Wrap::ClampToEdge) => {
                self.wrapped_texels::<Clamping, Clamping>(bits, s, t, rhos, texels)
            }
        }
    }

    fn choice(&self, rho: u64) -> LevelChoice
        ensures { result ≡ chosen self.now.sampler (last_of self.now.set) rho }
    {
        if self.asks {
            choose(self.sampler, self.last, rho)
        } else {
            self.first
        }
    }

    /// The same under the sampler's wrap modes. Where the choice of levels doesn't go by rho, it is level 0 by MAG.
    fn wrapped_texels<S: Wrapping, T: Wrapping>(
        &self,
        bits: u16,
        s: &[Fx; 16],
        t: &[Fx; 16],
        rhos: &[u64; 16],
        texels: &mut [[u8; 4]; 16],
    )
        requires wrap_s { self.now.sampler.wrap_s ≡ S.wrap }
        requires wrap_t { self.now.sampler.wrap_t ≡ T.wrap }
        ensures { (i : ℕ) → i < 16 → bit_at bits i ≡ 1
            → get_or texels.new i [] ≡ texel_of self.now.set self.now.sampler (component s.now i) (component t.now i) (slice_index rhos.now i) }
    {
        if self.asks {
            self.chosen_texels::<S, T>(bits, s, t, rhos, texels)
        } else {
            let linear = is_linear(self.sampler.mag);
            first_row::<S, T>(self.set, linear, bits, s, t, texels)
        }
    }

    /// The same where the choice of levels goes by rho: the choices of the row first, then its texels.
    fn chosen_texels<S: Wrapping, T: Wrapping>(
        &self,
        bits: u16,
        s: &[Fx; 16],
        t: &[Fx; 16],
        rhos: &[u64; 16],
        texels: &mut [[u8; 4]; 16],
    )
        requires wrap_s { self.now.sampler.wrap_s ≡ S.wrap }
        requires wrap_t { self.now.sampler.wrap_t ≡ T.wrap }
        ensures { (i : ℕ) → i < 16 → bit_at bits i ≡ 1
            → get_or texels.new i [] ≡ texel_of self.now.set self.now.sampler (component s.now i) (component t.now i) (slice_index rhos.now i) }
    {
        let mut choices = [single(false, 0); 16];
        choose_row(self.sampler, self.last, bits, rhos, &mut choices);
        match (is_linear(self.sampler.mag), is_linear(self.sampler.min)) {
            (false, false) => {
                filter_row::<NearestTexel, S, T>(self.set, &choices, bits, s, t, texels)
            }
            (true, true) => {
                filter_row::<WeightedTexels, S, T>(self.set, &choices, bits, s, t, texels)
            }
            _ => filter_row::<EitherFilter, S, T>(self.set, &choices, bits, s, t, texels),
        }
    }
}
