ghost use Rattle.std.specs.Prelude.{◌≡◌};
ghost use Rattle.fx_arith.specs.Number.{c8 as c8_of};
ghost use Rattle.gl_state.specs.FragState.{frag_state as frag_state_of, units as units_of, factors as factors_of, bytes as bytes_of, env as env_of, unit as unit_of, scissor_box as scissor_box_of, stencil_state as stencil_state_of};

use crate::environments::Environment;
use crate::fragment_tests::FragmentTests;
use crate::state::State;
use fx_arith::{Fx, c8};
use gl_records::{Env, FragState, PixelBox, Sampler, StencilState, UnitState, VersionId};
use gl_tokens::{BaseFormat, BlendFactor, Compare};

/// The image that a texture unit is given: its version, its format, and how it is read.
pub type UnitImage = (VersionId, BaseFormat, Sampler);

impl State {
    /// What happens to the fragments of a draw at this moment, with these images at the texture units. A part is there
    /// exactly where it is on; a unit is where its texturing is on and its image is given.
    pub fn frag_state(&self, units: [Option<UnitImage>; 2]) -> FragState
        ensures { result ≡ frag_state_of self.now units }
    {
        let switches = &self.switches;
        FragState {
            units: self.units(units),
            fog: switches.fog.then_some(bytes(self.fog.color)),
            scissor: switches.scissor_test.then_some(scissor_box(&self.tests)),
            alpha: switches.alpha_test.then_some(alpha_test(&self.tests)),
            stencil: switches.stencil_test.then_some(stencil_state(&self.tests)),
            depth: switches
                .depth_test
                .then_some((self.tests.depth_comparison, self.tests.depth_write)),
            blend: self.factors(),
            logic: switches.color_logic_op.then_some(self.blending.operation),
            mask: self.blending.mask,
        }
    }

    fn units(&self, images: [Option<UnitImage>; 2]) -> [Option<UnitState>; 2]
        ensures { result ≡ units_of self.now images }
    {
        let [first, second] = images;
        [
            unit(self.switches.texture0, &self.environments.texture0, first),
            unit(self.switches.texture1, &self.environments.texture1, second),
        ]
    }

    /// The factors of blending; where the logical operation is on nothing is blended.
    fn factors(&self) -> Option<(BlendFactor, BlendFactor)>
        ensures { result ≡ factors_of self.now }
    {
        if self.switches.blend && !self.switches.color_logic_op {
            Some((self.blending.source, self.blending.destination))
        } else {
            None
        }
    }
}

/// A texture unit, where texturing is on and there is an image.
fn unit(on: bool, environment: &Environment, image: Option<UnitImage>) -> Option<UnitState>
    ensures { result ≡ unit_of on environment.now image }
{
    if !on {
        return None;
    }
    match image {
        Some((version, format, sampler)) => Some(UnitState {
            version,
            format,
            sampler,
            env: env(environment),
        }),
        None => None,
    }
}

/// A texture environment with its colour in bytes.
fn env(environment: &Environment) -> Env
    ensures { result ≡ env_of environment.now }
{
    Env {
        mode: environment.mode,
        color: bytes(environment.color),
        rgb: environment.rgb,
        alpha: environment.alpha,
    }
}

/// The bytes of a colour R G B A.
pub(crate) fn bytes(color: [Fx; 4]) -> [u8; 4]
    ensures { result ≡ bytes_of color }
{
    let [red, green, blue, alpha] = color;
    [c8(red), c8(green), c8(blue), c8(alpha)]
}

/// The scissor box; where a side would end past the greatest number it ends there.
pub(crate) fn scissor_box(tests: &FragmentTests) -> PixelBox
    ensures { result ≡ scissor_box_of tests.now }
{
    PixelBox {
        x0: tests.scissor_x,
        y0: tests.scissor_y,
        x1: tests.scissor_x.saturating_add(tests.scissor_width),
        y1: tests.scissor_y.saturating_add(tests.scissor_height),
    }
}

fn alpha_test(tests: &FragmentTests) -> (Compare, u8)
    ensures { result ≡ (tests.now.alpha_comparison, c8_of tests.now.alpha_reference.0) }
{
    (tests.alpha_comparison, c8(tests.alpha_reference.get()))
}

fn stencil_state(tests: &FragmentTests) -> StencilState
    ensures { result ≡ stencil_state_of tests.now }
{
    StencilState {
        func: tests.stencil_comparison,
        reference: tests.stencil_reference,
        mask: tests.stencil_mask,
        write: tests.stencil_write,
        ops: [tests.stencil_fail, tests.depth_fail, tests.depth_pass],
    }
}
