//! What a state of fragments asks for at a pixel, found once for a primitive.
ghost use Rattle.std.specs.Prelude.{◌≡◌};
ghost use Rattle.whole_surface.specs.Stages.{AreTestsOf, IsFinishOf, has_mask};

use gl_records::FragState;
use gl_tokens::{BlendFactor, Compare};

/// Which tests are on. The scissor test is none of them.
#[derive(Clone, Copy)]
pub enum Tests {
    None,
    /// The depth test alone, which nearer fragments pass, and those of the stored depth where `equal` says so. `write`
    /// says whether it writes depths.
    Nearer { equal: bool, write: bool },
    /// These or others.
    Any,
}

/// What becomes of the colour of a fragment that passes.
#[derive(Clone, Copy)]
pub enum Finish {
    /// The pixel takes it as it is.
    Copied,
    /// It is blended by its alpha and one less its alpha.
    Over,
    /// One of these, or another blending, a logical operation or masks.
    Any,
}

impl Tests {
    pub fn of(state: &FragState) -> Tests
        ensures { AreTestsOf result state.now }
    {
        if state.alpha.is_some() || state.stencil.is_some() {
            return Tests::Any;
        }
        match state.depth {
            None => Tests::None,
            Some((Compare::Less, write)) => Tests::Nearer {
                equal: false,
                write,
            },
            Some((Compare::LessOrEqual, write)) => Tests::Nearer { equal: true, write },
            Some(_) => Tests::Any,
        }
    }
}

impl Finish {
    pub fn of(state: &FragState) -> Finish
        ensures { IsFinishOf result state.now }
    {
        if state.logic.is_some() || !is_unmasked(&state.mask) {
            return Finish::Any;
        }
        match state.blend {
            None => Finish::Copied,
            Some((BlendFactor::SourceAlpha, BlendFactor::OneMinusSourceAlpha)) => Finish::Over,
            Some(_) => Finish::Any,
        }
    }
}

/// Whether each component is written.
fn is_unmasked(mask: &[bool; 4]) -> bool
    ensures { result ≡ has_mask mask.now }
{
    mask[0] && mask[1] && mask[2] && mask[3]
}
