ghost use Rattle.std.specs.Prelude.{◌≡◌, OnSome};
ghost use Rattle.gl_state.specs.Blending.{opening_blending, source_factor as source_factor_of, destination_factor as destination_factor_of, blend_func as blend_func_of, logic as logic_of, with_mask};
ghost use Rattle.gl_tokens.specs.BlendFactor.{from_code_of};

use gl_tokens::{BlendFactor, GlError, LogicOp};

/// How a fragment's colour and the one that is there become one (OpenGL ES 1.1.12, 4.1.7 and 4.1.9), and which
/// components are written (4.2.2).
#[derive(Clone, Copy, Debug, PartialEq, Eq)]
pub struct Blending {
    pub source: BlendFactor,
    pub destination: BlendFactor,
    pub operation: LogicOp,
    /// R G B A.
    pub mask: [bool; 4],
}

impl Blending {
    /// The incoming colour takes the place of the one that is there.
    pub fn new() -> Blending
        ensures { result ≡ opening_blending }
    {
        Blending {
            source: BlendFactor::One,
            destination: BlendFactor::Zero,
            operation: LogicOp::Copy,
            mask: [true; 4],
        }
    }

    /// BlendFunc: InvalidEnum where the source, or the destination, can't have such a factor.
    pub(crate) fn blend_func(&mut self, source: u32, destination: u32) -> Option<GlError>
        ensures run { (self.new, result) ≡ blend_func_of self.old source destination }
        ensures unchanged { OnSome result (self.new ≡ self.old) }
    {
        let Some(source) = source_factor(source) else {
            return Some(GlError::InvalidEnum);
        };
        let Some(destination) = destination_factor(destination) else {
            return Some(GlError::InvalidEnum);
        };
        self.source = source;
        self.destination = destination;
        None
    }

    /// LogicOp: InvalidEnum where there is no such operation.
    pub(crate) fn logic(&mut self, code: u32) -> Option<GlError>
        ensures run { (self.new, result) ≡ logic_of self.old code }
        ensures unchanged { OnSome result (self.new ≡ self.old) }
    {
        let Some(operation) = LogicOp::from_code(code) else {
            return Some(GlError::InvalidEnum);
        };
        self.operation = operation;
        None
    }

    /// ColorMask.
    pub(crate) fn set_mask(&mut self, red: bool, green: bool, blue: bool, alpha: bool)
        ensures { self.new ≡ with_mask self.old red green blue alpha }
    {
        self.mask = [red, green, blue, alpha];
    }
}

fn source_factor(code: u32) -> Option<BlendFactor>
    ensures { result ≡ source_factor_of (from_code_of code) }
{
    match BlendFactor::from_code(code) {
        Some(BlendFactor::SourceColor | BlendFactor::OneMinusSourceColor) => None,
        factor => factor,
    }
}

fn destination_factor(code: u32) -> Option<BlendFactor>
    ensures { result ≡ destination_factor_of (from_code_of code) }
{
    match BlendFactor::from_code(code) {
        Some(
            BlendFactor::DestinationColor
            | BlendFactor::OneMinusDestinationColor
            | BlendFactor::SourceAlphaSaturate,
        ) => None,
        factor => factor,
    }
}
