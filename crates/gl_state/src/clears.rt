ghost use Rattle.std.specs.Prelude.{◌≡◌, ◌≤◌};
ghost use Rattle.gl_records.specs.declared.pixel.TheConstants.{GREATEST_DEPTH as THE_GREATEST};
ghost use Rattle.gl_state.specs.Clears.{opening_clears, with_color, with_depth, with_stencil, clear_error as clear_error_of, surface_depth as surface_depth_of};

use crate::unit_fx::UnitFx;
use crate::values::low_byte_signed;
use fx_arith::{Fx, in_unit};
use gl_records::GREATEST_DEPTH;
use gl_tokens::GlError;

/// The bits of a Clear's mask (OpenGL ES 1.1.12, 4.2.3).
pub(crate) const COLOR_BIT: u32 = 0x4000;

pub(crate) const DEPTH_BIT: u32 = 0x0100;

pub(crate) const STENCIL_BIT: u32 = 0x0400;

const CLEAR_BITS: u32 = COLOR_BIT | DEPTH_BIT | STENCIL_BIT;

/// The values that Clears write (OpenGL ES 1.1.12, 4.2.3).
#[derive(Clone, Copy, Debug, PartialEq, Eq)]
pub struct Clears {
    /// R G B A, each 0 to 1.
    pub color: [Fx; 4],
    pub depth: UnitFx,
    pub stencil: u8,
}

impl Clears {
    /// Colour 0 0 0 0, depth 1, stencil 0.
    pub fn new() -> Clears
        ensures { result ≡ opening_clears }
    {
        Clears {
            color: [Fx::ZERO; 4],
            depth: UnitFx::clamped(Fx::ONE),
            stencil: 0,
        }
    }

    /// ClearColorx: each component is clamped to 0 to 1.
    pub(crate) fn set_color(&mut self, red: Fx, green: Fx, blue: Fx, alpha: Fx)
        ensures { self.new ≡ with_color self.old red green blue alpha }
    {
        self.color = [in_unit(red), in_unit(green), in_unit(blue), in_unit(alpha)];
    }

    /// ClearDepthx: it is clamped to 0 to 1.
    pub(crate) fn set_depth(&mut self, depth: Fx)
        ensures { self.new ≡ with_depth self.old depth }
    {
        self.depth = UnitFx::clamped(depth);
    }

    /// ClearStencil: its low eight bits.
    pub(crate) fn set_stencil(&mut self, stencil: i32)
        ensures { self.new ≡ with_stencil self.old stencil }
    {
        self.stencil = low_byte_signed(stencil);
    }
}

/// A depth as the surface has it, rounded down.
pub(crate) fn surface_depth(depth: UnitFx) -> u32
    ensures value { result ≡ surface_depth_of depth }
    ensures to { result ≤ THE_GREATEST }
{
    let depth = u64::from(depth.get().0.unsigned_abs());
    (u64::from(GREATEST_DEPTH) * depth / 65536) as u32
}

/// The error of Clear, or none: InvalidValue where the mask has a bit that stands for no buffer.
pub fn clear_error(mask: u32) -> Option<GlError>
    ensures { result ≡ clear_error_of mask }
{
    if mask & CLEAR_BITS == mask {
        None
    } else {
        Some(GlError::InvalidValue)
    }
}
