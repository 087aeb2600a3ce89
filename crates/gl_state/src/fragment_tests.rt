ghost use Rattle.std.specs.Prelude.{◌≡◌, OnSome};
ghost use Rattle.gl_state.specs.FragmentTests.{opening_tests, alpha_func as alpha_func_of, stencil_func as stencil_func_of, stencil_ops as stencil_ops_of, with_stencil_write, depth_func as depth_func_of, with_depth_write, scissor as scissor_of};

use crate::unit_fx::UnitFx;
use crate::values::{in_byte, low_byte};
use fx_arith::Fx;
use gl_records::Size;
use gl_tokens::{Compare, GlError, StencilOp};

/// The tests that a fragment goes through (OpenGL ES 1.1.12, 4.1.2 and 4.1.4 to 4.1.6), and what of depth and stencil
/// is written (4.2.2). Whether a test is on is said by [`crate::Switches`].
#[derive(Clone, Copy, Debug, PartialEq, Eq)]
pub struct FragmentTests {
    pub alpha_comparison: Compare,
    pub alpha_reference: UnitFx,
    pub stencil_comparison: Compare,
    pub stencil_reference: u8,
    /// The bits that are compared.
    pub stencil_mask: u8,
    /// What becomes of a stencil value where the stencil test fails, where the depth test fails, where both pass.
    pub stencil_fail: StencilOp,
    pub depth_fail: StencilOp,
    pub depth_pass: StencilOp,
    /// The bits of stencil values that are written.
    pub stencil_write: u8,
    pub depth_comparison: Compare,
    /// Whether depths are written.
    pub depth_write: bool,
    /// The scissor box in pixels, as it was given; its sides are at least 0.
    pub scissor_x: i32,
    pub scissor_y: i32,
    pub scissor_width: i32,
    pub scissor_height: i32,
}

impl FragmentTests {
    /// Every alpha and every stencil value passes, lesser depths pass and are written; the box is the whole surface.
    pub fn new(size: Size) -> FragmentTests
        ensures { result ≡ opening_tests size }
    {
        FragmentTests {
            alpha_comparison: Compare::Always,
            alpha_reference: UnitFx::clamped(Fx::ZERO),
            stencil_comparison: Compare::Always,
            stencil_reference: 0,
            stencil_mask: 255,
            stencil_fail: StencilOp::Keep,
            depth_fail: StencilOp::Keep,
            depth_pass: StencilOp::Keep,
            stencil_write: 255,
            depth_comparison: Compare::Less,
            depth_write: true,
            scissor_x: 0,
            scissor_y: 0,
            scissor_width: i32::from(size.w),
            scissor_height: i32::from(size.h),
        }
    }

    /// AlphaFuncx: InvalidEnum where there is no such comparison; the reference is clamped to 0 to 1.
    pub(crate) fn alpha_func(&mut self, code: u32, reference: Fx) -> Option<GlError>
        ensures run { (self.new, result) ≡ alpha_func_of self.old code reference }
        ensures unchanged { OnSome result (self.new ≡ self.old) }
    {
        let Some(comparison) = Compare::from_code(code) else {
            return Some(GlError::InvalidEnum);
        };
        self.alpha_comparison = comparison;
        self.alpha_reference = UnitFx::clamped(reference);
        None
    }

    /// StencilFunc: InvalidEnum where there is no such comparison; the reference is clamped to 0 to 255, and the mask
    /// keeps its low eight bits.
    pub(crate) fn stencil_func(&mut self, code: u32, reference: i32, mask: u32) -> Option<GlError>
        ensures run { (self.new, result) ≡ stencil_func_of self.old code reference mask }
        ensures unchanged { OnSome result (self.new ≡ self.old) }
    {
        let reference = in_byte(reference);
        let Some(comparison) = Compare::from_code(code) else {
            return Some(GlError::InvalidEnum);
        };
        self.stencil_comparison = comparison;
        self.stencil_reference = reference;
        self.stencil_mask = low_byte(mask);
        None
    }

    /// StencilOp: InvalidEnum where one of the three is no operation.
    pub(crate) fn stencil_ops(
        &mut self,
        stencil_fail: u32,
        depth_fail: u32,
        depth_pass: u32,
    ) -> Option<GlError>
        ensures run { (self.new, result) ≡ stencil_ops_of self.old stencil_fail depth_fail depth_pass }
        ensures unchanged { OnSome result (self.new ≡ self.old) }
    {
        let Some(stencil_fail) = StencilOp::from_code(stencil_fail) else {
            return Some(GlError::InvalidEnum);
        };
        let Some(depth_fail) = StencilOp::from_code(depth_fail) else {
            return Some(GlError::InvalidEnum);
        };
        let Some(depth_pass) = StencilOp::from_code(depth_pass) else {
            return Some(GlError::InvalidEnum);
        };
        self.stencil_fail = stencil_fail;
        self.depth_fail = depth_fail;
        self.depth_pass = depth_pass;
        None
    }

    /// StencilMask: its low eight bits.
    pub(crate) fn set_stencil_write(&mut self, mask: u32)
        ensures { self.new ≡ with_stencil_write self.old mask }
    {
        self.stencil_write = low_byte(mask);
    }

    /// DepthFunc: InvalidEnum where there is no such comparison.
    pub(crate) fn depth_func(&mut self, code: u32) -> Option<GlError>
        ensures run { (self.new, result) ≡ depth_func_of self.old code }
        ensures unchanged { OnSome result (self.new ≡ self.old) }
    {
        let Some(comparison) = Compare::from_code(code) else {
            return Some(GlError::InvalidEnum);
        };
        self.depth_comparison = comparison;
        None
    }

    /// DepthMask.
    pub(crate) fn set_depth_write(&mut self, write: bool)
        ensures { self.new ≡ with_depth_write self.old write }
    {
        self.depth_write = write;
    }

    /// Scissor: InvalidValue where a side is below 0.
    pub(crate) fn scissor(&mut self, x: i32, y: i32, width: i32, height: i32) -> Option<GlError>
        ensures run { (self.new, result) ≡ scissor_of self.old x y width height }
        ensures unchanged { OnSome result (self.new ≡ self.old) }
    {
        if width < 0 || height < 0 {
            return Some(GlError::InvalidValue);
        }
        self.scissor_x = x;
        self.scissor_y = y;
        self.scissor_width = width;
        self.scissor_height = height;
        None
    }
}
