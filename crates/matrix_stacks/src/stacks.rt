ghost use Rattle.std.specs.Prelude.{◌≡◌, ◌<◌, ◌≤◌, length, OnSome};
ghost use Rattle.gl_tokens.specs.Commands.{done};
ghost use Rattle.matrix_stacks.specs.Stack.{top as top_of, with_top, pushed, popped};
ghost use Rattle.matrix_stacks.specs.Stacks.{Matrices, opening_matrices, limit, stack_of, current, with_current, loaded, multiplied, push as push_of, pop as pop_of, frustum as frustum_of, ortho as ortho_of};
ghost use Rattle.matrix_stacks.specs.Transform.{rotation as rotation_of, scaling as scaling_of, translation as translation_of};

use crate::products::product;
use crate::stack::Stack;
use crate::{projections, transforms};
use fx_arith::{Fx, Mat4};
use gl_tokens::{GlError, MatrixMode};
use std::marker::Model;

/// The matrix stacks, and which of them the commands act on: that of the mode and, for textures, of the unit
/// (OpenGL ES 1.1.12, 2.10.2). There are up to 16 modelview matrices, 2 projection matrices and 2 texture
/// matrices for each unit.
#[derive(Drop)]
pub struct Stacks {
    mode: MatrixMode,
    unit: u8,
    modelview: Stack<16>,
    projection: Stack<2>,
    texture0: Stack<2>,
    texture1: Stack<2>,
}

impl Model for Stacks {
    ghost use Rattle.std.specs.Prelude.{◌<◌};
    ghost use Rattle.matrix_stacks.specs.Stacks.{Matrices};

    ghost Value = { Matrices };

    ghost view = { λ s. record {
      mode = s.mode;
      unit = s.unit;
      modelview = s.modelview;
      projection = s.projection;
      texture0 = s.texture0;
      texture1 = s.texture1;
    } };

    ghost invariant = { λ s. s.unit < 2 };
}

impl Stacks {
    /// One identity in each stack; the mode is MODELVIEW and the unit 0.
    pub fn new() -> Stacks
        ensures { result ≡ opening_matrices }
    {
        Stacks {
            mode: MatrixMode::Modelview,
            unit: 0,
            modelview: Stack::new(),
            projection: Stack::new(),
            texture0: Stack::new(),
            texture1: Stack::new(),
        }
    }

    /// MatrixMode: the commands after it act on the stack of this mode.
    pub fn set_mode(&mut self, m: MatrixMode)
        ensures { self.new ≡ record self.old { mode = m } }
    {
        self.mode = m;
    }

    /// The mode.
    pub fn mode(&self) -> MatrixMode
        ensures { result ≡ self.now.mode }
    {
        self.mode
    }

    /// The texture unit whose stack the commands act on while the mode is TEXTURE.
    pub fn set_unit(&mut self, unit: u8)
        requires { unit < 2 }
        ensures { self.new ≡ record self.old { unit = unit } }
    {
        self.unit = unit;
    }

    /// The top of a stack. Only the mode TEXTURE goes by the unit.
    pub fn top(&self, m: MatrixMode, unit: u8) -> &Mat4
        requires { unit < 2 }
        ensures { result.now ≡ top_of (stack_of self.now m unit) }
    {
        match m {
            MatrixMode::Modelview => self.modelview.top(),
            MatrixMode::Projection => self.projection.top(),
            MatrixMode::Texture => {
                if unit == 0 {
                    self.texture0.top()
                } else {
                    self.texture1.top()
                }
            }
        }
    }

    /// How many matrices a stack has, 1 up to its limit. Only the mode TEXTURE goes by the unit.
    pub fn depth(&self, m: MatrixMode, unit: u8) -> u8
        requires { unit < 2 }
        ensures value { result ≡ length (stack_of self.now m unit) }
        ensures some { 0 < result }
        ensures bound { result ≤ limit m }
    {
        match m {
            MatrixMode::Modelview => self.modelview.depth() as u8,
            MatrixMode::Projection => self.projection.depth() as u8,
            MatrixMode::Texture => {
                if unit == 0 {
                    self.texture0.depth() as u8
                } else {
                    self.texture1.depth() as u8
                }
            }
        }
    }

    /// LoadMatrixx: `m` is the current top from here on. LoadIdentity is this of [`Mat4::identity`].
    pub fn load(&mut self, m: &Mat4)
        ensures { self.new ≡ loaded self.old m.now }
    {
        match self.mode {
            MatrixMode::Modelview => self.modelview.set_top(*m),
            MatrixMode::Projection => self.projection.set_top(*m),
            MatrixMode::Texture => {
                if self.unit == 0 {
                    self.texture0.set_top(*m);
                } else {
                    self.texture1.set_top(*m);
                }
            }
        }
    }

    /// MultMatrixx: the current top becomes the product of itself and `m`, which stands on the right.
    pub fn mult(&mut self, m: &Mat4)
        ensures { self.new ≡ multiplied self.old m.now }
    {
        let next = product(self.current(), m);
        self.load(&next);
    }

    /// Rotatex: [`Stacks::mult`] by the rotation by `angle` degrees, in units of 1/65536, counterclockwise about
    /// an axis of any length.
    pub fn rotate(&mut self, angle: Fx, axis: [Fx; 3])
        ensures { self.new ≡ multiplied self.old (rotation_of angle.0 axis) }
    {
        self.mult(&transforms::rotation(angle, axis));
    }

    /// Scalex: [`Stacks::mult`] by the scaling of x, y and z by `v`.
    pub fn scale(&mut self, v: [Fx; 3])
        ensures { self.new ≡ multiplied self.old (scaling_of v) }
    {
        self.mult(&transforms::scaling(v));
    }

    /// Translatex: [`Stacks::mult`] by the translation by `v`.
    pub fn translate(&mut self, v: [Fx; 3])
        ensures { self.new ≡ multiplied self.old (translation_of v) }
    {
        self.mult(&transforms::translation(v));
    }

    /// PushMatrix: the current top is there twice. StackOverflow where the current stack is full.
    pub fn push(&mut self) -> Option<GlError>
        ensures run { (self.new, result) ≡ push_of self.old }
        ensures unchanged { OnSome result (self.new ≡ self.old) }
    {
        match self.mode {
            MatrixMode::Modelview => self.modelview.push(),
            MatrixMode::Projection => self.projection.push(),
            MatrixMode::Texture => {
                if self.unit == 0 {
                    self.texture0.push()
                } else {
                    self.texture1.push()
                }
            }
        }
    }

    /// PopMatrix: the current top goes. StackUnderflow where it is the only matrix.
    pub fn pop(&mut self) -> Option<GlError>
        ensures run { (self.new, result) ≡ pop_of self.old }
        ensures unchanged { OnSome result (self.new ≡ self.old) }
    {
        match self.mode {
            MatrixMode::Modelview => self.modelview.pop(),
            MatrixMode::Projection => self.projection.pop(),
            MatrixMode::Texture => {
                if self.unit == 0 {
                    self.texture0.pop()
                } else {
                    self.texture1.pop()
                }
            }
        }
    }

    /// Frustumx with the sides `l r b t n f`: [`Stacks::mult`] by the perspective projection. InvalidValue where
    /// n or f isn't above 0, or where l = r, b = t or n = f.
    pub fn frustum(&mut self, p: [Fx; 6]) -> Option<GlError>
        ensures run { (self.new, result) ≡ frustum_of self.old p }
        ensures unchanged { OnSome result (self.new ≡ self.old) }
    {
        if projections::is_no_frustum(p) {
            return Some(GlError::InvalidValue);
        }
        self.mult(&projections::frustum(p));
        None
    }

    /// Orthox with the sides `l r b t n f`: [`Stacks::mult`] by the parallel projection. InvalidValue where
    /// l = r, b = t or n = f.
    pub fn ortho(&mut self, p: [Fx; 6]) -> Option<GlError>
        ensures run { (self.new, result) ≡ ortho_of self.old p }
        ensures unchanged { OnSome result (self.new ≡ self.old) }
    {
        if projections::is_flat(p) {
            return Some(GlError::InvalidValue);
        }
        self.mult(&projections::ortho(p));
        None
    }

    fn current(&self) -> &Mat4
        ensures { result.now ≡ top_of (current self.now) }
    {
        self.top(self.mode, self.unit)
    }
}
