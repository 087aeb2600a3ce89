ghost use Rattle.std.specs.Prelude.{◌≡◌, ◌<◌, ◌≤◌, [], ◌∷◌, length};
ghost use Rattle.fx_arith.specs.Matrix.{identity};
ghost use Rattle.gl_tokens.specs.Commands.{done};
ghost use Rattle.matrix_stacks.specs.Stack.{top as top_of, with_top, pushed, popped};

use fx_arith::Mat4;
use gl_tokens::GlError;
use std::marker::Model;

/// A stack of 1 to `LIMIT` matrices.
#[derive(Drop)]
pub(crate) struct Stack<const LIMIT: usize> {
    matrices: [Mat4; LIMIT],
    depth: usize,
}

impl<const LIMIT: usize> Model for Stack<LIMIT> {
    ghost use Rattle.std.specs.Prelude.{◌≡◌, ◌<◌, ◌≤◌, List, length, take};
    ghost use Rattle.fx_arith.specs.declared.mat4.Mat4.{Mat4};

    ghost Value = { List Mat4 };

    ghost view = { λ s. take s.depth s.matrices };

    ghost invariant = { λ s. (0 < s.depth) × (s.depth ≤ LIMIT) × (length s.matrices ≡ LIMIT) };
}

impl<const LIMIT: usize> Stack<LIMIT> {
    /// One identity.
    pub(crate) fn new() -> Self
        requires { 0 < LIMIT }
        ensures { result ≡ identity ∷ [] }
    {
        Stack {
            matrices: [Mat4::identity(); LIMIT],
            depth: 1,
        }
    }

    pub(crate) fn depth(&self) -> usize
        ensures value { result ≡ length self.now }
        ensures some { 0 < result }
        ensures bound { result ≤ LIMIT }
    {
        self.matrices().len()
    }

    pub(crate) fn top(&self) -> &Mat4
        ensures { result.now ≡ top_of self.now }
    {
        &self.matrices[self.depth - 1]
    }

    pub(crate) fn set_top(&mut self, m: Mat4)
        ensures { self.new ≡ with_top self.old m }
    {
        self.matrices[self.depth - 1] = m;
    }

    pub(crate) fn push(&mut self) -> Option<GlError>
        ensures { (self.new, result) ≡ done self.old (pushed LIMIT self.old) }
    {
        if self.depth == LIMIT {
            return Some(GlError::StackOverflow);
        }
        self.matrices[self.depth] = self.matrices[self.depth - 1];
        self.depth += 1;
        None
    }

    pub(crate) fn pop(&mut self) -> Option<GlError>
        ensures { (self.new, result) ≡ done self.old (popped self.old) }
    {
        if self.matrices().len() == 1 {
            return Some(GlError::StackUnderflow);
        }
        self.depth -= 1;
        None
    }

    fn matrices(&self) -> &[Mat4]
        ensures value { result.now ≡ self.now }
        ensures some { 0 < length result.now }
        ensures bound { length result.now ≤ LIMIT }
    {
        &self.matrices[..self.depth]
    }
}
