//! A draw, and what is still to come of it.
ghost use Rattle.std.specs.Prelude.{◌≡◌, ◌<◌, ◌≤◌, ◌++◌, [], drop, None, IsNone, IfSome, is_some, option_to_list, unsigned_abs};
ghost use Rattle.gl_records.specs.SetupRules.{AreRulesInRange};
ghost use Rattle.gl_records.specs.Valid.{IsValid};
ghost use Rattle.prim_assembly.specs.Primitives.{primitives};
ghost use Rattle.vertex_fetch.specs.Draws.{draw_error, vertex_count};
ghost use Rattle.draw_primitives.specs.Draw.{HasVertices, all_of, kind_of as kind_of_mode, primitives_left, set_up_all};
ghost use Rattle.draw_primitives.specs.Fan.{set_up};
ghost use Rattle.draw_primitives.specs.Known.{AreKnown, AreVertices};

use crate::corners::{corners, vertices};
use crate::draw_state::DrawState;
use crate::fan::Fan;
use crate::known::KnownVertices;
use crate::memory::Memory;
use buffer_objects::BufferKey;
use gl_records::{Prim, PrimKind, Rec, Size};
use gl_tokens::Mode;
use prim_assembly::{corners as numbers_of, count};
use std::marker::Model;

/// A draw in hand. It takes its vertices from the arrays only when their primitives are asked for.
#[derive(Drop)]
pub struct Draw {
    state: DrawState,
    rec: Rec,
    /// The buffer object that its indices lie in.
    element: Option<BufferKey>,
    assembly: Assembly,
    /// The primitive behind the one in hand.
    next: u32,
    /// The pieces left of the one in hand.
    fan: Fan,
    /// The vertices of the last one whose vertices were computed.
    known: Option<KnownVertices>,
}

/// How many vertices are put together, and to what.
#[derive(Clone, Copy)]
struct Assembly {
    mode: Mode,
    amount: u32,
}

impl Model for Draw {
    ghost use Rattle.std.specs.Prelude.{drop};
    ghost use Rattle.gl_records.specs.SetupRules.{AreRulesInRange};
    ghost use Rattle.prim_assembly.specs.Primitives.{primitives};
    ghost use Rattle.draw_primitives.specs.Draw.{HasVertices, Rest, kind_of};

    ghost Value = { Rest };

    ghost view = { λ draw. record {
      state = draw.state;
      rec = draw.rec;
      element = draw.element;
      kind = kind_of draw.assembly.mode;
      pieces = draw.fan;
      behind = drop draw.next (primitives draw.assembly.mode draw.assembly.amount);
      known = draw.known;
    } };

    ghost invariant = { λ draw. AreRulesInRange draw.state.rules × HasVertices draw.element draw.rec draw.assembly.amount };
}

impl Draw {
    /// A draw with all of its primitives to come. The record is DrawArrays or DrawElements without error where `element` is
    /// bound to ELEMENT_ARRAY_BUFFER, and `amount` is the number of its vertices.
    #[tactic(auto, using(crate::proofs::Vertices::has_vertices))]
    pub fn new(
        state: DrawState,
        rec: Rec,
        element: Option<BufferKey>,
        mode: Mode,
        amount: u32,
    ) -> Draw
        requires rules { AreRulesInRange state.rules }
        requires allowed { draw_error element rec ≡ None }
        requires vertices { amount ≡ unsigned_abs (vertex_count rec) }
        ensures { result ≡ all_of state rec element mode amount }
    {
        Draw {
            state,
            rec,
            element,
            assembly: Assembly { mode, amount },
            next: 0,
            fan: Fan::empty(),
            known: None,
        }
    }

    /// Takes the next primitive, None exactly where none is left. It can be drawn on a surface of this size. The memory is
    /// what it was at the primitives before.
    pub fn next(&mut self, memory: &Memory<'_>, size: Size) -> Option<Prim>
        requires known { AreKnown memory.now self.old }
        ensures prims { primitives_left memory.now size self.old
            ≡ option_to_list result ++ primitives_left memory.now size self.new }
        ensures none { IsNone result → primitives_left memory.now size self.new ≡ [] }
        ensures valid { IfSome result (λ prim. IsValid prim size) }
        ensures known { AreKnown memory.now self.new }
    {
        let kind = kind_of(self.assembly.mode);
        if let Some(prim) = self.fan.next(&self.state.rules, kind, size) {
            return Some(prim);
        }
        let taken = next_prim(
            &self.state,
            &self.rec,
            self.element,
            self.assembly,
            self.next,
            self.known,
            memory,
            size,
        );
        self.fan = taken.fan;
        self.next = taken.next;
        self.known = taken.known;
        taken.prim
    }
}

/// A primitive that was taken, and what is left behind it.
#[derive(Drop)]
struct Taken {
    prim: Option<Prim>,
    fan: Fan,
    next: u32,
    known: Option<KnownVertices>,
}

/// The first primitive that set-up makes of the draw's from number `next` on, the pieces left of that one, and the number behind
/// it.
fn next_prim(
    state: &DrawState,
    rec: &Rec,
    element: Option<BufferKey>,
    assembly: Assembly,
    next: u32,
    known: Option<KnownVertices>,
    memory: &Memory<'_>,
    size: Size,
) -> Taken
    requires rules { AreRulesInRange state.now.rules }
    requires vertices { HasVertices element rec.now assembly.amount }
    requires known { IfSome known (AreVertices state.now (record { rec = rec.now; element = element; memory = memory.now })) }
    ensures prims { set_up_all state.now (record { rec = rec.now; element = element; memory = memory.now }) size (kind_of_mode assembly.mode) (drop next (primitives assembly.mode assembly.amount))
        ≡ option_to_list result.prim
        ++ set_up state.now.rules (kind_of_mode assembly.mode) size result.fan
        ++ set_up_all state.now (record { rec = rec.now; element = element; memory = memory.now }) size (kind_of_mode assembly.mode) (drop result.next (primitives assembly.mode assembly.amount)) }
    ensures none { IsNone result.prim → result.fan ≡ [] }
    ensures end { IsNone result.prim → drop result.next (primitives assembly.mode assembly.amount) ≡ [] }
    ensures valid { IfSome result.prim (λ prim. IsValid prim size) }
    ensures known { IfSome result.known (AreVertices state.now (record { rec = rec.now; element = element; memory = memory.now })) }
{
    let kind = kind_of(assembly.mode);
    let user = has_plane(state);
    let end = count(assembly.mode, assembly.amount);
    let mut known = known;
    for k in next..end {
        let numbers = numbers_of(assembly.mode, assembly.amount, k);
        let vertices = vertices(state, rec, element, memory, numbers, &known);
        known = Some(vertices);
        let mut fan = Fan::clipped(kind, user, &corners(state.flat, &vertices));
        if let Some(prim) = fan.next(&state.rules, kind, size) {
            return Taken {
                prim: Some(prim),
                fan,
                next: k + 1,
                known,
            };
        }
    }
    Taken {
        prim: None,
        fan: Fan::empty(),
        next: end,
        known,
    }
}

/// Whether the user's plane is on.
fn has_plane(state: &DrawState) -> bool
    ensures { result ≡ is_some state.now.vertex.plane }
{
    state.vertex.state().plane.is_some()
}

/// What a mode's primitives span.
fn kind_of(mode: Mode) -> PrimKind
    ensures { result ≡ kind_of_mode mode }
{
    match mode {
        Mode::Points => PrimKind::Point,
        Mode::Lines | Mode::LineLoop | Mode::LineStrip => PrimKind::Line,
        Mode::Triangles | Mode::TriangleStrip | Mode::TriangleFan => PrimKind::Triangle,
    }
}
