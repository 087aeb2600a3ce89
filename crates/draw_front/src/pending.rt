//! The items of a record that are still to come.
ghost use Rattle.std.specs.Prelude.{◌≡◌, ◌++◌, [], map, option_to_list, None, IsNone, IfSome};
ghost use Rattle.gl_records.specs.Size.{IsSize};
ghost use Rattle.gl_records.specs.declared.size.Size.{Size as SizeOf};
ghost use Rattle.gl_records.specs.Valid.{IsDrawable};
ghost use Rattle.vertex_fetch.specs.Draws.{vertex_count};
ghost use Rattle.draw_front.specs.Call.{commanded};
ghost use Rattle.draw_front.specs.Pending.{IsPending, items_left, pending_draw as pending_draw_of, pending_of, unversioned};
ghost use Rattle.draw_front.specs.Draws.{captured_in};

use crate::context::Context;
use crate::draw_state::{draw_state, fragments};
use draw_primitives::Draw;
use gl_records::{ClearItem, FragState, Item, Rec, Size};
use gl_tokens::{ArrayKind, Mode};
use texture_ghosts::Lent;
use vertex_fetch::draw_error;

/// What a record is still to draw.
#[derive(Drop)]
pub enum Pending {
    Nothing,
    Clear(ClearItem),
    /// A draw, and what happens to its fragments.
    Draw(FragState, Draw),
}

impl Pending {
    /// What a record is to draw, if it makes no error.
    pub fn of(context: &Context, size: Size, rec: &Rec, lent: &Lent) -> Pending
        requires size { IsSize size }
        requires lent { lent.now ≡ [] }
        ensures value { unversioned result ≡ pending_of size context.now rec.now }
        ensures valid { (commanded context.now rec.now).1 ≡ None → IsPending size context.now result }
    {
        match *rec {
            Rec::DrawArrays { mode, first, count } => {
                let rec = Rec::DrawArrays { mode, first, count };
                pending_draw(context, rec, mode, count, lent)
            }
            Rec::DrawElements {
                mode,
                count,
                kind,
                region,
                offset,
            } => {
                let rec = Rec::DrawElements {
                    mode,
                    count,
                    kind,
                    region,
                    offset,
                };
                pending_draw(context, rec, mode, count, lent)
            }
            Rec::Clear { mask } => match context.state.clear_item(mask, size) {
                Some(clear) => Pending::Clear(clear),
                None => Pending::Nothing,
            },
            _ => Pending::Nothing,
        }
    }

    /// Takes the next item, where there is one.
    pub fn next(&mut self, context: &Context, size: Size) -> Option<Item>
        requires sides { IsSize size }
        requires valid { IsPending size context.now self.old }
        ensures items { items_left size context.now self.old
            ≡ map (captured_in context.now.textures) (option_to_list result) ++ items_left size context.now self.new }
        ensures none { IsNone result → items_left size context.now self.new ≡ [] }
        ensures drawable { IfSome result (λ item. IsDrawable (captured_in context.now.textures item) size) }
        ensures pending { IsPending size context.now self.new }
    {
        match self {
            Pending::Nothing => None,
            Pending::Clear(clear) => {
                let clear = *clear;
                *self = Pending::Nothing;
                Some(Item::Clear(clear))
            }
            Pending::Draw(fragments, draw) => match draw.next(&context.memory(), size) {
                Some(prim) => Some(Item::Draw(prim, *fragments)),
                None => None,
            },
        }
    }
}

/// What a draw of so many vertices is to draw: nothing where it has an error, or where the vertex array is off.
fn pending_draw(context: &Context, rec: Rec, mode: u32, count: i32, lent: &Lent) -> Pending
    requires count { vertex_count rec ≡ count }
    requires lent { lent.now ≡ [] }
    ensures valid { (size : SizeOf) → IsPending size context.now result }
    ensures value { unversioned result ≡ pending_draw_of context.now rec mode count }
{
    let element = context.element_buffer();
    match (draw_error(&rec, element), Mode::from_code(mode)) {
        (None, Some(mode)) => {
            if context.arrays.enabled(ArrayKind::Vertex) {
                let state = draw_state(&context.state);
                let draw = Draw::new(state, rec, element, mode, count.unsigned_abs());
                Pending::Draw(fragments(&context.state, &context.textures, lent), draw)
            } else {
                Pending::Nothing
            }
        }
        _ => Pending::Nothing,
    }
}
