ghost use Rattle.std.specs.Prelude.{◌≡◌, ◌+◌, ◌^◌, ◌<◌, ◌++◌, [], true, map, option_to_list, length, ◌≤◌, Some, IsErr, IsNone, IfOk, IfSome, OnErr, OnOk};
ghost use Rattle.draw_front.specs.Draws.{captured_in, content_in};
ghost use Rattle.std.specs.Option.{option_copied};
ghost use Rattle.gl_records.specs.Size.{IsSize};
ghost use Rattle.gl_records.specs.Valid.{IsDrawable};
ghost use Rattle.trace_reader.specs.Reading.{index_after as index_after_of};
ghost use Rattle.draw_front.specs.Collecting.{answer_of, asked_of, opening_front, stepped, with_refusal};
ghost use Rattle.draw_front.specs.Call.{line_of};
ghost use Rattle.draw_front.specs.Immediate.{joined};

use crate::context::Context;
use crate::pending::Pending;
use crate::step::Step;
use gl_records::{Bytes, ImageSet, Item, Rec, Size};
use gl_tokens::GlError;
use output_format::{append_error, append_get, append_names, append_raise};
use std::alloc::{AllocError, Global};
use std::marker::Model;
use std::mem;
use std::thread::Threads;
use texture_ghosts::Lent;

/// The collecting side of a run. Records go in one after the other; their items and the lines of the log come out.
/// After want of memory each later call that can answer it does.
#[derive(Drop)]
pub struct Front {
    alloc: Global,
    size: Size,
    context: Context,
    pending: Pending,
    lines: Vec<u8>,
    line_count: u32,
    index: u32,
    out_of_memory: bool,
}

impl Model for Front {
    ghost use Rattle.std.specs.Prelude.{◌≤◌};
    ghost use Rattle.gl_records.specs.Size.{IsSize};
    ghost use Rattle.trace_reader.specs.Reading.{index_after as index_after_of};
    ghost use Rattle.draw_front.specs.Collecting.{Collecting};
    ghost use Rattle.draw_front.specs.Pending.{IsPending, items_left};
    ghost use Rattle.buffer_objects.specs.Buffers.{buffers_code};
    ghost use Rattle.std.specs.Coded.{codes};
    ghost use Rattle.std.specs.FinMap as map;

    ghost Value = { Collecting };

    ghost coded = { Prim.hlevel (codes, map.code, buffers_code) };

    ghost view = { λ front. record {
      size = front.size;
      context = front.context;
      left = items_left front.size front.context front.pending;
      lines = front.lines.items;
      line_count = front.line_count;
      index = front.index;
      out_of_memory = front.out_of_memory;
    } };

    // A record makes one line at most.
    ghost invariant = { λ front. IsSize front.size × IsPending front.size front.context front.pending × (front.line_count ≤ front.index) };
}

impl Front {
    /// Before the first record, for a surface of this size.
    pub fn new(alloc: Global, size: Size) -> Result<Front, AllocError>
        requires { IsSize size }
        ensures { IfOk result (λ front. front ≡ opening_front size) }
    {
        Ok(Front {
            alloc,
            size,
            context: Context::new(alloc, size),
            pending: Pending::Nothing,
            lines: Vec::new(alloc),
            line_count: 0,
            index: 0,
            out_of_memory: false,
        })
    }

    /// Runs the record, whose items then come by [`Front::next_item`]: Items exactly for a draw or a Clear without
    /// error, also where it has none, Present for Swap, Ended for End, and Quiet for all else. The items of the
    /// record before were all taken, and the records that were run can be counted in 32 bits, as those of every
    /// trace can.
    pub fn step(&mut self, rec: Rec, lent: &Lent) -> Result<Step, AllocError>
        requires lent { lent.now ≡ [] }
        requires taken { self.old.left ≡ [] }
        requires countable { self.old.index + 1 < 2 ^ 32 }
        ensures answer { IfOk result (λ step. step ≡ answer_of rec (asked_of self.old rec).error) }
        ensures asked { OnOk result (self.new ≡ stepped self.old rec) }
        ensures refused { (error : GlError) → (asked_of self.old rec).error ≡ Some error
            → OnOk result (self.new ≡ with_refusal self.old error) }
        ensures memory { OnErr result (self.new ≡ record self.old { out_of_memory = true }) }
        ensures kept { self.old.out_of_memory ≡ true → IsErr result }
    {
        if self.out_of_memory {
            return Err(AllocError);
        }
        let step = Step::of(&rec);
        let pending = Pending::of(&self.context, self.size, &rec, lent);
        let index = index_after(self.index, &rec);
        let waiting = self.lines.len();
        let Ok(made) = append_line(self.alloc, &mut self.lines, self.index, &self.context, &rec)
        else {
            return Err(self.run_out());
        };
        let Ok(error) = self.context.run(rec, lent) else {
            self.lines.truncate(waiting);
            return Err(self.run_out());
        };
        match error {
            None => {
                self.pending = pending;
                self.line_count += made;
                self.index = index;
                Ok(step)
            }
            Some(error) => self.refuse(error),
        }
    }

    /// The line of a command that makes an error, which the flag keeps if it had none.
    fn refuse(&mut self, error: GlError) -> Result<Step, AllocError>
        requires { self.old.index + 1 < 2 ^ 32 }
        ensures quiet { IfOk result (λ step. step ≡ Step.Quiet) }
        ensures line { OnOk result (self.new ≡ with_refusal self.old error) }
        ensures memory { OnErr result (self.new ≡ record self.old { out_of_memory = true }) }
    {
        if append_raise(self.alloc, &mut self.lines, self.index, error).is_err() {
            return Err(self.run_out());
        }
        self.context.raise(error);
        self.line_count += 1;
        self.index += 1;
        Ok(Step::Quiet)
    }

    /// Memory is out, and stays so.
    fn run_out(&mut self) -> AllocError
        ensures { self.new ≡ record self.old { out_of_memory = true } }
    {
        self.out_of_memory = true;
        AllocError
    }

    /// Takes the next item of the record, None exactly at their end. Each can be drawn on a surface of this size.
    pub fn next_item<R: Threads>(
        &mut self,
        _rt: &R,
        lent: &Lent,
    ) -> Result<Option<Item>, AllocError>
        requires lent { lent.now ≡ [] }
        ensures items { IfOk result (λ item. self.old.left ≡ map (captured_in self.old.context.textures) (option_to_list item) ++ self.new.left) }
        ensures end { IfOk result (λ item. IsNone item → self.new.left ≡ []) }
        ensures drawable { IfOk result (λ item. IfSome item (λ item. IsDrawable (captured_in self.old.context.textures item) self.old.size)) }
        ensures others { OnOk result (self.new ≡ record self.old { left = self.new.left }) }
        ensures memory { OnErr result (self.new ≡ record self.old { out_of_memory = true }) }
        ensures kept { self.old.out_of_memory ≡ true → IsErr result }
    {
        if self.out_of_memory {
            return Err(AllocError);
        }
        let _ = lent;
        Ok(self.pending.next(&self.context, self.size))
    }

    /// The image that an item reads by a texture unit, 0 or 1, at the moment of its record: None where it reads none. The
    /// item is one that [`Front::next_item`] answered, and no record was run since.
    pub fn image<'a>(&'a self, item: &Item, unit: u8, lent: &'a Lent) -> Option<&'a ImageSet>
        requires unit { unit < 2 }
        requires lent { lent.now ≡ [] }
        requires drawable { IsDrawable (captured_in self.now.context.textures item.now) self.now.size }
        ensures { option_copied result ≡ content_in self.now.context.textures item.now unit }
    {
        match item {
            Item::Draw(_, state) => self
                .context
                .textures
                .read(lent, unit, &state.units[usize::from(unit)]),
            Item::Clear(_) => None,
        }
    }

    /// The size of the surface.
    pub fn size(&self) -> Size
        ensures { result ≡ self.now.size }
    {
        self.size
    }

    /// How many lines wait.
    pub fn lines(&self) -> u32
        ensures { result ≡ self.now.line_count }
    {
        self.line_count
    }

    /// Hands out the lines that wait, one after the other, and leaves none.
    pub fn take_lines(&mut self) -> Bytes
        ensures lines { result ≡ self.old.lines }
        ensures none { self.new ≡ record self.old { lines = []; line_count = 0 } }
    {
        self.line_count = 0;
        Bytes::new(mem::replace(&mut self.lines, Vec::new(self.alloc)))
    }

    /// How many records were run, End left out.
    pub fn index(&self) -> u32
        ensures { result ≡ self.now.index }
    {
        self.index
    }
}

/// How many records were run once this one was: End isn't counted.
fn index_after(index: u32, rec: &Rec) -> u32
    requires { index + 1 < 2 ^ 32 }
    ensures value { result ≡ index_after_of index rec.now }
    ensures from { index ≤ result }
{
    match rec {
        Rec::End => index,
        _ => index + 1,
    }
}

/// Appends the line of a command that makes no error, where it has one, and answers how many lines that is. A command
/// that makes an error has none here. Where memory is out nothing is appended.
fn append_line(
    alloc: Global,
    lines: &mut Vec<u8>,
    index: u32,
    context: &Context,
    rec: &Rec,
) -> Result<u32, AllocError>
    ensures line { OnOk result (lines.new.items ≡ lines.old.items ++ joined (option_to_list (line_of context.now index rec.now))) }
    ensures count { IfOk result (λ made. made ≡ length (option_to_list (line_of context.now index rec.now))) }
    ensures few { IfOk result (λ made. made ≤ 1) }
    ensures memory { OnErr result (lines.new.items ≡ lines.old.items) }
{
    match rec {
        Rec::GetError => {
            let mut flag = context.flag;
            append_error(alloc, lines, index, flag.take())?;
            Ok(1)
        }
        Rec::GenBuffers { count } => match context.buffers.names_for(*count)? {
            Ok(names) => {
                append_names(alloc, lines, index, &names)?;
                Ok(1)
            }
            Err(_) => Ok(0),
        },
        Rec::GenTextures { count } => match context.textures.names_for(*count)? {
            Ok(names) => {
                append_names(alloc, lines, index, &names)?;
                Ok(1)
            }
            Err(_) => Ok(0),
        },
        Rec::Get { .. } | Rec::IsEnabled { .. } | Rec::IsBuffer { .. } | Rec::IsTexture { .. } =>
            match context.query(rec) {
                Ok(values) => {
                    append_get(alloc, lines, index, values.as_slice())?;
                    Ok(1)
                }
                Err(_) => Ok(0),
            },
        _ => Ok(0),
    }
}
