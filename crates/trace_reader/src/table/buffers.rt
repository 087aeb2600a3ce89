//! Commands of buffer objects.
ghost use Rattle.std.specs.Prelude.{◌≡◌, ◌≤◌, true, IfSome};
ghost use Rattle.trace_reader.specs.Buffers.{buffers_row, buffers_spelling};
ghost use Rattle.trace_reader.specs.Command.{with_words};
ghost use Rattle.trace_reader.specs.Lists.{brings_list};
ghost use Rattle.trace_reader.specs.Shape.{words_of, has_piece};
ghost use Rattle.trace_reader.specs.Spelling.{ReadsBack};

use crate::shape::Shape;
use crate::spelled::Spelled;
use crate::words::{Words, signed, signed_word};
use gl_records::{Bytes, Rec, Words as Names};
use std::alloc::Global;

/// The row of an opcode, as `row` of the whole table answers it.
pub fn row(alloc: Global, opcode: u16, n: &Words) -> Option<(Shape, Rec)>
    ensures row { result ≡ with_words n.now (buffers_row opcode) }
    ensures short { IfSome result (λ found. words_of found.0 ≤ 16) }
    ensures listed { IfSome result (λ found. brings_list found.1 ≡ true → has_piece found.0 ≡ true) }
{
    match opcode {
        0x08 => Some((Shape::Exactly(1), Rec::IsBuffer { name: n[0] })),
        0x20 => Some((
            Shape::Exactly(1),
            Rec::GenBuffers {
                count: signed(n[0]),
            },
        )),
        0x21 => Some((
            Shape::Words,
            Rec::DeleteBuffers {
                names: Names::new(Vec::new(alloc)),
            },
        )),
        0x22 => Some((
            Shape::Exactly(2),
            Rec::BindBuffer {
                target: n[0],
                name: n[1],
            },
        )),
        0x23 => Some((
            Shape::AtLeast(3),
            Rec::BufferData {
                target: n[0],
                usage: n[1],
                size: signed(n[2]),
                piece: Bytes::new(Vec::new(alloc)),
            },
        )),
        0x24 => Some((
            Shape::AtLeast(3),
            Rec::BufferSubData {
                target: n[0],
                offset: signed(n[1]),
                size: signed(n[2]),
                piece: Bytes::new(Vec::new(alloc)),
            },
        )),
        _ => None,
    }
}

/// The record as these commands are written, where it is one of them.
pub fn spelling(rec: &Rec) -> Option<Spelled<'_>>
    ensures spelling { result ≡ buffers_spelling rec.now }
    ensures back { IfSome result (ReadsBack rec.now) }
{
    match rec {
        Rec::IsBuffer { name } => Some(Spelled::new(rec, 0x08, &[*name])),
        Rec::GenBuffers { count } => Some(Spelled::new(rec, 0x20, &[signed_word(count)])),
        Rec::DeleteBuffers { names } => Some(Spelled::listed(rec, 0x21, names.as_slice())),
        Rec::BindBuffer { target, name } => Some(Spelled::new(rec, 0x22, &[*target, *name])),
        Rec::BufferData {
            target,
            usage,
            size,
            ..
        } => Some(Spelled::new(rec, 0x23, &[*target, *usage, signed_word(size)])),
        Rec::BufferSubData {
            target,
            offset,
            size,
            ..
        } => Some(Spelled::new(
            rec,
            0x24,
            &[*target, signed_word(offset), signed_word(size)],
        )),
        _ => None,
    }
}
