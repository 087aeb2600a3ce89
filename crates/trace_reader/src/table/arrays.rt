//! Commands of arrays: client regions, the arrays that lie in them, and draws.
ghost use Rattle.std.specs.Prelude.{◌≡◌, ◌≤◌, true, IfSome};
ghost use Rattle.trace_reader.specs.Arrays.{arrays_row, arrays_spelling};
ghost use Rattle.trace_reader.specs.Lists.{brings_list};
ghost use Rattle.trace_reader.specs.Shape.{words_of, has_piece};
ghost use Rattle.trace_reader.specs.Spelling.{ReadsBack};
ghost use Rattle.trace_reader.specs.Command.{with_words};

use crate::shape::Shape;
use crate::spelled::Spelled;
use crate::words::{Words, signed, signed_word};
use gl_records::{Bytes, Rec};
use std::alloc::Global;

/// The row of an opcode, as `row` of the whole table answers it.
pub fn row(alloc: Global, opcode: u16, n: &Words) -> Option<(Shape, Rec)>
    ensures row { result ≡ with_words n.now (arrays_row opcode) }
    ensures short { IfSome result (λ found. words_of found.0 ≤ 16) }
    ensures listed { IfSome result (λ found. brings_list found.1 ≡ true → has_piece found.0 ≡ true) }
{
    match opcode {
        0x10 => Some((
            Shape::AtLeast(1),
            Rec::ClientBytes {
                region: n[0],
                piece: Bytes::new(Vec::new(alloc)),
            },
        )),
        0x11 => Some((
            Shape::Exactly(5),
            Rec::VertexPointer {
                size: signed(n[0]),
                kind: n[1],
                stride: signed(n[2]),
                region: n[3],
                offset: n[4],
            },
        )),
        0x12 => Some((
            Shape::Exactly(4),
            Rec::NormalPointer {
                kind: n[0],
                stride: signed(n[1]),
                region: n[2],
                offset: n[3],
            },
        )),
        0x13 => Some((
            Shape::Exactly(5),
            Rec::ColorPointer {
                size: signed(n[0]),
                kind: n[1],
                stride: signed(n[2]),
                region: n[3],
                offset: n[4],
            },
        )),
        0x14 => Some((
            Shape::Exactly(5),
            Rec::TexCoordPointer {
                size: signed(n[0]),
                kind: n[1],
                stride: signed(n[2]),
                region: n[3],
                offset: n[4],
            },
        )),
        0x15 => Some((Shape::Exactly(1), Rec::EnableClientState { array: n[0] })),
        0x16 => Some((Shape::Exactly(1), Rec::DisableClientState { array: n[0] })),
        0x17 => Some((
            Shape::Exactly(1),
            Rec::ClientActiveTexture { texture: n[0] },
        )),
        0x1D => Some((
            Shape::Exactly(3),
            Rec::DrawArrays {
                mode: n[0],
                first: signed(n[1]),
                count: signed(n[2]),
            },
        )),
        0x1E => Some((
            Shape::Exactly(5),
            Rec::DrawElements {
                mode: n[0],
                count: signed(n[1]),
                kind: n[2],
                region: n[3],
                offset: n[4],
            },
        )),
        _ => None,
    }
}

/// The record as these commands are written, where it is one of them.
pub fn spelling(rec: &Rec) -> Option<Spelled<'_>>
    ensures spelling { result ≡ arrays_spelling rec.now }
    ensures back { IfSome result (ReadsBack rec.now) }
{
    match rec {
        Rec::ClientBytes { region, .. } => Some(Spelled::new(rec, 0x10, &[*region])),
        Rec::VertexPointer {
            size,
            kind,
            stride,
            region,
            offset,
        } => Some(Spelled::new(
            rec,
            0x11,
            &[
                signed_word(size),
                *kind,
                signed_word(stride),
                *region,
                *offset,
            ],
        )),
        Rec::NormalPointer {
            kind,
            stride,
            region,
            offset,
        } => Some(Spelled::new(rec, 0x12, &[*kind, signed_word(stride), *region, *offset])),
        Rec::ColorPointer {
            size,
            kind,
            stride,
            region,
            offset,
        } => Some(Spelled::new(
            rec,
            0x13,
            &[
                signed_word(size),
                *kind,
                signed_word(stride),
                *region,
                *offset,
            ],
        )),
        Rec::TexCoordPointer {
            size,
            kind,
            stride,
            region,
            offset,
        } => Some(Spelled::new(
            rec,
            0x14,
            &[
                signed_word(size),
                *kind,
                signed_word(stride),
                *region,
                *offset,
            ],
        )),
        Rec::EnableClientState { array } => Some(Spelled::new(rec, 0x15, &[*array])),
        Rec::DisableClientState { array } => Some(Spelled::new(rec, 0x16, &[*array])),
        Rec::ClientActiveTexture { texture } => Some(Spelled::new(rec, 0x17, &[*texture])),
        Rec::DrawArrays { mode, first, count } => Some(Spelled::new(
            rec,
            0x1D,
            &[*mode, signed_word(first), signed_word(count)],
        )),
        Rec::DrawElements {
            mode,
            count,
            kind,
            region,
            offset,
        } => Some(Spelled::new(
            rec,
            0x1E,
            &[*mode, signed_word(count), *kind, *region, *offset],
        )),
        _ => None,
    }
}
