//! Commands of texture objects and of their images.
ghost use Rattle.std.specs.Prelude.{◌≡◌, ◌≤◌, true, IfSome};
ghost use Rattle.trace_reader.specs.Command.{with_words};
ghost use Rattle.trace_reader.specs.Lists.{brings_list};
ghost use Rattle.trace_reader.specs.Shape.{words_of, has_piece};
ghost use Rattle.trace_reader.specs.Spelling.{ReadsBack};
ghost use Rattle.trace_reader.specs.Textures.{textures_row, textures_spelling};

use crate::shape::Shape;
use crate::spelled::Spelled;
use crate::words::{Words, signed, signed_word};
use gl_records::{Bytes, Rec, Words as Names};
use std::alloc::Global;

/// The row of an opcode, as `row` of the whole table answers it.
pub fn row(alloc: Global, opcode: u16, n: &Words) -> Option<(Shape, Rec)>
    ensures row { result ≡ with_words n.now (textures_row opcode) }
    ensures short { IfSome result (λ found. words_of found.0 ≤ 16) }
    ensures listed { IfSome result (λ found. brings_list found.1 ≡ true → has_piece found.0 ≡ true) }
{
    match opcode {
        0x09 => Some((Shape::Exactly(1), Rec::IsTexture { name: n[0] })),
        0x70 => Some((
            Shape::Exactly(1),
            Rec::GenTextures {
                count: signed(n[0]),
            },
        )),
        0x71 => Some((
            Shape::Words,
            Rec::DeleteTextures {
                names: Names::new(Vec::new(alloc)),
            },
        )),
        0x72 => Some((
            Shape::Exactly(2),
            Rec::BindTexture {
                target: n[0],
                name: n[1],
            },
        )),
        0x73 => Some((
            Shape::Exactly(3),
            Rec::TexParameterx {
                target: n[0],
                parameter: n[1],
                value: n[2],
            },
        )),
        0x74 => Some((
            Shape::AtLeast(8),
            Rec::TexImage2D {
                target: n[0],
                level: signed(n[1]),
                internal: n[2],
                width: signed(n[3]),
                height: signed(n[4]),
                border: signed(n[5]),
                format: n[6],
                kind: n[7],
                piece: Bytes::new(Vec::new(alloc)),
            },
        )),
        0x75 => Some((
            Shape::AtLeast(8),
            Rec::TexSubImage2D {
                target: n[0],
                level: signed(n[1]),
                x: signed(n[2]),
                y: signed(n[3]),
                width: signed(n[4]),
                height: signed(n[5]),
                format: n[6],
                kind: n[7],
                piece: Bytes::new(Vec::new(alloc)),
            },
        )),
        0x76 => Some((
            Shape::AtLeast(7),
            Rec::CompressedTexImage2D {
                target: n[0],
                level: signed(n[1]),
                internal: n[2],
                width: signed(n[3]),
                height: signed(n[4]),
                border: signed(n[5]),
                size: signed(n[6]),
                piece: Bytes::new(Vec::new(alloc)),
            },
        )),
        _ => None,
    }
}

/// The record as these commands are written, where it is one of them.
pub fn spelling(rec: &Rec) -> Option<Spelled<'_>>
    ensures spelling { result ≡ textures_spelling rec.now }
    ensures back { IfSome result (ReadsBack rec.now) }
{
    match rec {
        Rec::IsTexture { name } => Some(Spelled::new(rec, 0x09, &[*name])),
        Rec::GenTextures { count } => Some(Spelled::new(rec, 0x70, &[signed_word(count)])),
        Rec::DeleteTextures { names } => Some(Spelled::listed(rec, 0x71, names.as_slice())),
        Rec::BindTexture { target, name } => Some(Spelled::new(rec, 0x72, &[*target, *name])),
        Rec::TexParameterx {
            target,
            parameter,
            value,
        } => Some(Spelled::new(rec, 0x73, &[*target, *parameter, *value])),
        Rec::TexImage2D {
            target,
            level,
            internal,
            width,
            height,
            border,
            format,
            kind,
            ..
        } => Some(Spelled::new(
            rec,
            0x74,
            &[
                *target,
                signed_word(level),
                *internal,
                signed_word(width),
                signed_word(height),
                signed_word(border),
                *format,
                *kind,
            ],
        )),
        Rec::TexSubImage2D {
            target,
            level,
            x,
            y,
            width,
            height,
            format,
            kind,
            ..
        } => Some(Spelled::new(
            rec,
            0x75,
            &[
                *target,
                signed_word(level),
                signed_word(x),
                signed_word(y),
                signed_word(width),
                signed_word(height),
                *format,
                *kind,
            ],
        )),
        Rec::CompressedTexImage2D {
            target,
            level,
            internal,
            width,
            height,
            border,
            size,
            ..
        } => Some(Spelled::new(
            rec,
            0x76,
            &[
                *target,
                signed_word(level),
                *internal,
                signed_word(width),
                signed_word(height),
                signed_word(border),
                signed_word(size),
            ],
        )),
        _ => None,
    }
}
