//! Commands of the matrix stacks.
ghost use Rattle.std.specs.Prelude.{◌≡◌, ◌≤◌, true, IfSome};
ghost use Rattle.trace_reader.specs.Matrices.{matrices_row, matrices_spelling};
ghost use Rattle.trace_reader.specs.Lists.{brings_list};
ghost use Rattle.trace_reader.specs.Shape.{words_of, has_piece};
ghost use Rattle.trace_reader.specs.Spelling.{ReadsBack};
ghost use Rattle.trace_reader.specs.Command.{with_words};

use crate::shape::Shape;
use crate::spelled::Spelled;
use crate::words::{Words, columns, fixed, fixed_word};
use gl_records::Rec;

/// The row of an opcode, as `row` of the whole table answers it.
pub fn row(opcode: u16, n: &Words) -> Option<(Shape, Rec)>
    ensures row { result ≡ with_words n.now (matrices_row opcode) }
    ensures short { IfSome result (λ found. words_of found.0 ≤ 16) }
    ensures listed { IfSome result (λ found. brings_list found.1 ≡ true → has_piece found.0 ≡ true) }
{
    match opcode {
        0x28 => Some((Shape::Exactly(1), Rec::MatrixMode { mode: n[0] })),
        0x29 => Some((Shape::Exactly(0), Rec::LoadIdentity)),
        0x2A => Some((
            Shape::Exactly(16),
            Rec::LoadMatrixx {
                columns: columns(n),
            },
        )),
        0x2B => Some((
            Shape::Exactly(16),
            Rec::MultMatrixx {
                columns: columns(n),
            },
        )),
        0x2C => Some((Shape::Exactly(0), Rec::PushMatrix)),
        0x2D => Some((Shape::Exactly(0), Rec::PopMatrix)),
        0x2E => Some((
            Shape::Exactly(4),
            Rec::Rotatex {
                angle: fixed(n[0]),
                x: fixed(n[1]),
                y: fixed(n[2]),
                z: fixed(n[3]),
            },
        )),
        0x2F => Some((
            Shape::Exactly(3),
            Rec::Scalex {
                x: fixed(n[0]),
                y: fixed(n[1]),
                z: fixed(n[2]),
            },
        )),
        0x30 => Some((
            Shape::Exactly(3),
            Rec::Translatex {
                x: fixed(n[0]),
                y: fixed(n[1]),
                z: fixed(n[2]),
            },
        )),
        0x31 => Some((
            Shape::Exactly(6),
            Rec::Frustumx {
                left: fixed(n[0]),
                right: fixed(n[1]),
                bottom: fixed(n[2]),
                top: fixed(n[3]),
                near: fixed(n[4]),
                far: fixed(n[5]),
            },
        )),
        0x32 => Some((
            Shape::Exactly(6),
            Rec::Orthox {
                left: fixed(n[0]),
                right: fixed(n[1]),
                bottom: fixed(n[2]),
                top: fixed(n[3]),
                near: fixed(n[4]),
                far: fixed(n[5]),
            },
        )),
        _ => None,
    }
}

/// The record as these commands are written, where it is one of them.
pub fn spelling(rec: &Rec) -> Option<Spelled<'_>>
    ensures spelling { result ≡ matrices_spelling rec.now }
    ensures back { IfSome result (ReadsBack rec.now) }
{
    match rec {
        Rec::MatrixMode { mode } => Some(Spelled::new(rec, 0x28, &[*mode])),
        Rec::LoadIdentity => Some(Spelled::new(rec, 0x29, &[])),
        Rec::LoadMatrixx { columns } => Some(Spelled::new(
            rec,
            0x2A,
            &[
                fixed_word(&columns.0.0),
                fixed_word(&columns.0.1),
                fixed_word(&columns.0.2),
                fixed_word(&columns.0.3),
                fixed_word(&columns.1.0),
                fixed_word(&columns.1.1),
                fixed_word(&columns.1.2),
                fixed_word(&columns.1.3),
                fixed_word(&columns.2.0),
                fixed_word(&columns.2.1),
                fixed_word(&columns.2.2),
                fixed_word(&columns.2.3),
                fixed_word(&columns.3.0),
                fixed_word(&columns.3.1),
                fixed_word(&columns.3.2),
                fixed_word(&columns.3.3),
            ],
        )),
        Rec::MultMatrixx { columns } => Some(Spelled::new(
            rec,
            0x2B,
            &[
                fixed_word(&columns.0.0),
                fixed_word(&columns.0.1),
                fixed_word(&columns.0.2),
                fixed_word(&columns.0.3),
                fixed_word(&columns.1.0),
                fixed_word(&columns.1.1),
                fixed_word(&columns.1.2),
                fixed_word(&columns.1.3),
                fixed_word(&columns.2.0),
                fixed_word(&columns.2.1),
                fixed_word(&columns.2.2),
                fixed_word(&columns.2.3),
                fixed_word(&columns.3.0),
                fixed_word(&columns.3.1),
                fixed_word(&columns.3.2),
                fixed_word(&columns.3.3),
            ],
        )),
        Rec::PushMatrix => Some(Spelled::new(rec, 0x2C, &[])),
        Rec::PopMatrix => Some(Spelled::new(rec, 0x2D, &[])),
        Rec::Rotatex { angle, x, y, z } => Some(Spelled::new(
            rec,
            0x2E,
            &[
                fixed_word(angle),
                fixed_word(x),
                fixed_word(y),
                fixed_word(z),
            ],
        )),
        Rec::Scalex { x, y, z } => Some(Spelled::new(
            rec,
            0x2F,
            &[fixed_word(x), fixed_word(y), fixed_word(z)],
        )),
        Rec::Translatex { x, y, z } => Some(Spelled::new(
            rec,
            0x30,
            &[fixed_word(x), fixed_word(y), fixed_word(z)],
        )),
        Rec::Frustumx {
            left,
            right,
            bottom,
            top,
            near,
            far,
        } => Some(Spelled::new(
            rec,
            0x31,
            &[
                fixed_word(left),
                fixed_word(right),
                fixed_word(bottom),
                fixed_word(top),
                fixed_word(near),
                fixed_word(far),
            ],
        )),
        Rec::Orthox {
            left,
            right,
            bottom,
            top,
            near,
            far,
        } => Some(Spelled::new(
            rec,
            0x32,
            &[
                fixed_word(left),
                fixed_word(right),
                fixed_word(bottom),
                fixed_word(top),
                fixed_word(near),
                fixed_word(far),
            ],
        )),
        _ => None,
    }
}
