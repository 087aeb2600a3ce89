//! Commands of what later vertices take where no array gives it.
ghost use Rattle.std.specs.Prelude.{◌≡◌, ◌≤◌, true, IfSome};
ghost use Rattle.trace_reader.specs.Current.{current_row, current_spelling};
ghost use Rattle.trace_reader.specs.Lists.{brings_list};
ghost use Rattle.trace_reader.specs.Shape.{words_of, has_piece};
ghost use Rattle.trace_reader.specs.Spelling.{ReadsBack};
ghost use Rattle.trace_reader.specs.Command.{with_words};

use crate::shape::Shape;
use crate::spelled::Spelled;
use crate::words::{Words, byte, bytes_word, fixed, fixed_word};
use gl_records::Rec;

/// The row of an opcode, as `row` of the whole table answers it.
pub fn row(opcode: u16, n: &Words) -> Option<(Shape, Rec)>
    ensures row { result ≡ with_words n.now (current_row opcode) }
    ensures short { IfSome result (λ found. words_of found.0 ≤ 16) }
    ensures listed { IfSome result (λ found. brings_list found.1 ≡ true → has_piece found.0 ≡ true) }
{
    match opcode {
        0x18 => Some((Shape::Exactly(1), Rec::ActiveTexture { texture: n[0] })),
        0x19 => Some((
            Shape::Exactly(4),
            Rec::Color4x {
                red: fixed(n[0]),
                green: fixed(n[1]),
                blue: fixed(n[2]),
                alpha: fixed(n[3]),
            },
        )),
        0x1A => Some((
            Shape::Exactly(1),
            Rec::Color4ub {
                red: byte(n[0], 0),
                green: byte(n[0], 1),
                blue: byte(n[0], 2),
                alpha: byte(n[0], 3),
            },
        )),
        0x1B => Some((
            Shape::Exactly(3),
            Rec::Normal3x {
                x: fixed(n[0]),
                y: fixed(n[1]),
                z: fixed(n[2]),
            },
        )),
        0x1C => Some((
            Shape::Exactly(5),
            Rec::MultiTexCoord4x {
                texture: n[0],
                s: fixed(n[1]),
                t: fixed(n[2]),
                r: fixed(n[3]),
                q: fixed(n[4]),
            },
        )),
        _ => None,
    }
}

/// The record as these commands are written, where it is one of them.
pub fn spelling(rec: &Rec) -> Option<Spelled<'_>>
    ensures spelling { result ≡ current_spelling rec.now }
    ensures back { IfSome result (ReadsBack rec.now) }
{
    match rec {
        Rec::ActiveTexture { texture } => Some(Spelled::new(rec, 0x18, &[*texture])),
        Rec::Color4x {
            red,
            green,
            blue,
            alpha,
        } => Some(Spelled::new(
            rec,
            0x19,
            &[
                fixed_word(red),
                fixed_word(green),
                fixed_word(blue),
                fixed_word(alpha),
            ],
        )),
        Rec::Color4ub {
            red,
            green,
            blue,
            alpha,
        } => Some(Spelled::new(rec, 0x1A, &[bytes_word(red, green, blue, alpha)])),
        Rec::Normal3x { x, y, z } => Some(Spelled::new(
            rec,
            0x1B,
            &[fixed_word(x), fixed_word(y), fixed_word(z)],
        )),
        Rec::MultiTexCoord4x {
            texture,
            s,
            t,
            r,
            q,
        } => Some(Spelled::new(
            rec,
            0x1C,
            &[
                *texture,
                fixed_word(s),
                fixed_word(t),
                fixed_word(r),
                fixed_word(q),
            ],
        )),
        _ => None,
    }
}
