//! Commands of clears: the values that they write, and the clears themselves.
ghost use Rattle.std.specs.Prelude.{◌≡◌, ◌≤◌, true, IfSome};
ghost use Rattle.trace_reader.specs.Clears.{clears_row, clears_spelling};
ghost use Rattle.trace_reader.specs.Lists.{brings_list};
ghost use Rattle.trace_reader.specs.Shape.{words_of, has_piece};
ghost use Rattle.trace_reader.specs.Spelling.{ReadsBack};
ghost use Rattle.trace_reader.specs.Command.{with_words};

use crate::shape::Shape;
use crate::spelled::Spelled;
use crate::words::{Words, fixed, fixed_word, signed, signed_word};
use gl_records::Rec;

/// The row of an opcode, as `row` of the whole table answers it.
pub fn row(opcode: u16, n: &Words) -> Option<(Shape, Rec)>
    ensures row { result ≡ with_words n.now (clears_row opcode) }
    ensures short { IfSome result (λ found. words_of found.0 ≤ 16) }
    ensures listed { IfSome result (λ found. brings_list found.1 ≡ true → has_piece found.0 ≡ true) }
{
    match opcode {
        0x62 => Some((
            Shape::Exactly(4),
            Rec::ClearColorx {
                red: fixed(n[0]),
                green: fixed(n[1]),
                blue: fixed(n[2]),
                alpha: fixed(n[3]),
            },
        )),
        0x63 => Some((Shape::Exactly(1), Rec::ClearDepthx { depth: fixed(n[0]) })),
        0x64 => Some((
            Shape::Exactly(1),
            Rec::ClearStencil {
                stencil: signed(n[0]),
            },
        )),
        0x65 => Some((Shape::Exactly(1), Rec::Clear { mask: n[0] })),
        _ => None,
    }
}

/// The record as these commands are written, where it is one of them.
pub fn spelling(rec: &Rec) -> Option<Spelled<'_>>
    ensures spelling { result ≡ clears_spelling rec.now }
    ensures back { IfSome result (ReadsBack rec.now) }
{
    match rec {
        Rec::ClearColorx {
            red,
            green,
            blue,
            alpha,
        } => Some(Spelled::new(
            rec,
            0x62,
            &[
                fixed_word(red),
                fixed_word(green),
                fixed_word(blue),
                fixed_word(alpha),
            ],
        )),
        Rec::ClearDepthx { depth } => Some(Spelled::new(rec, 0x63, &[fixed_word(depth)])),
        Rec::ClearStencil { stencil } => Some(Spelled::new(rec, 0x64, &[signed_word(stencil)])),
        Rec::Clear { mask } => Some(Spelled::new(rec, 0x65, &[*mask])),
        _ => None,
    }
}
