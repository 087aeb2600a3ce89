//! Commands of what a fragment makes of the colour that is there.
ghost use Rattle.std.specs.Prelude.{◌≡◌, ◌≤◌, true, IfSome};
ghost use Rattle.trace_reader.specs.Blending.{blending_row, blending_spelling};
ghost use Rattle.trace_reader.specs.Lists.{brings_list};
ghost use Rattle.trace_reader.specs.Shape.{words_of, has_piece};
ghost use Rattle.trace_reader.specs.Spelling.{ReadsBack};
ghost use Rattle.trace_reader.specs.Command.{with_words};

use crate::shape::Shape;
use crate::spelled::Spelled;
use crate::words::{Words, truth, truth_word};
use gl_records::Rec;

/// The row of an opcode, as `row` of the whole table answers it.
pub fn row(opcode: u16, n: &Words) -> Option<(Shape, Rec)>
    ensures row { result ≡ with_words n.now (blending_row opcode) }
    ensures short { IfSome result (λ found. words_of found.0 ≤ 16) }
    ensures listed { IfSome result (λ found. brings_list found.1 ≡ true → has_piece found.0 ≡ true) }
{
    match opcode {
        0x5E => Some((
            Shape::Exactly(2),
            Rec::BlendFunc {
                source: n[0],
                destination: n[1],
            },
        )),
        0x5F => Some((Shape::Exactly(1), Rec::LogicOp { operation: n[0] })),
        0x60 => Some((
            Shape::Exactly(4),
            Rec::ColorMask {
                red: truth(n[0]),
                green: truth(n[1]),
                blue: truth(n[2]),
                alpha: truth(n[3]),
            },
        )),
        _ => None,
    }
}

/// The record as these commands are written, where it is one of them.
pub fn spelling(rec: &Rec) -> Option<Spelled<'_>>
    ensures spelling { result ≡ blending_spelling rec.now }
    ensures back { IfSome result (ReadsBack rec.now) }
{
    match rec {
        Rec::BlendFunc {
            source,
            destination,
        } => Some(Spelled::new(rec, 0x5E, &[*source, *destination])),
        Rec::LogicOp { operation } => Some(Spelled::new(rec, 0x5F, &[*operation])),
        Rec::ColorMask {
            red,
            green,
            blue,
            alpha,
        } => Some(Spelled::new(
            rec,
            0x60,
            &[
                truth_word(red),
                truth_word(green),
                truth_word(blue),
                truth_word(alpha),
            ],
        )),
        _ => None,
    }
}
