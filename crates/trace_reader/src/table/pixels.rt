//! Commands of how rows of pixels lie in memory.
ghost use Rattle.std.specs.Prelude.{◌≡◌, ◌≤◌, true, IfSome};
ghost use Rattle.trace_reader.specs.Pixels.{pixels_row, pixels_spelling};
ghost use Rattle.trace_reader.specs.Lists.{brings_list};
ghost use Rattle.trace_reader.specs.Shape.{words_of, has_piece};
ghost use Rattle.trace_reader.specs.Spelling.{ReadsBack};
ghost use Rattle.trace_reader.specs.Command.{with_words};

use crate::shape::Shape;
use crate::spelled::Spelled;
use crate::words::{Words, signed, signed_word};
use gl_records::Rec;

/// The row of an opcode, as `row` of the whole table answers it.
pub fn row(opcode: u16, n: &Words) -> Option<(Shape, Rec)>
    ensures row { result ≡ with_words n.now (pixels_row opcode) }
    ensures short { IfSome result (λ found. words_of found.0 ≤ 16) }
    ensures listed { IfSome result (λ found. brings_list found.1 ≡ true → has_piece found.0 ≡ true) }
{
    match opcode {
        0x7B => Some((
            Shape::Exactly(2),
            Rec::PixelStorei {
                parameter: n[0],
                value: signed(n[1]),
            },
        )),
        _ => None,
    }
}

/// The record as these commands are written, where it is one of them.
pub fn spelling(rec: &Rec) -> Option<Spelled<'_>>
    ensures spelling { result ≡ pixels_spelling rec.now }
    ensures back { IfSome result (ReadsBack rec.now) }
{
    match rec {
        Rec::PixelStorei { parameter, value } => Some(Spelled::new(
            rec,
            0x7B,
            &[*parameter, signed_word(value)],
        )),
        _ => None,
    }
}
