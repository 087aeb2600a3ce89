//! Commands of the whole trace: its end, presenting the surface, the error flag, and queries.
ghost use Rattle.std.specs.Prelude.{◌≡◌, ◌≤◌, true, IfSome};
ghost use Rattle.trace_reader.specs.Control.{control_row, control_spelling};
ghost use Rattle.trace_reader.specs.Lists.{brings_list};
ghost use Rattle.trace_reader.specs.Shape.{words_of, has_piece};
ghost use Rattle.trace_reader.specs.Spelling.{ReadsBack};
ghost use Rattle.trace_reader.specs.Command.{with_words};

use crate::shape::Shape;
use crate::spelled::Spelled;
use crate::words::Words;
use gl_records::Rec;

/// The row of an opcode, as `row` of the whole table answers it.
pub fn row(opcode: u16, n: &Words) -> Option<(Shape, Rec)>
    ensures row { result ≡ with_words n.now (control_row opcode) }
    ensures short { IfSome result (λ found. words_of found.0 ≤ 16) }
    ensures listed { IfSome result (λ found. brings_list found.1 ≡ true → has_piece found.0 ≡ true) }
{
    match opcode {
        0x01 => Some((Shape::Exactly(0), Rec::End)),
        0x02 => Some((Shape::Exactly(0), Rec::Swap)),
        0x04 => Some((Shape::Exactly(0), Rec::Flush)),
        0x05 => Some((Shape::Exactly(0), Rec::GetError)),
        0x06 => Some((Shape::Exactly(1), Rec::Get { query: n[0] })),
        0x07 => Some((Shape::Exactly(1), Rec::IsEnabled { capability: n[0] })),
        _ => None,
    }
}

/// The record as these commands are written, where it is one of them.
pub fn spelling(rec: &Rec) -> Option<Spelled<'_>>
    ensures spelling { result ≡ control_spelling rec.now }
    ensures back { IfSome result (ReadsBack rec.now) }
{
    match rec {
        Rec::End => Some(Spelled::new(rec, 0x01, &[])),
        Rec::Swap => Some(Spelled::new(rec, 0x02, &[])),
        Rec::Flush => Some(Spelled::new(rec, 0x04, &[])),
        Rec::GetError => Some(Spelled::new(rec, 0x05, &[])),
        Rec::Get { query } => Some(Spelled::new(rec, 0x06, &[*query])),
        Rec::IsEnabled { capability } => Some(Spelled::new(rec, 0x07, &[*capability])),
        _ => None,
    }
}
