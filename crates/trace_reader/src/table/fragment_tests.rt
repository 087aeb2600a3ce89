//! Commands of the tests that a fragment has to pass.
ghost use Rattle.std.specs.Prelude.{◌≡◌, ◌≤◌, true, IfSome};
ghost use Rattle.trace_reader.specs.FragmentTests.{fragment_tests_row, fragment_tests_spelling};
ghost use Rattle.trace_reader.specs.Lists.{brings_list};
ghost use Rattle.trace_reader.specs.Shape.{words_of, has_piece};
ghost use Rattle.trace_reader.specs.Spelling.{ReadsBack};
ghost use Rattle.trace_reader.specs.Command.{with_words};

use crate::shape::Shape;
use crate::spelled::Spelled;
use crate::words::{Words, fixed, fixed_word, signed, signed_word, truth, truth_word};
use gl_records::Rec;

/// The row of an opcode, as `row` of the whole table answers it.
pub fn row(opcode: u16, n: &Words) -> Option<(Shape, Rec)>
    ensures row { result ≡ with_words n.now (fragment_tests_row opcode) }
    ensures short { IfSome result (λ found. words_of found.0 ≤ 16) }
    ensures listed { IfSome result (λ found. brings_list found.1 ≡ true → has_piece found.0 ≡ true) }
{
    match opcode {
        0x58 => Some((
            Shape::Exactly(2),
            Rec::AlphaFuncx {
                comparison: n[0],
                reference: fixed(n[1]),
            },
        )),
        0x59 => Some((
            Shape::Exactly(3),
            Rec::StencilFunc {
                comparison: n[0],
                reference: signed(n[1]),
                mask: n[2],
            },
        )),
        0x5A => Some((
            Shape::Exactly(3),
            Rec::StencilOp {
                stencil_fail: n[0],
                depth_fail: n[1],
                depth_pass: n[2],
            },
        )),
        0x5B => Some((Shape::Exactly(1), Rec::StencilMask { mask: n[0] })),
        0x5C => Some((Shape::Exactly(1), Rec::DepthFunc { comparison: n[0] })),
        0x5D => Some((Shape::Exactly(1), Rec::DepthMask { write: truth(n[0]) })),
        0x61 => Some((
            Shape::Exactly(4),
            Rec::Scissor {
                x: signed(n[0]),
                y: signed(n[1]),
                width: signed(n[2]),
                height: signed(n[3]),
            },
        )),
        _ => None,
    }
}

/// The record as these commands are written, where it is one of them.
pub fn spelling(rec: &Rec) -> Option<Spelled<'_>>
    ensures spelling { result ≡ fragment_tests_spelling rec.now }
    ensures back { IfSome result (ReadsBack rec.now) }
{
    match rec {
        Rec::AlphaFuncx {
            comparison,
            reference,
        } => Some(Spelled::new(rec, 0x58, &[*comparison, fixed_word(reference)])),
        Rec::StencilFunc {
            comparison,
            reference,
            mask,
        } => Some(Spelled::new(rec, 0x59, &[*comparison, signed_word(reference), *mask])),
        Rec::StencilOp {
            stencil_fail,
            depth_fail,
            depth_pass,
        } => Some(Spelled::new(rec, 0x5A, &[*stencil_fail, *depth_fail, *depth_pass])),
        Rec::StencilMask { mask } => Some(Spelled::new(rec, 0x5B, &[*mask])),
        Rec::DepthFunc { comparison } => Some(Spelled::new(rec, 0x5C, &[*comparison])),
        Rec::DepthMask { write } => Some(Spelled::new(rec, 0x5D, &[truth_word(write)])),
        Rec::Scissor {
            x,
            y,
            width,
            height,
        } => Some(Spelled::new(
            rec,
            0x61,
            &[
                signed_word(x),
                signed_word(y),
                signed_word(width),
                signed_word(height),
            ],
        )),
        _ => None,
    }
}
