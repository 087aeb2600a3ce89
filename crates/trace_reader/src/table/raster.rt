//! Commands of the way from primitives to pixels: the window, culling, shading, sizes and hints.
ghost use Rattle.std.specs.Prelude.{◌≡◌, ◌≤◌, true, IfSome};
ghost use Rattle.trace_reader.specs.Raster.{raster_row, raster_spelling};
ghost use Rattle.trace_reader.specs.Lists.{brings_list};
ghost use Rattle.trace_reader.specs.Shape.{words_of, has_piece};
ghost use Rattle.trace_reader.specs.Spelling.{ReadsBack};
ghost use Rattle.trace_reader.specs.Command.{with_words};

use crate::shape::Shape;
use crate::spelled::Spelled;
use crate::words::{Words, fixed, fixed_word, params, signed, signed_word, truth, truth_word};
use gl_records::Rec;

/// The row of an opcode, as `row` of the whole table answers it.
pub fn row(opcode: u16, n: &Words) -> Option<(Shape, Rec)>
    ensures row { result ≡ with_words n.now (raster_row opcode) }
    ensures short { IfSome result (λ found. words_of found.0 ≤ 16) }
    ensures listed { IfSome result (λ found. brings_list found.1 ≡ true → has_piece found.0 ≡ true) }
{
    match opcode {
        0x38 => Some((
            Shape::Exactly(4),
            Rec::Viewport {
                x: signed(n[0]),
                y: signed(n[1]),
                width: signed(n[2]),
                height: signed(n[3]),
            },
        )),
        0x39 => Some((
            Shape::Exactly(2),
            Rec::DepthRangex {
                near: fixed(n[0]),
                far: fixed(n[1]),
            },
        )),
        0x3A => Some((Shape::Exactly(1), Rec::CullFace { face: n[0] })),
        0x3B => Some((Shape::Exactly(1), Rec::FrontFace { winding: n[0] })),
        0x3C => Some((Shape::Exactly(1), Rec::ShadeModel { model: n[0] })),
        0x3D => Some((Shape::Exactly(1), Rec::PointSizex { size: fixed(n[0]) })),
        0x3E => Some((Shape::Exactly(1), Rec::LineWidthx { width: fixed(n[0]) })),
        0x3F => Some((
            Shape::Exactly(2),
            Rec::PolygonOffsetx {
                factor: fixed(n[0]),
                units: fixed(n[1]),
            },
        )),
        0x40 => Some((
            Shape::Exactly(5),
            Rec::ClipPlanex {
                plane: n[0],
                equation: params(n, 1),
            },
        )),
        0x41 => Some((
            Shape::Exactly(2),
            Rec::Hint {
                target: n[0],
                mode: n[1],
            },
        )),
        0x42 => Some((
            Shape::Exactly(2),
            Rec::SampleCoveragex {
                value: fixed(n[0]),
                invert: truth(n[1]),
            },
        )),
        _ => None,
    }
}

/// The record as these commands are written, where it is one of them.
pub fn spelling(rec: &Rec) -> Option<Spelled<'_>>
    ensures spelling { result ≡ raster_spelling rec.now }
    ensures back { IfSome result (ReadsBack rec.now) }
{
    match rec {
        Rec::Viewport {
            x,
            y,
            width,
            height,
        } => Some(Spelled::new(
            rec,
            0x38,
            &[
                signed_word(x),
                signed_word(y),
                signed_word(width),
                signed_word(height),
            ],
        )),
        Rec::DepthRangex { near, far } => Some(Spelled::new(
            rec,
            0x39,
            &[fixed_word(near), fixed_word(far)],
        )),
        Rec::CullFace { face } => Some(Spelled::new(rec, 0x3A, &[*face])),
        Rec::FrontFace { winding } => Some(Spelled::new(rec, 0x3B, &[*winding])),
        Rec::ShadeModel { model } => Some(Spelled::new(rec, 0x3C, &[*model])),
        Rec::PointSizex { size } => Some(Spelled::new(rec, 0x3D, &[fixed_word(size)])),
        Rec::LineWidthx { width } => Some(Spelled::new(rec, 0x3E, &[fixed_word(width)])),
        Rec::PolygonOffsetx { factor, units } => Some(Spelled::new(
            rec,
            0x3F,
            &[fixed_word(factor), fixed_word(units)],
        )),
        Rec::ClipPlanex { plane, equation } => Some(Spelled::new(
            rec,
            0x40,
            &[
                *plane,
                fixed_word(&equation.0),
                fixed_word(&equation.1),
                fixed_word(&equation.2),
                fixed_word(&equation.3),
            ],
        )),
        Rec::Hint { target, mode } => Some(Spelled::new(rec, 0x41, &[*target, *mode])),
        Rec::SampleCoveragex { value, invert } => Some(Spelled::new(
            rec,
            0x42,
            &[fixed_word(value), truth_word(invert)],
        )),
        _ => None,
    }
}
