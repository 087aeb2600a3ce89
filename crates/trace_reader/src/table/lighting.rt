//! Commands of fog, of lights, of the lighting model and of the material.
ghost use Rattle.std.specs.Prelude.{◌≡◌, ◌≤◌, true, IfSome};
ghost use Rattle.trace_reader.specs.Lighting.{lighting_row, lighting_spelling};
ghost use Rattle.trace_reader.specs.Lists.{brings_list};
ghost use Rattle.trace_reader.specs.Shape.{words_of, has_piece};
ghost use Rattle.trace_reader.specs.Spelling.{ReadsBack};
ghost use Rattle.trace_reader.specs.Command.{with_words};

use crate::shape::Shape;
use crate::spelled::Spelled;
use crate::words::{Words, fixed_word, params};
use gl_records::Rec;

/// The row of an opcode, as `row` of the whole table answers it.
pub fn row(opcode: u16, n: &Words) -> Option<(Shape, Rec)>
    ensures row { result ≡ with_words n.now (lighting_row opcode) }
    ensures short { IfSome result (λ found. words_of found.0 ≤ 16) }
    ensures listed { IfSome result (λ found. brings_list found.1 ≡ true → has_piece found.0 ≡ true) }
{
    match opcode {
        0x50 => Some((
            Shape::Exactly(5),
            Rec::Fogx {
                parameter: n[0],
                values: params(n, 1),
            },
        )),
        0x52 => Some((
            Shape::Exactly(6),
            Rec::Lightx {
                light: n[0],
                parameter: n[1],
                values: params(n, 2),
            },
        )),
        0x53 => Some((
            Shape::Exactly(5),
            Rec::LightModelx {
                parameter: n[0],
                values: params(n, 1),
            },
        )),
        0x54 => Some((
            Shape::Exactly(6),
            Rec::Materialx {
                face: n[0],
                parameter: n[1],
                values: params(n, 2),
            },
        )),
        _ => None,
    }
}

/// The record as these commands are written, where it is one of them.
pub fn spelling(rec: &Rec) -> Option<Spelled<'_>>
    ensures spelling { result ≡ lighting_spelling rec.now }
    ensures back { IfSome result (ReadsBack rec.now) }
{
    match rec {
        Rec::Fogx { parameter, values } => Some(Spelled::new(
            rec,
            0x50,
            &[
                *parameter,
                fixed_word(&values.0),
                fixed_word(&values.1),
                fixed_word(&values.2),
                fixed_word(&values.3),
            ],
        )),
        Rec::Lightx {
            light,
            parameter,
            values,
        } => Some(Spelled::new(
            rec,
            0x52,
            &[
                *light,
                *parameter,
                fixed_word(&values.0),
                fixed_word(&values.1),
                fixed_word(&values.2),
                fixed_word(&values.3),
            ],
        )),
        Rec::LightModelx { parameter, values } => Some(Spelled::new(
            rec,
            0x53,
            &[
                *parameter,
                fixed_word(&values.0),
                fixed_word(&values.1),
                fixed_word(&values.2),
                fixed_word(&values.3),
            ],
        )),
        Rec::Materialx {
            face,
            parameter,
            values,
        } => Some(Spelled::new(
            rec,
            0x54,
            &[
                *face,
                *parameter,
                fixed_word(&values.0),
                fixed_word(&values.1),
                fixed_word(&values.2),
                fixed_word(&values.3),
            ],
        )),
        _ => None,
    }
}
