//! A primitive on one tile.
ghost use Rattle.std.specs.Prelude.{◌≡◌, ℕ, ◌<◌, ◌≤◌, slice_index, if◌then◌else◌};
ghost use Rattle.std.specs.Int.{bit_at};
ghost use Rattle.texture_env.specs.Lines.{AreLinesOf};
ghost use Rattle.texture_env.specs.Shaders.{primitive_on};
ghost use Rattle.whole_surface.specs.Parts.{IsSpan};
ghost use Rattle.whole_surface.specs.Stages.{AreTestsOf};
ghost use Rattle.whole_surface.specs.Subjects.{shown_on, step_on};
ghost use Rattle.whole_surface.specs.declared.stages.Tests.TheVariants as tests;

use crate::all_stages::AllStages;
use crate::depth_source::OneDepth;
use crate::drawing::{Colors, Drawing};
use crate::open::{Blending, Copying, Nearer};
use crate::painter::Painter;
use crate::painting::paint_rows;
use crate::rows::{is_blank, shown_rows};
use crate::source::{OneColor, Source};
use crate::stages::{Finish, Tests};
use gl_records::{GREATEST_SIDE, TileRect};
use surface_tiles::Tile;
use texture_env::Lines;

/// Draws the primitive on the tile with this lower left pixel. Where it shows no pixel there nothing is prepared.
pub fn draw_on_tile(drawing: &Drawing<'_>, rect: TileRect, lines: &mut Lines, tile: &mut Tile)
    requires column { rect.x0 ≤ GREATEST_SIDE }
    requires band { rect.y0 ≤ GREATEST_SIDE }
    ensures { IsSpan (step_on (record { subject = drawing.now; rect = rect })) 0 256 tile.old tile.new }
{
    let rows = shown_rows(drawing.prim, drawing.state, rect);
    if is_blank(&rows) {
        return;
    }
    lines.forget();
    let painter = Painter::new(drawing, rect);
    match &drawing.colors {
        Colors::One(color) => {
            let source = OneColor::new(drawing, rect, *color);
            paint_shown(&painter, &source, &rows, lines, tile)
        }
        Colors::Shaded(shader) => {
            let source = shader.on_tile(rect);
            paint_shown(&painter, &source, &rows, lines, tile)
        }
    }
}

/// The same of the pixels whose bits are set, by a brush for the tests and the colours.
fn paint_shown<S: Source>(
    painter: &Painter<'_>,
    source: &S,
    rows: &[u16; 16],
    lines: &mut Lines,
    tile: &mut Tile,
)
    requires bits { (r i : ℕ) → r < 16 → i < 16
        → bit_at (slice_index rows.now r) i ≡ (if shown_on painter.now i r then 1 else 0) }
    requires source { S.on source.now ≡ painter.now }
    requires lines { AreLinesOf (primitive_on painter.now) lines.old }
    ensures { IsSpan (step_on painter.now) 0 256 tile.old tile.new }
{
    let drawing = painter.drawing;
    match (drawing.tests, drawing.finish) {
        (Tests::None, Finish::Copied) => paint_rows(
            &Copying::new(painter),
            source,
            rows,
            lines,
            tile,
        ),
        (Tests::None, _) => paint_rows(&Blending::new(painter), source, rows, lines, tile),
        (Tests::Nearer { equal, write }, _) => {
            paint_nearer(painter, source, equal, write, rows, lines, tile)
        }
        (Tests::Any, _) => paint_rows(&AllStages::new(painter), source, rows, lines, tile),
    }
}

/// The same under the depth test alone, with one depth or with one for each pixel.
fn paint_nearer<S: Source>(
    painter: &Painter<'_>,
    source: &S,
    equal: bool,
    write: bool,
    rows: &[u16; 16],
    lines: &mut Lines,
    tile: &mut Tile,
)
    requires tests { AreTestsOf (tests.Nearer equal write) painter.now.subject.state }
    requires bits { (r i : ℕ) → r < 16 → i < 16
        → bit_at (slice_index rows.now r) i ≡ (if shown_on painter.now i r then 1 else 0) }
    requires source { S.on source.now ≡ painter.now }
    requires lines { AreLinesOf (primitive_on painter.now) lines.old }
    ensures { IsSpan (step_on painter.now) 0 256 tile.old tile.new }
{
    let depths = painter.depths();
    match depths.level() {
        Some(z) => {
            let one = OneDepth::new(&depths, z);
            paint_rows(
                &Nearer::new(painter, one, equal, write),
                source,
                rows,
                lines,
                tile,
            )
        }
        None => paint_rows(
            &Nearer::new(painter, depths, equal, write),
            source,
            rows,
            lines,
            tile,
        ),
    }
}
