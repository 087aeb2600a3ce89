//! Whole pixels. Coordinates, levels and colours come from a script outside of the program, over fractions.
ghost use Rattle.std.specs.Prelude.{◌<◌, ℕ, IsTrue, slice_index};
ghost use Rattle.std.specs.Option.{option_copied};
ghost use Rattle.gl_records.specs.Shading.{IsReadable};
ghost use Rattle.gl_records.specs.Valid.{IsCornerInRange, IsInRange};
ghost use Rattle.texture_env.specs.Rows.{AreCovered};

use crate::environment_tests::{COLOR, CONSTANT, PREVIOUS, PRIMARY, TEXEL, UNIT, unit};
use crate::{Lines, Shader, TileShader, shade, shade_plainly};
use coverage::rows;
use gl_records::{
    Combine, Env, FragState, ImageSet, Level, PixelBox, Prim, PrimKind, Sampler, Texels, TileRect,
    UnitState, VertexOut, is_complete,
};
use gl_tokens::{BaseFormat, CombineFunc, CombineSource, EnvMode, Filter};
use std::alloc::{AllocError, Global};
use std::process::Abort;
use std::test::Fail;

/// Nothing is on.
const PLAIN: FragState = FragState {
    units: [None; 2],
    fog: None,
    scissor: None,
    alpha: None,
    stencil: None,
    depth: None,
    blend: None,
    logic: None,
    mask: [true; 4],
};

fn level(alloc: Global, w: u16, h: u16, texels: &[[u8; 4]]) -> Result<Option<Level>, AllocError> {
    let mut words = Vec::new(alloc);
    for color in texels {
        words.push(u32::from_le_bytes(*color))?;
    }
    Ok(Some(Level {
        w,
        h,
        format: BaseFormat::Rgba,
        texels: Texels::new(words),
    }))
}

/// An image of up to three levels.
fn image(first: Option<Level>, second: Option<Level>, third: Option<Level>) -> ImageSet {
    ImageSet {
        levels: [
            first, second, third, None, None, None, None, None, None, None, None,
        ],
    }
}

/// A corner at a place, with q as a power of two.
fn corner(place: (i32, i32), q: u32, rgba: [u8; 4], tex: [i32; 3], fog: i32) -> VertexOut
    ensures { IsCornerInRange result }
{
    VertexOut {
        x: place.0.clamp(-65536, 98304),
        y: place.1.clamp(-65536, 98304),
        z: 0,
        q: q.clamp(1, 2147483648),
        rgba,
        tex: [tex; 2],
        fog,
    }
}

fn primitive(kind: PrimKind, a: VertexOut, b: VertexOut, c: VertexOut) -> Prim
    requires first { IsCornerInRange a }
    requires second { IsCornerInRange b }
    requires third { IsCornerInRange c }
    ensures { IsInRange result }
{
    Prim {
        kind,
        verts: [a, b, c],
        width: 1,
        bounds: PixelBox {
            x0: 0,
            y0: 0,
            x1: 16,
            y1: 16,
        },
    }
}

fn is_readable(unit: &Option<UnitState>, image: Option<&ImageSet>) -> bool
    ensures { IsTrue result → IsReadable unit.now (option_copied image.entry) }
{
    match (unit, image) {
        (Some(unit), Some(set)) => is_complete(set, unit.sampler),
        _ => true,
    }
}

/// The colour at a pixel by its row, behind the one below it.
fn by_row(on_tile: &TileShader<'_>, covered: &[u16; 16], x: u16, y: u16) -> [u8; 4]
    requires column { x < 16 }
    requires row { y < 16 }
    requires covered { (r : ℕ) → r < 16 → AreCovered on_tile.now (slice_index covered.now r) r }
{
    let below = y.saturating_sub(1);
    let mut lines = Lines::new();
    lines.forget();
    let mut colors = [[0; 4]; 16];
    on_tile.colors(covered[usize::from(below)], below, &mut lines, &mut colors);
    on_tile.colors(covered[usize::from(y)], y, &mut lines, &mut colors);
    colors[usize::from(x)]
}

/// The colour at a pixel of the first tile, which the primitive has to cover: by its row, behind the one below it, alone,
/// and plain.
fn shaded(
    rt: &impl Abort,
    state: &FragState,
    first: Option<&ImageSet>,
    second: Option<&ImageSet>,
    prim: &Prim,
    x: u8,
    y: u8,
) -> [u8; 4]
    requires { IsInRange prim.now }
{
    let (x, y) = (x.min(15), y.min(15));
    assert!(rt; is_readable(&state.units[0], first));
    assert!(rt; is_readable(&state.units[1], second));
    let tile = TileRect { x0: 0, y0: 0 };
    let covered = rows(prim, tile);
    let row = covered[usize::from(y)];
    if row >> x & 1 == 1 {
        let plain = shade_plainly(state, first, second, prim, i32::from(x), i32::from(y));
        let alone = shade(state, first, second, prim, i32::from(x), i32::from(y));
        let shader = Shader::new(state, first, second, prim);
        let prepared = by_row(&shader.on_tile(tile), &covered, u16::from(x), u16::from(y));
        assert_eq!(rt; prepared, plain);
        assert_eq!(rt; alone, plain);
        prepared
    } else {
        [0; 4]
    }
}

/// A triangle over the most of the first tile, by its corners' q and texture coordinates.
fn triangle(q: [u32; 3], tex: [[i32; 3]; 3]) -> Prim
    ensures { IsInRange result }
{
    let color = [200, 100, 50, 128];
    primitive(
        PrimKind::Triangle,
        corner((0, 0), q[0], color, tex[0], 65536),
        corner((320, 0), q[1], color, tex[1], 32768),
        corner((0, 320), q[2], color, tex[2], -9),
    )
}

/// One, two and eight as w.
const UNEQUAL: [u32; 3] = [2147483648, 1073741824, 268435456];

fn textured(unit: UnitState) -> FragState {
    FragState {
        units: [Some(unit), None],
        ..PLAIN
    }
}

#[test]
fn coordinates_in_perspective(rt: HostRuntime) -> Result<(), Fail> {
    let mut texels = [[0, 0, 0, 9]; 16];
    for k in 0..16 {
        texels[k][0] = k as u8;
    }
    let set = image(level(rt.alloc(), 4, 4, &texels)?, None, None);
    let state = textured(UNIT);
    let plain = [[0, 0, 65536], [131072, 0, 65536], [0, 131072, 65536]];
    let third = [[0, 0, 65536], [131072, 0, 131072], [0, 131072, 32768]];
    // the texel with a third coordinate of 1 at all corners, and with 1, 2 and 1/2
    let table = [
        (0, 0, 0, 0),
        (3, 0, 0, 0),
        (7, 1, 2, 1),
        (10, 2, 3, 2),
        (14, 3, 1, 3),
        (0, 5, 0, 0),
        (2, 9, 0, 0),
        (4, 13, 11, 6),
        (1, 15, 9, 9),
        (9, 9, 5, 3),
    ];
    for (x, y, one, other) in table {
        let prim = triangle(UNEQUAL, plain);
        assert_eq!(rt;
            shaded(&rt, &state, Some(&set), None, &prim, x, y),
            [one, 0, 0, 9]
        );
        let prim = triangle(UNEQUAL, third);
        assert_eq!(rt;
            shaded(&rt, &state, Some(&set), None, &prim, x, y),
            [other, 0, 0, 9]
        );
    }
    Ok(())
}

/// Three levels of one colour each.
fn three_levels(alloc: Global) -> Result<ImageSet, AllocError> {
    let first = level(alloc, 4, 4, &[[10, 0, 0, 0]; 16])?;
    let second = level(alloc, 2, 2, &[[20, 0, 0, 0]; 4])?;
    let third = level(alloc, 1, 1, &[[30, 0, 0, 0]])?;
    Ok(image(first, second, third))
}

#[test]
fn levels_by_both_neighbors(rt: HostRuntime) -> Result<(), Fail> {
    let set = three_levels(rt.alloc())?;
    let state = textured(UnitState {
        sampler: Sampler {
            min: Filter::NearestMipmapNearest,
            ..UNIT.sampler
        },
        ..UNIT
    });
    // texels from a pixel to the next on the right, to the next above, the third coordinate of the corner on the right,
    // and the level: with -30 the pixel on the right has no coordinates, with -40 this one has none
    let table = [
        (1, 1, 1, 10),
        (2, 1, 1, 20),
        (1, 2, 1, 20),
        (1, 4, 1, 30),
        (4, 0, 1, 30),
        (0, 3, 1, 20),
        (-2, 0, 1, 20),
        (3, 0, -30, 10),
        (3, 3, -40, 10),
    ];
    for (across, up, third, want) in table {
        let side = 4 * 65536;
        let a = corner((0, 0), 65536, [0; 4], [0, 0, 65536], 0);
        let b = corner(
            (256, 0),
            65536,
            [0; 4],
            [across * side, 0, third * 65536],
            0,
        );
        let c = corner((0, 256), 65536, [0; 4], [0, up * side, 65536], 0);
        let prim = primitive(PrimKind::Triangle, a, b, c);
        let (x, y) = if third < 0 { (0, 0) } else { (3, 2) };
        assert_eq!(rt;
            shaded(&rt, &state, Some(&set), None, &prim, x, y),
            [want, 0, 0, 0]
        );
    }
    Ok(())
}

#[test]
fn points_and_lines(rt: HostRuntime) -> Result<(), Fail> {
    let texels = [[1, 0, 0, 0], [2, 0, 0, 0], [3, 0, 0, 0], [4, 0, 0, 0]];
    let set = image(level(rt.alloc(), 4, 1, &texels)?, None, None);
    let state = textured(UNIT);
    let start = corner((40, 136), 2147483648, [0; 4], [0, 0, 65536], 0);
    let end = corner((200, 136), 536870912, [0; 4], [65536, 0, 65536], 0);
    let line = primitive(PrimKind::Line, start, end, end);
    let along = [1, 1, 1, 1, 1, 1, 2, 2, 3, 3];
    for k in 0..10u8 {
        let want = [along[usize::from(k)], 0, 0, 0];
        assert_eq!(rt;
            shaded(&rt, &state, Some(&set), None, &line, k + 2, 8),
            want
        );
    }
    // a point has one place in the image, and is magnified
    let levels = three_levels(rt.alloc())?;
    let v = corner((136, 136), 7, [0; 4], [40000, 0, 65536], 0);
    let point = primitive(PrimKind::Point, v, v, v);
    assert_eq!(rt;
        shaded(&rt, &state, Some(&set), None, &point, 8, 8),
        [3, 0, 0, 0]
    );
    let small = textured(UnitState {
        sampler: Sampler {
            min: Filter::LinearMipmapLinear,
            ..UNIT.sampler
        },
        ..UNIT
    });
    assert_eq!(rt;
        shaded(&rt, &small, Some(&levels), None, &point, 8, 8),
        [10, 0, 0, 0]
    );
    Ok(())
}

fn flat(color: [u8; 4]) -> Prim
    ensures { IsInRange result }
{
    let tex = [0, 0, 65536];
    primitive(
        PrimKind::Triangle,
        corner((0, 0), 1, color, tex, 32768),
        corner((256, 0), 1, color, tex, 32768),
        corner((0, 256), 1, color, tex, 32768),
    )
}

/// Unit 0, whose texel is RGBA.
fn first_unit(mode: EnvMode) -> Option<UnitState> {
    Some(unit(mode, BaseFormat::Rgba, [10, 250, 128, 77]))
}

/// Unit 1, whose texel is RGB.
fn second_unit(mode: EnvMode) -> Option<UnitState> {
    Some(unit(mode, BaseFormat::Rgb, [60, 30, 220, 5]))
}

/// Unit 1 with a function for the colour.
fn combining(func: CombineFunc, sources: [CombineSource; 3]) -> Option<UnitState> {
    let unit = unit(EnvMode::Combine, BaseFormat::Rgb, [60, 30, 220, 5]);
    let rgb = Combine {
        func,
        sources,
        operands: [COLOR; 3],
        scale: 1,
    };
    Some(UnitState {
        env: Env { rgb, ..unit.env },
        ..unit
    })
}

#[test]
fn both_units_and_fog(rt: HostRuntime) -> Result<(), Fail> {
    let first = image(level(rt.alloc(), 1, 1, &[[140, 90, 200, 90]])?, None, None);
    let second = image(level(rt.alloc(), 1, 1, &[[100, 150, 60, 255]])?, None, None);
    let prim = flat([200, 100, 50, 128]);
    let gray = Some([10, 20, 30, 40]);
    let replace = first_unit(EnvMode::Replace);
    let modulate = first_unit(EnvMode::Modulate);
    let mix = combining(CombineFunc::Interpolate, [TEXEL, PREVIOUS, CONSTANT]);
    let primary = combining(CombineFunc::Modulate, [PREVIOUS, PRIMARY, TEXEL]);
    let table = [
        (None, None, None, [200, 100, 50, 128]),
        (modulate, None, None, [110, 35, 39, 45]),
        (
            None,
            second_unit(EnvMode::Modulate),
            None,
            [78, 59, 12, 128],
        ),
        (
            replace,
            second_unit(EnvMode::Modulate),
            None,
            [55, 53, 47, 90],
        ),
        (
            modulate,
            second_unit(EnvMode::Add),
            None,
            [210, 185, 99, 45],
        ),
        (
            first_unit(EnvMode::Blend),
            second_unit(EnvMode::Blend),
            None,
            [82, 81, 137, 45],
        ),
        (first_unit(EnvMode::Decal), None, None, [179, 96, 103, 128]),
        (
            first_unit(EnvMode::Decal),
            second_unit(EnvMode::Decal),
            None,
            [100, 150, 60, 128],
        ),
        // on what unit 0 left, and on the colour before texturing
        (replace, mix, None, [131, 97, 79, 90]),
        (None, mix, None, [176, 106, 59, 128]),
        (replace, primary, None, [110, 35, 39, 90]),
        // half in fog
        (None, None, gray, [105, 60, 40, 128]),
        (modulate, None, gray, [60, 28, 35, 45]),
        (
            replace,
            second_unit(EnvMode::Modulate),
            gray,
            [33, 37, 39, 90],
        ),
    ];
    for (one, other, fog, want) in table {
        let state = FragState {
            units: [one, other],
            fog,
            ..PLAIN
        };
        assert_eq!(rt;
            shaded(&rt, &state, Some(&first), Some(&second), &prim, 3, 2),
            want
        );
    }
    Ok(())
}

#[test]
fn colors_and_fog_in_perspective(rt: HostRuntime) -> Result<(), Fail> {
    let red = image(level(rt.alloc(), 1, 1, &[[255, 0, 0, 255]])?, None, None);
    let modulated = textured(unit(EnvMode::Modulate, BaseFormat::Rgb, [0; 4]));
    let prim = flat([128, 255, 255, 255]);
    assert_eq!(rt;
        shaded(&rt, &modulated, Some(&red), None, &prim, 0, 0),
        [128, 0, 0, 255]
    );
    // a unit without an image leaves the colour
    assert_eq!(rt;
        shaded(&rt, &modulated, None, None, &prim, 0, 0),
        [128, 255, 255, 255]
    );
    let foggy = FragState {
        fog: Some([10, 20, 30, 40]),
        ..PLAIN
    };
    let tex = [0, 0, 65536];
    let one_color = triangle(UNEQUAL, [tex; 3]);
    let three_colors = primitive(
        PrimKind::Triangle,
        corner((0, 0), UNEQUAL[0], [255, 0, 10, 255], tex, 0),
        corner((320, 0), UNEQUAL[1], [0, 255, 20, 0], tex, 0),
        corner((0, 320), UNEQUAL[2], [0, 100, 30, 128], tex, 0),
    );
    let table = [
        (0, 0, [199, 99, 50, 128], [250, 3, 10, 251]),
        (9, 9, [102, 59, 40, 128], [36, 191, 20, 58]),
        (2, 13, [137, 73, 43, 128], [147, 70, 16, 178]),
    ];
    for (x, y, fog, color) in table {
        assert_eq!(rt; shaded(&rt, &foggy, None, None, &one_color, x, y), fog);
        assert_eq!(rt; shaded(&rt, &PLAIN, None, None, &three_colors, x, y), color);
    }
    Ok(())
}
