ghost use Rattle.std.specs.Prelude.{◌<◌};

use crate::detail::lambda;
use crate::places::{COLUMNS_CLAMPED, COLUMNS_REPEATED, Place, ROWS_CLAMPED, ROWS_REPEATED};
use crate::{ImageSampler, asks_for_rho, choose, texel};
use fx_arith::Fx;
use gl_records::{ImageSet, Level, LevelChoice, Sampler, Texels, is_complete, last_level};
use gl_tokens::{BaseFormat, Filter, Wrap};
use std::alloc::{AllocError, Global};
use std::process::Abort;
use std::test::Fail;

fn sampler(mag: Filter, min: Filter, wrap_s: Wrap, wrap_t: Wrap) -> Sampler {
    Sampler {
        mag,
        min,
        wrap_s,
        wrap_t,
    }
}

fn repeating(mag: Filter, min: Filter) -> Sampler {
    sampler(mag, min, Wrap::Repeat, Wrap::Repeat)
}

fn level(alloc: Global, w: u16, h: u16, texels: &[[u8; 4]]) -> Result<Option<Level>, AllocError> {
    let mut words = Vec::new(alloc);
    for color in texels {
        words.push(u32::from_le_bytes(*color))?;
    }
    Ok(Some(Level {
        w,
        h,
        format: BaseFormat::Rgba,
        texels: Texels::new(words),
    }))
}

/// An image of up to three levels.
fn image(first: Option<Level>, second: Option<Level>, third: Option<Level>) -> ImageSet {
    ImageSet {
        levels: [
            first, second, third, None, None, None, None, None, None, None, None,
        ],
    }
}

fn sampled(rt: &impl Abort, set: &ImageSet, sampler: Sampler, s: i32, t: i32, rho: u64) -> [u8; 4] {
    assert!(rt; is_complete(set, sampler));
    texel(set, sampler, Fx(s), Fx(t), rho)
}

/// By rows from the bottom.
const FOUR_BY_TWO: [[u8; 4]; 8] = [
    [0, 255, 10, 200],
    [40, 215, 11, 201],
    [80, 175, 13, 203],
    [120, 135, 17, 207],
    [101, 154, 110, 100],
    [141, 114, 111, 90],
    [181, 74, 113, 70],
    [221, 34, 117, 30],
];

fn of_table(column: u8, row: u8) -> [u8; 4] {
    FOUR_BY_TWO[4 * usize::from(row % 2) + usize::from(column % 4)]
}

/// A component of the four texels about a place, weighted in quarters.
fn weighted(column: Place, row: Place, k: usize) -> u8
    requires { k < 4 }
{
    let corners = [
        (of_table(column.1, row.1), column.2, row.2),
        (of_table(column.3, row.1), column.4, row.2),
        (of_table(column.1, row.3), column.2, row.4),
        (of_table(column.3, row.3), column.4, row.4),
    ];
    let mut sum = 8u32;
    for (color, across, along) in corners {
        let weight = u32::from(across).wrapping_mul(u32::from(along));
        sum = sum.wrapping_add(weight.wrapping_mul(u32::from(color[k])));
    }
    (sum / 16 % 256) as u8
}

fn place_is_read(
    rt: &impl Abort,
    set: &ImageSet,
    wraps: (Wrap, Wrap),
    places: (i32, i32),
    column: Place,
    row: Place,
) {
    let nearest = sampler(Filter::Nearest, Filter::Nearest, wraps.0, wraps.1);
    let linear = sampler(Filter::Linear, Filter::Linear, wraps.0, wraps.1);
    let (s, t) = places;
    assert_eq!(rt;
        sampled(rt, set, nearest, s, t, 0),
        of_table(column.0, row.0)
    );
    let blend = [
        weighted(column, row, 0),
        weighted(column, row, 1),
        weighted(column, row, 2),
        weighted(column, row, 3),
    ];
    assert_eq!(rt; sampled(rt, set, linear, s, t, 0), blend);
}

fn row_is_read(
    rt: &impl Abort,
    set: &ImageSet,
    wraps: (Wrap, Wrap),
    t: i32,
    columns: &[Place; 33],
    row: Place,
) {
    for k in 0..33 {
        let s = 8192 * k as i32 - 98304;
        place_is_read(rt, set, wraps, (s, t), columns[k], row);
    }
}

fn table_is_read(
    rt: &impl Abort,
    set: &ImageSet,
    wraps: (Wrap, Wrap),
    columns: &[Place; 33],
    rows: &[Place; 33],
) {
    for k in 0..33 {
        let t = 8192 * k as i32 - 98304;
        row_is_read(rt, set, wraps, t, columns, rows[k]);
    }
}

#[test]
fn each_pair_of_wraps_by_both_filters(rt: HostRuntime) -> Result<(), Fail> {
    let set = image(level(rt.alloc(), 4, 2, &FOUR_BY_TWO)?, None, None);
    let columns = [
        (Wrap::Repeat, COLUMNS_REPEATED),
        (Wrap::ClampToEdge, COLUMNS_CLAMPED),
    ];
    for (wrap, columns) in columns {
        table_is_read(&rt, &set, (wrap, Wrap::Repeat), &columns, &ROWS_REPEATED);
        table_is_read(
            &rt,
            &set,
            (wrap, Wrap::ClampToEdge),
            &columns,
            &ROWS_CLAMPED,
        );
    }
    Ok(())
}

#[test]
fn images_one_texel_wide(rt: HostRuntime) -> Result<(), Fail> {
    let lone = image(level(rt.alloc(), 1, 1, &[[1, 2, 3, 4]])?, None, None);
    let colors = [[10; 4], [50; 4], [90; 4], [130; 4]];
    let column = image(level(rt.alloc(), 1, 4, &colors)?, None, None);
    // T in eighths, and what a column of four texels gives
    let table = [
        (Filter::Nearest, Wrap::Repeat, 2, 50),
        (Filter::Nearest, Wrap::Repeat, -1, 130),
        (Filter::Nearest, Wrap::ClampToEdge, -1, 10),
        (Filter::Nearest, Wrap::ClampToEdge, 8, 130),
        (Filter::Nearest, Wrap::Repeat, 8, 10),
        (Filter::Linear, Wrap::Repeat, 2, 30),
        (Filter::Linear, Wrap::Repeat, 0, 70),
        (Filter::Linear, Wrap::ClampToEdge, 0, 10),
        (Filter::Linear, Wrap::Repeat, 8, 70),
        (Filter::Linear, Wrap::ClampToEdge, 8, 130),
        (Filter::Linear, Wrap::Repeat, 1, 10),
    ];
    for (filter, wrap, eighths, want) in table {
        let sampler = sampler(filter, filter, wrap, wrap);
        let t = 8192 * i32::from(eighths);
        assert_eq!(rt; sampled(&rt, &column, sampler, -200000, t, 0), [want; 4]);
        assert_eq!(rt; sampled(&rt, &lone, sampler, t, i32::MIN, 0), [1, 2, 3, 4]);
    }
    Ok(())
}

#[test]
fn levels_of_detail(rt: HostRuntime) {
    let table = [
        (0, -32768),
        (1, -4096),
        (3, -3712),
        (65535, -1),
        (65536, 0),
        (65537, 0),
        (65791, 0),
        (65792, 1),
        (131071, 255),
        (131072, 256),
        (1 << 47, 7936),
        (u64::MAX, 12287),
    ];
    for (rho, want) in table {
        assert_eq!(rt; lambda(rho), want);
    }
}

/// A lambda of 0 has a rho of 65536, one of 1/2 of 98304, one of 1 of 131072; 1/256 more is 256, 256 and 512 more.
#[test]
fn choices_of_levels(rt: HostRuntime) {
    let nearest = Filter::NearestMipmapNearest;
    let linear = Filter::LinearMipmapNearest;
    let nearest_of_two = Filter::NearestMipmapLinear;
    let linear_of_two = Filter::LinearMipmapLinear;
    let one = Filter::Nearest;
    let weighted = Filter::Linear;
    // of MAG, MIN and rho: the filter inside of a level, the level, the weight of the next; the last level is 3
    let table = [
        // a lambda of 0 is magnified, one of 1/256 is not
        (one, one, 65536, false, 0, 0),
        (one, weighted, 65536, false, 0, 0),
        (one, weighted, 65792, true, 0, 0),
        (weighted, one, 65536, true, 0, 0),
        (weighted, one, 65792, false, 0, 0),
        (weighted, linear, 65792, true, 0, 0),
        (weighted, linear_of_two, 65792, true, 0, 1),
        // where MAG weights and MIN does not, up to a lambda of 1/2
        (weighted, nearest, 98304, true, 0, 0),
        (weighted, nearest, 98560, false, 1, 0),
        (weighted, nearest_of_two, 98304, true, 0, 0),
        (weighted, nearest_of_two, 98560, false, 0, 129),
        (one, nearest_of_two, 65792, false, 0, 1),
        // the nearest level changes above 1/2, 3/2 and 5/2
        (one, nearest, 98304, false, 0, 0),
        (one, nearest, 98560, false, 1, 0),
        (one, nearest, 196608, false, 1, 0),
        (one, nearest, 197120, false, 2, 0),
        (one, linear, 393216, true, 2, 0),
        (one, linear, 394240, true, 3, 0),
        (one, linear, 1048576, true, 3, 0),
        (one, linear, 1 << 47, true, 3, 0),
        // the first of two levels changes at 1, 2 and 3, the last one
        (one, nearest_of_two, 131071, false, 0, 255),
        (one, nearest_of_two, 131072, false, 1, 0),
        (one, linear_of_two, 196608, true, 1, 128),
        (one, linear_of_two, 262144, true, 2, 0),
        (one, linear_of_two, 524287, true, 2, 255),
        (one, linear_of_two, 524288, true, 3, 0),
        (one, linear_of_two, 786432, true, 3, 0),
        (one, nearest_of_two, 1 << 47, false, 3, 0),
    ];
    for (mag, min, rho, linear, level, weight) in table {
        let want = LevelChoice {
            linear,
            level,
            weight,
        };
        assert_eq!(rt; choose(repeating(mag, min), 3, rho), want);
        assert!(rt;
            want == choose(repeating(mag, min), 3, 0) || asks_for_rho(repeating(mag, min), 3)
        );
    }
    assert!(rt; !asks_for_rho(repeating(weighted, weighted), 3));
    assert!(rt; !asks_for_rho(repeating(weighted, linear_of_two), 0));
}

/// Three levels of one colour each.
fn three_levels(alloc: Global) -> Result<ImageSet, AllocError> {
    let first = level(alloc, 4, 2, &[[0, 100, 200, 255]; 8])?;
    let second = level(alloc, 2, 1, &[[255, 101, 100, 0]; 2])?;
    let third = level(alloc, 1, 1, &[[7, 8, 9, 10]])?;
    Ok(image(first, second, third))
}

#[test]
fn blends_of_levels(rt: HostRuntime) -> Result<(), Fail> {
    let set = three_levels(rt.alloc())?;
    assert_eq!(rt; last_level(&set), 2);
    let table = [
        (Filter::LinearMipmapNearest, 98560, [255, 101, 100, 0]),
        // lambda 1/4: a quarter of level 1, rounded to the nearest
        (Filter::LinearMipmapLinear, 81920, [64, 100, 175, 191]),
        (Filter::NearestMipmapLinear, 81920, [64, 100, 175, 191]),
        // lambda 3/2
        (Filter::NearestMipmapLinear, 196608, [131, 55, 55, 5]),
        (Filter::LinearMipmapLinear, 262144, [7, 8, 9, 10]),
        (Filter::NearestMipmapNearest, 1 << 47, [7, 8, 9, 10]),
    ];
    for (min, rho, want) in table {
        let sampler = repeating(Filter::Nearest, min);
        assert_eq!(rt; sampled(&rt, &set, sampler, 12345, -54321, rho), want);
    }
    Ok(())
}

const ALL_FILTERS: [Filter; 6] = [
    Filter::Nearest,
    Filter::Linear,
    Filter::NearestMipmapNearest,
    Filter::LinearMipmapNearest,
    Filter::NearestMipmapLinear,
    Filter::LinearMipmapLinear,
];

/// Rho of a row of pixels: lambdas of no level, below and above 0, 1/2 and 1, between levels and behind the last.
const ROW_OF_RHOS: [u64; 16] = [
    0,
    1,
    65536,
    65792,
    81920,
    98304,
    98560,
    131071,
    131072,
    150000,
    196608,
    197120,
    262144,
    270000,
    1048576,
    1 << 47,
];

/// A row of pixels beside the same pixels one by one.
fn row_is_as_pixels(rt: &impl Abort, set: &ImageSet, sampler: Sampler, bits: u16) {
    let mut s = [Fx(0); 16];
    let mut t = [Fx(0); 16];
    for i in 0..16 {
        s[i] = Fx(12345 * i as i32 - 98304);
        t[i] = Fx(65536 - 9876 * i as i32);
    }
    assert!(rt; is_complete(set, sampler));
    let mut texels = [[0; 4]; 16];
    ImageSampler::new(set, sampler).texels(bits, &s, &t, &ROW_OF_RHOS, &mut texels);
    for i in 0..16 {
        let wanted = sampled(rt, set, sampler, s[i].0, t[i].0, ROW_OF_RHOS[i]);
        assert!(rt; bits >> i & 1 == 0 || texels[i] == wanted);
    }
}

fn rows_are_as_pixels(rt: &impl Abort, set: &ImageSet, mag: Filter, min: Filter) {
    let table = [
        (Wrap::Repeat, Wrap::Repeat, 0xffff),
        (Wrap::Repeat, Wrap::ClampToEdge, 0xffff),
        (Wrap::ClampToEdge, Wrap::Repeat, 0xffff),
        (Wrap::ClampToEdge, Wrap::ClampToEdge, 0xffff),
        (Wrap::Repeat, Wrap::ClampToEdge, 0x0a58),
        (Wrap::ClampToEdge, Wrap::Repeat, 0x8001),
        (Wrap::Repeat, Wrap::Repeat, 0x8000),
        (Wrap::Repeat, Wrap::Repeat, 0),
    ];
    for (wrap_s, wrap_t, bits) in table {
        row_is_as_pixels(rt, set, sampler(mag, min, wrap_s, wrap_t), bits);
    }
}

#[test]
fn rows_as_their_pixels(rt: HostRuntime) -> Result<(), Fail> {
    let first = level(rt.alloc(), 4, 2, &FOUR_BY_TWO)?;
    let second = level(rt.alloc(), 2, 1, &[[255, 101, 100, 0], [3, 200, 50, 90]])?;
    let third = level(rt.alloc(), 1, 1, &[[7, 8, 9, 10]])?;
    let set = image(first, second, third);
    for min in ALL_FILTERS {
        rows_are_as_pixels(&rt, &set, Filter::Nearest, min);
        rows_are_as_pixels(&rt, &set, Filter::Linear, min);
    }
    Ok(())
}

#[test]
fn complete_images(rt: HostRuntime) -> Result<(), Fail> {
    let one = repeating(Filter::Linear, Filter::Linear);
    let several = repeating(Filter::Nearest, Filter::NearestMipmapLinear);
    let alloc = rt.alloc();
    let whole = three_levels(alloc)?;
    assert!(rt; is_complete(&whole, several));
    assert!(rt;
        !is_complete(
            &whole,
            repeating(Filter::NearestMipmapLinear, Filter::Nearest)
        )
    );
    let short = image(
        level(alloc, 4, 2, &[[9; 4]; 8])?,
        level(alloc, 2, 1, &[[9; 4]; 2])?,
        None,
    );
    assert!(rt; is_complete(&short, one));
    assert!(rt; !is_complete(&short, several));
    let flat = image(
        level(alloc, 2, 2, &[[9; 4]; 4])?,
        level(alloc, 2, 1, &[[9; 4]; 2])?,
        None,
    );
    assert!(rt; !is_complete(&flat, several));
    let lone = image(level(alloc, 1, 1, &[[9; 4]])?, None, None);
    assert!(rt; is_complete(&lone, several));
    let lacking = image(level(alloc, 4, 2, &[[9; 4]; 7])?, None, None);
    assert!(rt; !is_complete(&lacking, one));
    assert!(rt; !is_complete(&image(None, None, None), one));
    assert_eq!(rt; last_level(&image(None, None, None)), 0);
    Ok(())
}
