ghost use Rattle.std.specs.Prelude.{IsTrue};
ghost use Rattle.pixel_unpack.specs.Image.{is_alignment};
ghost use Rattle.pixel_unpack.specs.Texel.{is_pair};

use super::*;
use crate::component::{five_bits, four_bits, one_bit, six_bits};
use gl_tokens::{BaseFormat, PaletteFormat, TexelType};
use std::alloc::Global;
use std::process::Abort;
use std::test::Fail;

/// Two rows of 3 texels, with bytes that belong to neither between them and behind them.
fn with_alignment(
    rt: &impl Abort,
    alloc: Global,
    format: BaseFormat,
    kind: TexelType,
    align: u8,
    stride: usize,
    bottom: &[u8],
    top: &[u8],
    want: &[u32],
) -> Result<(), Fail>
    requires pair { IsTrue (is_pair format kind) }
    requires aligned { IsTrue (is_alignment align) }
{
    let mut piece = Vec::from_slice(alloc, bottom)?;
    piece.resize(stride, 0xee)?;
    piece.extend_from_slice(top)?;
    piece.extend_from_slice(&[0xee; 9])?;
    let texels = unpack(alloc, format, kind, align, 3, 2, piece.as_slice())?;
    assert_eq!(rt;
        texels.as_slice(),
        want,
        "{format:?} {kind:?} with rows on {align} bytes"
    );
    Ok(())
}

/// The same for the four alignments, with the bytes from the first row to the second for each.
fn with_each_alignment(
    rt: &impl Abort,
    alloc: Global,
    format: BaseFormat,
    kind: TexelType,
    strides: [usize; 4],
    bottom: &[u8],
    top: &[u8],
    want: &[u32],
) -> Result<(), Fail>
    requires { IsTrue (is_pair format kind) }
{
    let [on_1, on_2, on_4, on_8] = strides;
    with_alignment(rt, alloc, format, kind, 1, on_1, bottom, top, want)?;
    with_alignment(rt, alloc, format, kind, 2, on_2, bottom, top, want)?;
    with_alignment(rt, alloc, format, kind, 4, on_4, bottom, top, want)?;
    with_alignment(rt, alloc, format, kind, 8, on_8, bottom, top, want)
}

/// 0x1234 0xf80f 0x07e0.
const PACKED_BOTTOM: [u8; 6] = [0x34, 0x12, 0x0f, 0xf8, 0xe0, 0x07];

/// 0xffff 0x8421 0xabcd.
const PACKED_TOP: [u8; 6] = [0xff, 0xff, 0x21, 0x84, 0xcd, 0xab];

#[test]
fn formats_of_bytes(rt: HostRuntime) -> Result<(), Fail> {
    let alloc = rt.alloc();
    let kind = TexelType::UnsignedByte;
    let rows: [u8; 24] = [
        1, 2, 3, 4, 5, 6, 7, 8, 9, 10, 11, 12, 13, 14, 15, 16, 17, 18, 19, 20, 21, 22, 23, 24,
    ];
    let three = [3, 4, 4, 8];
    with_each_alignment(
        &rt,
        alloc,
        BaseFormat::Alpha,
        kind,
        three,
        &rows[..3],
        &rows[3..6],
        &[
            0x01000000, 0x02000000, 0x03000000, 0x04000000, 0x05000000, 0x06000000,
        ],
    )?;
    with_each_alignment(
        &rt,
        alloc,
        BaseFormat::Luminance,
        kind,
        three,
        &rows[..3],
        &rows[3..6],
        &[
            0xff010101, 0xff020202, 0xff030303, 0xff040404, 0xff050505, 0xff060606,
        ],
    )?;
    let six = [6, 6, 8, 8];
    with_each_alignment(
        &rt,
        alloc,
        BaseFormat::LuminanceAlpha,
        kind,
        six,
        &rows[..6],
        &rows[6..12],
        &[
            0x02010101, 0x04030303, 0x06050505, 0x08070707, 0x0a090909, 0x0c0b0b0b,
        ],
    )?;
    let nine = [9, 10, 12, 16];
    with_each_alignment(
        &rt,
        alloc,
        BaseFormat::Rgb,
        kind,
        nine,
        &rows[..9],
        &rows[9..18],
        &[
            0xff030201, 0xff060504, 0xff090807, 0xff0c0b0a, 0xff0f0e0d, 0xff121110,
        ],
    )?;
    let twelve = [12, 12, 12, 16];
    with_each_alignment(
        &rt,
        alloc,
        BaseFormat::Rgba,
        kind,
        twelve,
        &rows[..12],
        &rows[12..],
        &[
            0x04030201, 0x08070605, 0x0c0b0a09, 0x100f0e0d, 0x14131211, 0x18171615,
        ],
    )
}

#[test]
fn packed_formats(rt: HostRuntime) -> Result<(), Fail> {
    let alloc = rt.alloc();
    let six = [6, 6, 8, 8];
    let rgba = BaseFormat::Rgba;
    let kind = TexelType::UnsignedShort4444;
    with_each_alignment(
        &rt,
        alloc,
        rgba,
        kind,
        six,
        &PACKED_BOTTOM,
        &PACKED_TOP,
        &[
            0x44332211, 0xff0088ff, 0x00ee7700, 0xffffffff, 0x11224488, 0xddccbbaa,
        ],
    )?;
    let kind = TexelType::UnsignedShort5551;
    with_each_alignment(
        &rt,
        alloc,
        rgba,
        kind,
        six,
        &PACKED_BOTTOM,
        &PACKED_TOP,
        &[
            0x00d64210, 0xff3a00ff, 0x0084ff00, 0xffffffff, 0xff848484, 0xff317bad,
        ],
    )?;
    let kind = TexelType::UnsignedShort565;
    with_each_alignment(
        &rt,
        alloc,
        BaseFormat::Rgb,
        kind,
        six,
        &PACKED_BOTTOM,
        &PACKED_TOP,
        &[
            0xffa54510, 0xff7b00ff, 0xff00ff00, 0xffffffff, 0xff088684, 0xff6b79ad,
        ],
    )
}

#[test]
fn components_of_a_few_bits(rt: HostRuntime) {
    let fives: [u8; 32] = [
        0, 8, 16, 25, 33, 41, 49, 58, 66, 74, 82, 90, 99, 107, 115, 123, 132, 140, 148, 156, 165,
        173, 181, 189, 197, 206, 214, 222, 230, 239, 247, 255,
    ];
    let sixes: [u8; 64] = [
        0, 4, 8, 12, 16, 20, 24, 28, 32, 36, 40, 45, 49, 53, 57, 61, 65, 69, 73, 77, 81, 85, 89,
        93, 97, 101, 105, 109, 113, 117, 121, 125, 130, 134, 138, 142, 146, 150, 154, 158, 162,
        166, 170, 174, 178, 182, 186, 190, 194, 198, 202, 206, 210, 215, 219, 223, 227, 231, 235,
        239, 243, 247, 251, 255,
    ];
    for v in 0..64u16 {
        let number = v * 512;
        assert_eq!(rt;
            six_bits(number, 9),
            sixes[usize::from(v)],
            "six bits of {v}"
        );
        if v < 32 {
            assert_eq!(rt;
                five_bits(number, 9),
                fives[usize::from(v)],
                "five bits of {v}"
            );
        }
    }
    let fours: [u8; 16] = [
        0x00, 0x11, 0x22, 0x33, 0x44, 0x55, 0x66, 0x77, 0x88, 0x99, 0xaa, 0xbb, 0xcc, 0xdd, 0xee,
        0xff,
    ];
    for v in 0..16u16 {
        assert_eq!(rt;
            four_bits(0xf00f + v * 16, 4),
            fours[usize::from(v)],
            "four bits of {v}"
        );
    }
    assert_eq!(rt; one_bit(0x7fff, 15), 0);
    assert_eq!(rt; one_bit(0x8000, 15), 255);
}

/// Texels R G B on rows of 12 bytes, from a front of a piece.
fn rows_of_12(rt: &impl Abort, alloc: Global, piece: &[u8], top: [u32; 3]) -> Result<(), Fail> {
    let [first, second, third] = top;
    let texels = unpack(
        alloc,
        BaseFormat::Rgb,
        TexelType::UnsignedByte,
        4,
        3,
        2,
        piece,
    )?;
    let want = [0xff030201, 0xff060504, 0xff090807, first, second, third];
    assert_eq!(rt;
        texels.as_slice(),
        want.as_slice(),
        "of {} bytes",
        piece.len()
    );
    Ok(())
}

#[test]
fn pieces_that_end_early(rt: HostRuntime) -> Result<(), Fail> {
    let alloc = rt.alloc();
    let piece: [u8; 21] = [
        1, 2, 3, 4, 5, 6, 7, 8, 9, 238, 238, 238, 10, 11, 12, 13, 14, 15, 16, 17, 18,
    ];
    rows_of_12(&rt, alloc, &piece, [0xff0c0b0a, 0xff0f0e0d, 0xff121110])?;
    rows_of_12(
        &rt,
        alloc,
        &piece[..17],
        [0xff0c0b0a, 0xff000e0d, 0xff000000],
    )?;
    rows_of_12(
        &rt,
        alloc,
        &piece[..15],
        [0xff0c0b0a, 0xff000000, 0xff000000],
    )?;
    rows_of_12(&rt, alloc, &piece[..10], [0xff000000; 3])?;
    let packed = TexelType::UnsignedShort4444;
    let none = unpack(alloc, BaseFormat::Rgba, packed, 1, 1, 2, &piece[..1])?;
    assert_eq!(rt; none.as_slice(), [0x11000000, 0].as_slice());
    let none = unpack(
        alloc,
        BaseFormat::Luminance,
        TexelType::UnsignedByte,
        8,
        2,
        1,
        &[],
    )?;
    assert_eq!(rt; none.as_slice(), [0xff000000; 2].as_slice());
    for (w, h) in [(0, 5), (5, 0), (0, 0)] {
        let none = unpack(alloc, BaseFormat::Rgba, packed, 4, w, h, &piece)?;
        assert_eq!(rt; none.as_slice().len(), 0, "{w} by {h}");
    }
    Ok(())
}

/// Levels of 5 by 3, 2 by 1 and 1 by 1. `entries` are the bytes of the entries 1, 2 and the last, `words` the
/// texels of the entries 0 (of zeros), 1, 2 and the last.
fn with_palette(
    rt: &impl Abort,
    alloc: Global,
    format: PaletteFormat,
    base: BaseFormat,
    last: usize,
    entries: [&[u8]; 3],
    words: [u32; 4],
    size: u64,
) -> Result<(), Fail> {
    let [one, two, end] = entries;
    let mut piece = Vec::new(alloc);
    piece.resize(one.len(), 0)?;
    piece.extend_from_slice(one)?;
    piece.extend_from_slice(two)?;
    piece.resize(last, 0)?;
    piece.extend_from_slice(end)?;
    if piece.len() < 100 {
        piece.extend_from_slice(&[0x10, 0x2f, 0x12, 0x20, 0x1f, 0xf1, 0x02, 0x1e, 0x2f, 0x1e])?;
    } else {
        piece.extend_from_slice(&[1, 0, 2, 255, 1, 2, 2, 0, 1, 255, 255, 1, 0, 2, 1, 2, 255, 1])?;
    }
    assert_eq!(rt; piece.len() as u64, size, "{format:?}");
    assert_eq!(rt; palette_size(format, 5, 3, 3), size, "{format:?}");
    let levels = unpack_palette(alloc, format, 5, 3, 3, piece.as_slice())?;
    let [z, a, b, l] = words;
    let want = [a, z, b, l, a, b, b, z, a, l, l, a, z, b, a];
    assert_eq!(rt; levels[0].texels.as_slice(), want.as_slice(), "{format:?}");
    assert_eq!(rt;
        levels[1].texels.as_slice(),
        [b, l].as_slice(),
        "{format:?}"
    );
    assert_eq!(rt; levels[2].texels.as_slice(), [a].as_slice(), "{format:?}");
    assert_eq!(rt; (levels[1].w, levels[1].h, levels[2].h), (2, 1, 1));
    assert_eq!(rt; levels[2].format, base, "{format:?}");
    Ok(())
}

#[test]
fn palettes_of_bytes(rt: HostRuntime) -> Result<(), Fail> {
    let alloc = rt.alloc();
    let rgb: [&[u8]; 3] = [&[1, 2, 3], &[4, 5, 6], &[7, 8, 9]];
    let words = [0xff000000, 0xff030201, 0xff060504, 0xff090807];
    let base = BaseFormat::Rgb;
    with_palette(
        &rt,
        alloc,
        PaletteFormat::Palette4Rgb8,
        base,
        45,
        rgb,
        words,
        58,
    )?;
    with_palette(
        &rt,
        alloc,
        PaletteFormat::Palette8Rgb8,
        base,
        765,
        rgb,
        words,
        786,
    )?;
    let rgba: [&[u8]; 3] = [&[1, 2, 3, 4], &[5, 6, 7, 8], &[9, 10, 11, 12]];
    let words = [0, 0x04030201, 0x08070605, 0x0c0b0a09];
    let base = BaseFormat::Rgba;
    with_palette(
        &rt,
        alloc,
        PaletteFormat::Palette4Rgba8,
        base,
        60,
        rgba,
        words,
        74,
    )?;
    with_palette(
        &rt,
        alloc,
        PaletteFormat::Palette8Rgba8,
        base,
        1020,
        rgba,
        words,
        1042,
    )
}

#[test]
fn packed_palettes(rt: HostRuntime) -> Result<(), Fail> {
    let alloc = rt.alloc();
    let entries: [&[u8]; 3] = [&[0x34, 0x12], &[0x0f, 0xf8], &[0x21, 0x84]];
    let words = [0xff000000, 0xffa54510, 0xff7b00ff, 0xff088684];
    let base = BaseFormat::Rgb;
    with_palette(
        &rt,
        alloc,
        PaletteFormat::Palette4R5G6B5,
        base,
        30,
        entries,
        words,
        42,
    )?;
    with_palette(
        &rt,
        alloc,
        PaletteFormat::Palette8R5G6B5,
        base,
        510,
        entries,
        words,
        530,
    )?;
    let words = [0, 0x44332211, 0xff0088ff, 0x11224488];
    let base = BaseFormat::Rgba;
    with_palette(
        &rt,
        alloc,
        PaletteFormat::Palette4Rgba4,
        base,
        30,
        entries,
        words,
        42,
    )?;
    with_palette(
        &rt,
        alloc,
        PaletteFormat::Palette8Rgba4,
        base,
        510,
        entries,
        words,
        530,
    )?;
    let words = [0, 0x00d64210, 0xff3a00ff, 0xff848484];
    with_palette(
        &rt,
        alloc,
        PaletteFormat::Palette4Rgb5A1,
        base,
        30,
        entries,
        words,
        42,
    )?;
    with_palette(
        &rt,
        alloc,
        PaletteFormat::Palette8Rgb5A1,
        base,
        510,
        entries,
        words,
        530,
    )
}

#[test]
fn sizes_of_palettes(rt: HostRuntime) -> Result<(), Fail> {
    assert_eq!(rt; palette_size(PaletteFormat::Palette4Rgb8, 2, 2, 1), 50);
    assert_eq!(rt; palette_size(PaletteFormat::Palette4Rgb8, 2, 2, 2), 51);
    assert_eq!(rt;
        palette_size(PaletteFormat::Palette8Rgba8, 1024, 1024, 11),
        1399125
    );
    assert_eq!(rt; palette_size(PaletteFormat::Palette8Rgb5A1, 0, 8, 4), 512);
    let cut = [9, 9, 9];
    let levels = unpack_palette(rt.alloc(), PaletteFormat::Palette4Rgb8, 2, 2, 2, &cut)?;
    assert_eq!(rt; levels[0].texels.as_slice(), [0xff090909; 4].as_slice());
    assert_eq!(rt; levels[1].texels.as_slice(), [0xff090909].as_slice());
    Ok(())
}
