//! The arrays' formats, their commands and the indices of draws, in tables. What a number of bytes stands for was
//! worked out apart from the program.
use super::*;
use buffer_objects::Buffers;
use fx_arith::Fx;
use gl_records::{Attribs, Bytes, Rec};
use gl_tokens::{ArrayKind, GlError};
use std::alloc::{AllocError, Global};
use std::process::Abort;
use std::test::Fail;

const ENUM: Option<GlError> = Some(GlError::InvalidEnum);

const VALUE: Option<GlError> = Some(GlError::InvalidValue);

const BYTE: u32 = 0x1400;

const UNSIGNED_BYTE: u32 = 0x1401;

const SHORT: u32 = 0x1402;

const UNSIGNED_SHORT: u32 = 0x1403;

const FIXED: u32 = 0x140C;

const CURRENT: Attribs = Attribs {
    pos: [Fx(1), Fx(2), Fx(3), Fx(4)],
    normal: [Fx(5), Fx(6), Fx(7)],
    color: [Fx(8), Fx(9), Fx(10), Fx(11)],
    tex: [
        [Fx(12), Fx(13), Fx(14), Fx(15)],
        [Fx(16), Fx(17), Fx(18), Fx(19)],
    ],
};

/// Region 5 has 17 bytes; the others have none.
fn regions(alloc: Global) -> Result<Regions, AllocError> {
    let mut regions = Regions::new(alloc);
    let bytes = b"\x80\xff\x7f\x00\x01\x80\xfe\xff\x34\x12\x00\x80\xff\x7f\x01\x00\x02";
    regions.set(5, Bytes::new(Vec::from_slice(alloc, bytes)?));
    Ok(regions)
}

fn four(numbers: [i32; 4]) -> [Fx; 4] {
    numbers.map(Fx)
}

/// The arrays after these commands, each of which makes this error or none; with an error they stay as they were.
fn run<R: Abort>(rt: &R, arrays: &mut Arrays, table: &[(Rec, Option<GlError>)]) {
    for (rec, error) in table {
        let before = *arrays;
        assert_eq!(rt; arrays.set(rec, None), *error);
        if error.is_some() {
            assert_eq!(rt; *arrays, before);
        }
    }
}

#[test]
fn positions_and_texture_coordinates(rt: HostRuntime) -> Result<(), Fail> {
    let regions = regions(rt.alloc())?;
    let buffers = Buffers::new(rt.alloc());
    // size, type, stride, offset, the element, and what it is
    let table = [
        (2, BYTE, 0, 1, 0, [-65536, 8323072, 0, 65536]),
        (2, BYTE, 0, 1, 1, [0, 65536, 0, 65536]),
        (3, BYTE, 0, 0, 1, [0, 65536, -8388608, 65536]),
        (4, BYTE, 5, 0, 3, [0, 131072, 0, 0]),
        (3, SHORT, 3, 5, 0, [-25165824, 889126912, 1179648, 65536]),
        (3, SHORT, 3, 5, 1, [305397760, i32::MIN, 2147418112, 65536]),
        (3, SHORT, 3, 5, 2, [-8388608, 25100288, 33554432, 65536]),
        (4, SHORT, 0, 9, 0, [1179648, -8388608, 25100288, 33554432]),
        (4, FIXED, 0, 1, 0, [16809983, 889192064, -8388590, 33554815]),
        (4, FIXED, 0, 1, 1, [0, 0, 0, 0]),
        (4, FIXED, 0, 1, u32::MAX, [0, 0, 0, 0]),
        (2, FIXED, 7, 0, 2, [131073, 0, 0, 65536]),
        (3, FIXED, 0, 0, 1, [98303, 2, 0, 65536]),
    ];
    let mut arrays = Arrays::new();
    arrays.set(&Rec::EnableClientState { array: 0x8074 }, None);
    arrays.set(&Rec::EnableClientState { array: 0x8078 }, None);
    for (size, kind, stride, offset, k, want) in table {
        let region = 5;
        let position = Rec::VertexPointer {
            size,
            kind,
            stride,
            region,
            offset,
        };
        let coordinates = Rec::TexCoordPointer {
            size,
            kind,
            stride,
            region,
            offset,
        };
        assert_eq!(rt; arrays.set(&position, None), None);
        assert_eq!(rt; arrays.set(&coordinates, None), None);
        let vertex = fetch(&arrays, &buffers, &regions, &CURRENT, k);
        let want = Attribs {
            pos: four(want),
            tex: [four(want), CURRENT.tex[1]],
            ..CURRENT
        };
        assert_eq!(rt; vertex, want, "{size} of {kind} at {offset}, element {k}");
    }
    Ok(())
}

#[test]
fn normals(rt: HostRuntime) -> Result<(), Fail> {
    let regions = regions(rt.alloc())?;
    let buffers = Buffers::new(rt.alloc());
    // type, stride, offset, the element, and what it is
    let table = [
        (BYTE, 1, 0, 0, [-65536, -258, 65536]),
        (BYTE, 0, 3, 1, [-772, -258, 26985]),
        (SHORT, 0, 10, 0, [-65536, 65536, 3]),
        (SHORT, 0, 10, 1, [5, 1, 1]),
        (FIXED, 0, 2, 0, [-2147417985, 305463294, 2147450880]),
    ];
    let mut arrays = Arrays::new();
    arrays.set(&Rec::EnableClientState { array: 0x8075 }, None);
    for (kind, stride, offset, k, want) in table {
        let region = 5;
        let pointer = Rec::NormalPointer {
            kind,
            stride,
            region,
            offset,
        };
        assert_eq!(rt; arrays.set(&pointer, None), None);
        let want = Attribs {
            normal: want.map(Fx),
            ..CURRENT
        };
        assert_eq!(rt;
            fetch(&arrays, &buffers, &regions, &CURRENT, k),
            want,
            "{kind} at {offset}, element {k}"
        );
    }
    Ok(())
}

#[test]
fn colors(rt: HostRuntime) -> Result<(), Fail> {
    let regions = regions(rt.alloc())?;
    let buffers = Buffers::new(rt.alloc());
    // type, stride, offset, the element, and what it is
    let table = [
        (UNSIGNED_BYTE, 0, 0, 0, [32896, 65536, 32639, 0]),
        (UNSIGNED_BYTE, 0, 0, 4, [514, 0, 0, 0]),
        (UNSIGNED_BYTE, 1, 0, 1, [65536, 32639, 0, 257]),
        (FIXED, 0, 3, 0, [-25165568, 1193215, 25165696, 512]),
    ];
    let mut arrays = Arrays::new();
    arrays.set(&Rec::EnableClientState { array: 0x8076 }, None);
    for (kind, stride, offset, k, want) in table {
        let (size, region) = (4, 5);
        let pointer = Rec::ColorPointer {
            size,
            kind,
            stride,
            region,
            offset,
        };
        assert_eq!(rt; arrays.set(&pointer, None), None);
        let want = Attribs {
            color: four(want),
            ..CURRENT
        };
        assert_eq!(rt;
            fetch(&arrays, &buffers, &regions, &CURRENT, k),
            want,
            "{kind} at {offset}, element {k}"
        );
    }
    Ok(())
}

#[test]
fn each_unit_has_its_own_coordinates(rt: HostRuntime) -> Result<(), Fail> {
    let regions = regions(rt.alloc())?;
    let buffers = Buffers::new(rt.alloc());
    let mut arrays = Arrays::new();
    assert_eq!(rt; fetch(&arrays, &buffers, &regions, &CURRENT, 3), CURRENT);
    let (kind, stride, region) = (BYTE, 0, 5);
    let table = [
        (Rec::ClientActiveTexture { texture: 0x84C1 }, None),
        (
            Rec::TexCoordPointer {
                size: 2,
                kind,
                stride,
                region,
                offset: 1,
            },
            None,
        ),
        (Rec::EnableClientState { array: 0x8078 }, None),
        (Rec::ClientActiveTexture { texture: 0x84C2 }, ENUM),
    ];
    run(&rt, &mut arrays, &table);
    assert!(rt; arrays.enabled(ArrayKind::TextureCoord));
    let second = four([-65536, 8323072, 0, 65536]);
    let vertex = fetch(&arrays, &buffers, &regions, &CURRENT, 0);
    let want = Attribs {
        tex: [CURRENT.tex[0], second],
        ..CURRENT
    };
    assert_eq!(rt; vertex, want);
    arrays.set(&Rec::ClientActiveTexture { texture: 0x84C0 }, None);
    assert!(rt; !arrays.enabled(ArrayKind::TextureCoord));
    // the first unit's array lies as at the start, in a region with no bytes
    arrays.set(&Rec::EnableClientState { array: 0x8078 }, None);
    let vertex = fetch(&arrays, &buffers, &regions, &CURRENT, 0);
    let want = Attribs {
        tex: [four([0, 0, 0, 0]), second],
        ..CURRENT
    };
    assert_eq!(rt; vertex, want);
    arrays.set(&Rec::DisableClientState { array: 0x8078 }, None);
    assert!(rt; !arrays.enabled(ArrayKind::TextureCoord));
    arrays.set(&Rec::ClientActiveTexture { texture: 0x84C1 }, None);
    assert!(rt; arrays.enabled(ArrayKind::TextureCoord));
    Ok(())
}

fn coordinates(size: i32, kind: u32, stride: i32, region: u32) -> Rec {
    Rec::TexCoordPointer {
        size,
        kind,
        stride,
        region,
        offset: 0,
    }
}

fn colored(size: i32, kind: u32, stride: i32, region: u32) -> Rec {
    Rec::ColorPointer {
        size,
        kind,
        stride,
        region,
        offset: 0,
    }
}

fn normal(kind: u32, stride: i32, region: u32) -> Rec {
    Rec::NormalPointer {
        kind,
        stride,
        region,
        offset: 0,
    }
}

#[test]
fn errors_in_their_order(rt: HostRuntime) {
    let table = [
        (coordinates(1, 0, -1, 16), VALUE),
        (coordinates(5, BYTE, 0, 0), VALUE),
        (coordinates(2, UNSIGNED_BYTE, -1, 16), ENUM),
        (coordinates(4, SHORT, -1, 0), VALUE),
        (coordinates(4, SHORT, i32::MAX, 16), VALUE),
        (coordinates(4, SHORT, i32::MAX, 15), None),
        (normal(UNSIGNED_SHORT, -1, 16), ENUM),
        (normal(FIXED, -1, 0), VALUE),
        (normal(FIXED, 0, 16), VALUE),
        (colored(3, SHORT, -1, 16), VALUE),
        (colored(4, BYTE, -1, 16), ENUM),
        (colored(4, FIXED, i32::MIN, 0), VALUE),
        (colored(4, FIXED, 0, u32::MAX), VALUE),
        (Rec::EnableClientState { array: 0x8077 }, ENUM),
        (Rec::DisableClientState { array: 0x8073 }, ENUM),
        (Rec::Swap, None),
    ];
    run(&rt, &mut Arrays::new(), &table);
}

#[test]
fn indices(rt: HostRuntime) -> Result<(), Fail> {
    let regions = regions(rt.alloc())?;
    let buffers = Buffers::new(rt.alloc());
    let first = i32::MAX;
    let count = 1 << 22;
    let draw = Rec::DrawArrays {
        mode: 6,
        first,
        count,
    };
    assert_eq!(rt; draw_error(&draw, None), None);
    assert_eq!(rt;
        index_at(&draw, None, &buffers, &regions, (1 << 22) - 1),
        0x803F_FFFE
    );
    // type, offset, the vertex of the draw, and its index
    let table = [
        (UNSIGNED_BYTE, 0, 0, 0x80),
        (UNSIGNED_BYTE, 8, 1, 0x12),
        (UNSIGNED_BYTE, 16, 1, 0),
        (UNSIGNED_SHORT, 0, 0, 0xFF80),
        (UNSIGNED_SHORT, 3, 2, 0x34FF),
        (UNSIGNED_SHORT, 14, 1, 2),
        (UNSIGNED_SHORT, u32::MAX, 3, 0),
    ];
    for (kind, offset, k, want) in table {
        let draw = Rec::DrawElements {
            mode: 0,
            count: 4,
            kind,
            region: 5,
            offset,
        };
        assert_eq!(rt;
            index_at(&draw, None, &buffers, &regions, k),
            want,
            "{kind} at {offset}, vertex {k}"
        );
    }
    Ok(())
}

fn elements(mode: u32, count: i32, kind: u32, region: u32) -> Rec {
    Rec::DrawElements {
        mode,
        count,
        kind,
        region,
        offset: 0,
    }
}

#[test]
fn errors_of_draws(rt: HostRuntime) {
    let table = [
        (elements(7, -1, BYTE, 16), ENUM),
        (elements(6, -1, BYTE, 16), VALUE),
        (elements(6, (1 << 22) + 1, BYTE, 16), VALUE),
        (elements(6, 1 << 22, SHORT, 16), ENUM),
        (elements(6, 0, UNSIGNED_SHORT, 16), VALUE),
        (elements(6, 0, UNSIGNED_SHORT, 15), None),
        (Rec::Swap, None),
    ];
    for (rec, error) in &table {
        assert_eq!(rt; draw_error(rec, None), *error);
    }
}
