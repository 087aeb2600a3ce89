//! Names, bindings and bytes, in tables worked out by hand from the commands' rules.
use super::*;
use gl_records::Bytes;
use gl_tokens::{BufferTarget, GlError};
use std::alloc::{AllocError, Global};
use std::test::Fail;

const ENUM: Option<GlError> = Some(GlError::InvalidEnum);

const VALUE: Option<GlError> = Some(GlError::InvalidValue);

const OPERATION: Option<GlError> = Some(GlError::InvalidOperation);

const MEMORY: Option<GlError> = Some(GlError::OutOfMemory);

const ARRAY: u32 = 0x8892;

const ELEMENTS: u32 = 0x8893;

const STATIC: u32 = 0x88E4;

fn piece(alloc: Global, bytes: &[u8]) -> Result<Bytes, AllocError> {
    Ok(Bytes::new(Vec::from_slice(alloc, bytes)?))
}

#[test]
fn names_are_the_least_free(rt: HostRuntime) -> Result<(), Fail> {
    let mut buffers = Buffers::new(rt.alloc());
    // names that are deleted, one that is bound, how many are asked for, and which are given
    let table: [(&[u32], u32, i32, &[u32]); 6] = [
        (&[], 0, 2, &[1, 2]),
        (&[], 0, 0, &[]),
        (&[1], 5, 3, &[1, 3, 4]),
        (&[2, 0, 2, 9], 7, 2, &[2, 6]),
        (&[7, 3, 1], 1, 2, &[3, 7]),
        (&[4, 5, 6], 6, 3, &[4, 5, 8]),
    ];
    for (gone, bound, count, want) in table {
        buffers.drop_names(gone);
        assert_eq!(rt; buffers.bind(ARRAY, bound)?, None);
        match buffers.make_names(count)? {
            Ok(names) => assert_eq!(rt; names.as_slice(), want),
            Err(error) => assert_eq!(rt; Some(error), None),
        }
    }
    Ok(())
}

#[test]
fn names_up_to_their_limit(rt: HostRuntime) -> Result<(), Fail> {
    let mut buffers = Buffers::new(rt.alloc());
    // how many are asked for, and the error
    let table = [
        (-1, VALUE),
        (i32::MIN, VALUE),
        (65537, VALUE),
        (2, None),
        (65536, MEMORY),
        (65535, MEMORY),
        (65534, None),
        (0, None),
        (1, MEMORY),
        (65537, VALUE),
    ];
    for (count, want) in table {
        assert_eq!(rt; buffers.make_names(count)?.err(), want, "{count}");
    }
    // a name, and the error where it is bound
    for (name, want) in [(65537, MEMORY), (65536, None), (0, None), (70000, MEMORY)] {
        assert_eq!(rt; buffers.bind(ARRAY, name)?, want, "{name}");
    }
    buffers.drop_names(&[3]);
    assert_eq!(rt; buffers.bind(ARRAY, 70000)?, None);
    assert_eq!(rt; buffers.bind(ARRAY, 3)?, MEMORY);
    assert_eq!(rt; buffers.binding(BufferTarget::Array), 70000);
    Ok(())
}

#[test]
fn bound_and_deleted(rt: HostRuntime) -> Result<(), Fail> {
    let mut buffers = Buffers::new(rt.alloc());
    buffers.make_names(3)?.err();
    // a target, the name that is bound to it, the error, names that are deleted then, and what is bound behind it
    let table: [(u32, u32, Option<GlError>, &[u32], u32, u32); 8] = [
        (ARRAY, 2, None, &[], 2, 0),
        (0x8894, 1, ENUM, &[], 2, 0),
        (ELEMENTS, 2, None, &[1, 3], 2, 2),
        (ELEMENTS, 9, None, &[0], 2, 9),
        (ELEMENTS, 9, None, &[2, 2], 0, 9),
        (ARRAY, 9, None, &[8], 9, 9),
        (ARRAY, 9, None, &[9, 0, 9], 0, 0),
        (ARRAY, 0, None, &[0], 0, 0),
    ];
    for (target, name, error, gone, array, elements) in table {
        assert_eq!(rt; buffers.bind(target, name)?, error);
        buffers.drop_names(gone);
        assert_eq!(rt; buffers.binding(BufferTarget::Array), array);
        assert_eq!(rt; buffers.binding(BufferTarget::ElementArray), elements);
        assert_eq!(rt; buffers.bound(ARRAY).is_none(), array == 0);
        assert_eq!(rt; buffers.is_buffer(array), array != 0);
    }
    buffers.make_names(2)?.err();
    assert!(rt; !buffers.is_buffer(1));
    assert_eq!(rt; buffers.bind(ARRAY, 1)?, None);
    assert!(rt; buffers.is_buffer(1));
    Ok(())
}

#[test]
fn bytes_of_an_object(rt: HostRuntime) -> Result<(), Fail> {
    let alloc = rt.alloc();
    let mut buffers = Buffers::new(alloc);
    // BufferData: target, usage, size, and the error where nothing is bound
    let table = [
        (0x8891, 0, -1, ENUM),
        (ARRAY, 0x88E0, -1, ENUM),
        (ELEMENTS, STATIC, -1, VALUE),
        (ARRAY, 0x88E8, 4, OPERATION),
    ];
    for (target, usage, size, want) in table {
        assert_eq!(rt;
            buffers.fill(target, usage, size, piece(alloc, b"abcd")?)?,
            want
        );
    }
    assert_eq!(rt; buffers.sub(ARRAY, 0, 0, b"ab"), OPERATION);
    assert_eq!(rt; buffers.bind(ARRAY, 1)?, None);
    assert!(rt; buffers.bound(ARRAY).is_some());
    let Some((_, key)) = buffers.bound(ARRAY) else {
        return Ok(());
    };
    // BufferData: size and piece, then the bytes
    let table: [(i32, &[u8], &[u8]); 5] = [
        (4, b"abcd", b"abcd"),
        (2, b"wxyz", b"wx"),
        (0, b"q", b""),
        (5, b"pqr", b"pqr\0\0"),
        (4, b"", b"\0\0\0\0"),
    ];
    for (size, given, want) in table {
        assert_eq!(rt;
            buffers.fill(ARRAY, STATIC, size, piece(alloc, given)?)?,
            None
        );
        assert_eq!(rt; buffers.bytes(key), want);
    }
    // BufferSubData of these four bytes: target, offset, size, piece, the error, and the bytes behind it
    let table: [(u32, i32, i32, &[u8], Option<GlError>, &[u8]); 9] = [
        (ARRAY, 2, 2, b"xy", None, b"\0\0xy"),
        (ARRAY, 3, 2, b"uv", VALUE, b"\0\0xy"),
        (ARRAY, 0, 1, b"abc", None, b"a\0xy"),
        (ARRAY, 1, 3, b"b", None, b"ab\0\0"),
        (ARRAY, 4, 0, b"c", None, b"ab\0\0"),
        (ARRAY, 5, 0, b"", VALUE, b"ab\0\0"),
        (ARRAY, -1, 2, b"", VALUE, b"ab\0\0"),
        (0, -1, -1, b"", ENUM, b"ab\0\0"),
        (ELEMENTS, 0, 1, b"z", OPERATION, b"ab\0\0"),
    ];
    for (target, offset, size, given, error, want) in table {
        assert_eq!(rt;
            buffers.sub(target, offset, size, given),
            error,
            "{offset} {size}"
        );
        assert_eq!(rt; buffers.bytes(key), want, "{offset} {size}");
    }
    Ok(())
}

#[test]
fn a_key_names_one_object(rt: HostRuntime) -> Result<(), Fail> {
    let alloc = rt.alloc();
    let mut buffers = Buffers::new(alloc);
    buffers.bind(ARRAY, 4)?;
    assert!(rt; buffers.bound(ARRAY).is_some());
    let Some((name, old)) = buffers.bound(ARRAY) else {
        return Ok(());
    };
    assert_eq!(rt; (name, old.name()), (4, 4));
    buffers.fill(ARRAY, STATIC, 2, piece(alloc, b"ab")?)?;
    buffers.bind(ARRAY, 0)?;
    assert_eq!(rt; buffers.bytes(old), b"ab".as_slice());
    buffers.drop_names(&[4]);
    assert!(rt; buffers.bytes(old).is_empty());
    buffers.bind(ELEMENTS, 4)?;
    assert!(rt; buffers.bound(ELEMENTS).is_some());
    let Some((_, new)) = buffers.bound(ELEMENTS) else {
        return Ok(());
    };
    buffers.fill(ELEMENTS, STATIC, 2, piece(alloc, b"cd")?)?;
    assert!(rt; buffers.bytes(old).is_empty());
    assert_eq!(rt; buffers.bytes(new), b"cd".as_slice());
    assert!(rt; old != new);
    Ok(())
}

#[test]
fn bytes_up_to_their_limit(rt: HostRuntime) -> Result<(), Fail> {
    let alloc = rt.alloc();
    let mut buffers = Buffers::new(alloc);
    // a name, a size, and the error: 2^26 bytes may be live
    let table = [
        (1, 67108865, MEMORY),
        (1, i32::MAX, MEMORY),
        (1, 67108860, None),
        (2, 5, MEMORY),
        (2, 4, None),
        (2, 4, None),
        (2, 5, MEMORY),
        (1, 67108861, MEMORY),
        (3, 1, MEMORY),
        (3, 0, None),
        (1, 60, None),
        (2, 5, None),
        (3, 67108800, MEMORY),
    ];
    for (name, size, want) in table {
        assert_eq!(rt; buffers.bind(ARRAY, name)?, None);
        let empty = Bytes::new(Vec::new(alloc));
        assert_eq!(rt;
            buffers.fill(ARRAY, STATIC, size, empty)?,
            want,
            "{name} {size}"
        );
    }
    buffers.drop_names(&[2, 2]);
    let empty = Bytes::new(Vec::new(alloc));
    assert_eq!(rt; buffers.fill(ARRAY, STATIC, 67108805, empty)?, MEMORY);
    Ok(())
}
