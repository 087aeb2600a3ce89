//! The commands of a trace, one row each, in groups by subject.
ghost use Rattle.std.specs.Prelude.{◌≡◌, ◌≤◌, ◌++◌, false, true, IfErr, IfOk, IfSome};
ghost use Rattle.trace_reader.specs.Command.{with_words};
ghost use Rattle.trace_reader.specs.Lists.{brings_list, words_bytes, words_from as list_from};
ghost use Rattle.trace_reader.specs.Shape.{words_of, has_piece};
ghost use Rattle.trace_reader.specs.Textures.{brings_texels};
ghost use Rattle.trace_reader.specs.Table.{row as row_of, piece_of as record_piece, with_piece as record_with_piece};

pub mod arrays;
pub mod blending;
pub mod buffers;
pub mod clears;
pub mod control;
pub mod current;
pub mod environments;
pub mod fragment_tests;
pub mod lighting;
pub mod matrices;
pub mod pixels;
pub mod raster;
pub mod switches;
pub mod textures;

use crate::shape::Shape;
use crate::words::Words;
use byteorder::{ByteOrder, LittleEndian};
use gl_records::{Bytes, Rec, Words as Names};
use std::alloc::{AllocError, Global};

/// The row of an opcode, and the record that the payload's words make. A piece is empty there.
pub fn row(alloc: Global, opcode: u16, n: &Words) -> Option<(Shape, Rec)>
    ensures row { result ≡ with_words n.now (row_of opcode) }
    ensures short { IfSome result (λ found. words_of found.0 ≤ 16) }
    ensures listed { IfSome result (λ found. brings_list found.1 ≡ true → has_piece found.0 ≡ true) }
{
    if opcode < 0x08 {
        control::row(opcode, n)
    } else if opcode < 0x09 {
        buffers::row(alloc, opcode, n)
    } else if opcode < 0x10 {
        textures::row(alloc, opcode, n)
    } else if opcode < 0x18 {
        arrays::row(alloc, opcode, n)
    } else if opcode < 0x1D {
        current::row(opcode, n)
    } else if opcode < 0x20 {
        arrays::row(alloc, opcode, n)
    } else if opcode < 0x28 {
        buffers::row(alloc, opcode, n)
    } else if opcode < 0x38 {
        matrices::row(opcode, n)
    } else if opcode < 0x48 {
        raster::row(opcode, n)
    } else if opcode < 0x50 {
        switches::row(opcode, n)
    } else if opcode < 0x58 {
        lighting::row(opcode, n)
    } else if opcode < 0x5E {
        fragment_tests::row(opcode, n)
    } else if opcode < 0x61 {
        blending::row(opcode, n)
    } else if opcode < 0x62 {
        fragment_tests::row(opcode, n)
    } else if opcode < 0x70 {
        clears::row(opcode, n)
    } else if opcode < 0x7A {
        textures::row(alloc, opcode, n)
    } else if opcode < 0x7B {
        environments::row(opcode, n)
    } else {
        pixels::row(opcode, n)
    }
}

/// The words that these bytes are, the lowest byte first.
fn words_from(alloc: Global, bytes: &[u8]) -> Result<Names, AllocError>
    ensures { IfOk result (λ names. names ≡ list_from bytes.now) }
{
    let mut words = vec![in alloc; 0; bytes.len() / 4]?;
    LittleEndian::read_u32_into(&bytes[..4 * words.len()], &mut words);
    Ok(Names::new(words))
}

/// The record with these bytes as its piece, where it has one; it is no image's.
fn with_bytes(rec: Rec, piece: Bytes) -> Rec
    requires list { brings_list rec ≡ false }
    requires texels { brings_texels rec ≡ false }
    ensures { result ≡ record_with_piece piece rec }
{
    match rec {
        Rec::ClientBytes { region, .. } => Rec::ClientBytes { region, piece },
        Rec::BufferData {
            target,
            usage,
            size,
            ..
        } => Rec::BufferData {
            target,
            usage,
            size,
            piece,
        },
        Rec::BufferSubData {
            target,
            offset,
            size,
            ..
        } => Rec::BufferSubData {
            target,
            offset,
            size,
            piece,
        },
        rec => rec,
    }
}

/// The record with these bytes as its piece, where it has one; they may be texels.
fn with_texels(rec: Rec, piece: Bytes) -> Rec
    requires { brings_list rec ≡ false }
    ensures { result ≡ record_with_piece piece rec }
{
    match rec {
        Rec::TexImage2D {
            target,
            level,
            internal,
            width,
            height,
            border,
            format,
            kind,
            ..
        } => Rec::TexImage2D {
            target,
            level,
            internal,
            width,
            height,
            border,
            format,
            kind,
            piece,
        },
        Rec::TexSubImage2D {
            target,
            level,
            x,
            y,
            width,
            height,
            format,
            kind,
            ..
        } => Rec::TexSubImage2D {
            target,
            level,
            x,
            y,
            width,
            height,
            format,
            kind,
            piece,
        },
        Rec::CompressedTexImage2D {
            target,
            level,
            internal,
            width,
            height,
            border,
            size,
            ..
        } => Rec::CompressedTexImage2D {
            target,
            level,
            internal,
            width,
            height,
            border,
            size,
            piece,
        },
        rec => with_bytes(rec, piece),
    }
}

/// The record with this piece, where it has one. Only a list of words takes memory of its own.
pub fn with_piece(alloc: Global, rec: Rec, piece: Bytes) -> Result<Rec, AllocError>
    ensures with { IfOk result (λ whole. whole ≡ record_with_piece piece rec) }
    ensures list { IfErr result (λ _. brings_list rec ≡ true) }
{
    match rec {
        Rec::DeleteBuffers { .. } => Ok(Rec::DeleteBuffers {
            names: words_from(alloc, piece.as_slice())?,
        }),
        Rec::DeleteTextures { .. } => Ok(Rec::DeleteTextures {
            names: words_from(alloc, piece.as_slice())?,
        }),
        rec => Ok(with_texels(rec, piece)),
    }
}

/// The piece of a record in two parts, its list of words and its bytes; none where it has none.
pub fn piece_of(rec: &Rec) -> (&[u32], &[u8])
    ensures { words_bytes result.0.now ++ result.1.now ≡ record_piece rec.now }
{
    match rec {
        Rec::DeleteBuffers { names } => (names.as_slice(), b""),
        Rec::DeleteTextures { names } => (names.as_slice(), b""),
        Rec::ClientBytes { piece, .. } => (&[], piece.as_slice()),
        Rec::BufferData { piece, .. } => (&[], piece.as_slice()),
        Rec::BufferSubData { piece, .. } => (&[], piece.as_slice()),
        Rec::TexImage2D { piece, .. } => (&[], piece.as_slice()),
        Rec::TexSubImage2D { piece, .. } => (&[], piece.as_slice()),
        Rec::CompressedTexImage2D { piece, .. } => (&[], piece.as_slice()),
        _ => (&[], b""),
    }
}
