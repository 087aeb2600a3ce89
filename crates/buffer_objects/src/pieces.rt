//! Pieces of commands as the bytes that they ask for.
ghost use Rattle.std.specs.Prelude.{◌≡◌, ◌≤◌, ◌+◌, IfOk, length};
ghost use Rattle.buffer_objects.specs.Commands.{sized as sized_of, spliced as spliced_of};

use gl_records::Bytes;
use std::alloc::{AllocError, Global};

/// So many bytes: those of the piece, zeros past its end. Where it has as many, none is copied.
pub(crate) fn sized(alloc: Global, piece: Bytes, size: usize) -> Result<Bytes, AllocError>
    ensures { IfOk result (λ bytes. bytes ≡ sized_of size piece) }
{
    if piece.as_slice().len() == size {
        return Ok(piece);
    }
    let given = piece.as_slice();
    let mut bytes = Vec::with_capacity(alloc, size)?;
    if given.len() < size {
        bytes.extend_from_slice(given)?;
    } else {
        bytes.extend_from_slice(&given[..size])?;
    }
    bytes.resize(size, 0)?;
    Ok(Bytes::new(bytes))
}

/// All of these bytes are those of the piece from now on, zeros past its end.
pub(crate) fn write(bytes: &mut [u8], piece: &[u8])
    ensures { bytes.new ≡ sized_of (length bytes.old) piece.now }
{
    let size = bytes.len();
    if piece.len() < size {
        bytes[..piece.len()].copy_from_slice(piece);
        bytes[piece.len()..].fill(0);
    } else {
        bytes.copy_from_slice(&piece[..size]);
    }
}

/// The bytes, with so many of them, from a place on, those of the piece, zeros past its end. No memory is taken.
pub(crate) fn spliced(bytes: Vec<u8>, place: usize, size: usize, piece: &[u8]) -> Bytes
    requires { place + size ≤ length bytes.items }
    ensures { result ≡ spliced_of bytes.items place (sized_of size piece.now) }
{
    let mut bytes = bytes;
    splice(&mut bytes, place, size, piece);
    Bytes::new(bytes)
}

fn splice(bytes: &mut [u8], place: usize, size: usize, piece: &[u8])
    requires { place + size ≤ length bytes.old }
    ensures { bytes.new ≡ spliced_of bytes.old place (sized_of size piece.now) }
{
    write(&mut bytes[place..place + size], piece);
}
