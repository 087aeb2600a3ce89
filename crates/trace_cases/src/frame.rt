//! The chunks of an output.
ghost use Rattle.std.specs.Prelude.{◌<◌, length, IfSome};
ghost use Rattle.trace_cases.specs.Frames.{BeginsWith};

use byteorder::{ByteOrder, LittleEndian};
use gl_records::Size;

/// A presented frame.
#[derive(Clone, Copy, Debug)]
pub struct Frame<'a> {
    /// The index of the record that presented it.
    pub index: u32,
    pub size: Size,
    /// R G B A by rows, the bottom row first.
    pub pixels: &'a [u8],
}

/// The frame at the head of an output, and what follows it. None where no whole frame stands there.
pub fn first_frame(bytes: &[u8]) -> Option<(Frame<'_>, &[u8])>
    ensures spelled { IfSome result (λ found. BeginsWith bytes.now found.0.index found.0.size found.0.pixels.now found.1.now) }
    ensures shorter { IfSome result (λ found. length found.1.now < length bytes.now) }
{
    if bytes.len() < 12 || !bytes.starts_with(b"GLF1") {
        return None;
    }
    let index = LittleEndian::read_u32(&bytes[4..]);
    let w = LittleEndian::read_u16(&bytes[8..]);
    let h = LittleEndian::read_u16(&bytes[10..]);
    let rest = &bytes[12..];
    let length = 4 * usize::from(w) * usize::from(h);
    if rest.len() < length {
        return None;
    }
    let (pixels, rest) = rest.split_at(length);
    let frame = Frame {
        index,
        size: Size { w, h },
        pixels,
    };
    Some((frame, rest))
}
