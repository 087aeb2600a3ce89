//! What stands before the pixels of a chunk.
ghost use Rattle.std.specs.Prelude.{◌≡◌};
ghost use Rattle.output_format.specs.Frames.{frame_header as header_of};

use byteorder::{ByteOrder, LittleEndian};
use gl_records::Size;

/// The twelve bytes before a frame's pixels: `GLF1`, the record's index, the width and the height.
pub fn frame_header(index: u32, size: Size) -> [u8; 12]
    ensures { result ≡ header_of index size }
{
    let mut bytes = *b"GLF1\0\0\0\0\0\0\0\0";
    LittleEndian::write_u32(&mut bytes[4..], index);
    LittleEndian::write_u16(&mut bytes[8..], size.w);
    LittleEndian::write_u16(&mut bytes[10..], size.h);
    bytes
}
