//! Traces as bytes, and runs over memory.

use crate::top_call::glplay;
use outer_io::{NeverSink, NeverSource, NoGate};
use output_format::Status;
use std::alloc::AllocError;
use std::thread::Threads;

/// A trace of 1 by 1: a red clear colour, Clear, Swap, End.
pub const RED: [u8; 60] = [
    0x47, 0x4c, 0x54, 0x31, 1, 0, 1, 0, // GLT1, 1 by 1
    0x62, 0, 0, 0, 16, 0, 0, 0, 0, 0, 1, 0, 0, 0, 0, 0, 0, 0, 0, 0, 0, 0, 1, 0, // ClearColorx
    0x65, 0, 0, 0, 4, 0, 0, 0, 0, 0x40, 0, 0, // Clear
    2, 0, 0, 0, 0, 0, 0, 0, // Swap
    1, 0, 0, 0, 0, 0, 0, 0, // End
];

/// A trace of 3 by 2 with two frames, and a Clear with an error between them.
pub const TWO_FRAMES: [u8; 80] = [
    0x47, 0x4c, 0x54, 0x31, 3, 0, 2, 0, // GLT1, 3 by 2
    2, 0, 0, 0, 0, 0, 0, 0, // Swap
    0x62, 0, 0, 0, 16, 0, 0, 0, 0, 0, 1, 0, 0, 0, 0, 0, 0, 0, 0, 0, 0, 0, 1, 0, // ClearColorx
    0x65, 0, 0, 0, 4, 0, 0, 0, 0, 0x40, 0, 0, // Clear
    0x65, 0, 0, 0, 4, 0, 0, 0, 0, 0x80, 0, 0, // Clear, of no buffer
    2, 0, 0, 0, 0, 0, 0, 0, // Swap
    1, 0, 0, 0, 0, 0, 0, 0, // End
];

/// A trace of 3 by 2 with a triangle over half of it, and a draw with an error.
pub const DRAWN: [u8; 140] = [
    0x47, 0x4c, 0x54, 0x31, 3, 0, 2, 0, // GLT1, 3 by 2
    0x10, 0, 0, 0, 28, 0, 0, 0, 0, 0, 0, 0, // ClientBytes, of region 0
    0, 0, 0xff, 0xff, 0, 0, 0xff, 0xff, // -1 -1
    0, 0, 1, 0, 0, 0, 0xff, 0xff, // 1 -1
    0, 0, 0xff, 0xff, 0, 0, 1, 0, // -1 1
    0x11, 0, 0, 0, 20, 0, 0, 0, 2, 0, 0, 0, 0x0c, 0x14, 0, 0, // VertexPointer, 2 FIXED
    0, 0, 0, 0, 0, 0, 0, 0, 0, 0, 0, 0, // stride, region, offset
    0x15, 0, 0, 0, 4, 0, 0, 0, 0x74, 0x80, 0, 0, // EnableClientState
    0x1d, 0, 0, 0, 12, 0, 0, 0, 4, 0, 0, 0, 0, 0, 0, 0, 3, 0, 0, 0, // DrawArrays TRIANGLES 0 3
    0x1d, 0, 0, 0, 12, 0, 0, 0, 7, 0, 0, 0, 0, 0, 0, 0, 3, 0, 0, 0, // DrawArrays of no mode
    2, 0, 0, 0, 0, 0, 0, 0, // Swap
    1, 0, 0, 0, 0, 0, 0, 0, // End
];

/// A trace of 3 by 2 that ends within the head of its third record.
pub const REFUSED: [u8; 29] = [
    0x47, 0x4c, 0x54, 0x31, 3, 0, 2, 0, // GLT1, 3 by 2
    2, 0, 0, 0, 0, 0, 0, 0, // Swap
    0x65, 0, 0, 0, 4, 0, 0, 0, 1, 0, 0, 0, // Clear, of no buffer
    0, // a byte
];

/// What a run over memory left.
#[derive(Drop)]
pub struct Played {
    pub status: Status,
    pub frames: NeverSink,
    pub log: NeverSink,
}

/// Runs the words over the bytes of a trace.
pub fn run<R: Threads + AllocGlobal>(
    rt: &R,
    words: &[&str],
    bytes: &[u8],
) -> Result<Played, AllocError> {
    let alloc = rt.alloc();
    let mut owned = Vec::new(alloc);
    for word in words {
        owned.push(String::from_str(alloc, word)?)?;
    }
    let mut trace = NeverSource::new(Vec::from_slice(alloc, bytes)?);
    let mut frames = NeverSink::new(alloc);
    let mut log = NeverSink::new(alloc);
    let status = glplay(
        rt,
        alloc,
        &owned,
        &mut trace,
        &mut frames,
        &mut log,
        &NoGate,
    );
    Ok(Played {
        status,
        frames,
        log,
    })
}
