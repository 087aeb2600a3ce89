//! A run over memory.
ghost use Rattle.std.specs.Prelude.{[], Some};
ghost use Rattle.output_format.specs.Answer.{IsAnswer, Grew, status_of};
ghost use Rattle.draw_front.specs.Immediate.{frames_of, log_of};

use immediate_renderer::play;
use outer_io::{NeverSink, NeverSource};
use output_format::Status;
use std::alloc::Global;
use std::thread::Threads;

/// How a run ended, and what it wrote.
#[derive(Drop)]
pub struct Played {
    pub status: Status,
    pub frames: NeverSink,
    pub log: NeverSink,
}

/// Plays the bytes of a trace.
pub fn play_bytes<R: Threads>(rt: &R, alloc: Global, bytes: Vec<u8>) -> Played
    ensures status { IsAnswer result.status (status_of bytes.items) }
    ensures frames { Grew result.status (Some []) (Some result.frames) (frames_of bytes.items) }
    ensures log { Grew result.status (Some []) (Some result.log) (log_of bytes.items) }
{
    let mut trace = NeverSource::new(bytes);
    let mut frames = NeverSink::new(alloc);
    let mut log = NeverSink::new(alloc);
    match play(rt, alloc, &mut trace, &mut frames, &mut log) {
        Ok(status) => Played {
            status,
            frames,
            log,
        },
        Err(fault) => Played {
            status: fault.status(),
            frames,
            log,
        },
    }
}
