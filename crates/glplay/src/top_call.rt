//! The one call of the program.
ghost use Rattle.std.specs.Prelude.{◌≡◌, ◌⊎◌, ◌≤◌, [], Some, IfSome};
ghost use Rattle.outer_io.specs.Faults.{Rose};
ghost use Rattle.output_format.specs.Answer.{IsAnswer, Grew, status_of};
ghost use Rattle.draw_front.specs.Immediate.{frames_of, log_of};
ghost use Rattle.output_format.specs.Log.{bad_words_line};
ghost use Rattle.glplay.specs.Words.{IsPlay};

use crate::words::is_play;
use immediate_renderer::play;
use outer_io::{Gate, Sink, Source};
use output_format::{Status, put};
use std::alloc::Global;
use std::thread::Threads;

/// Runs the command that the words say. `play` plays `trace`: it writes to `frames` and to `log` what the
/// immediate renderer writes, which draws each item wholly before the next, up to End or to the place where
/// the trace is malformed.
///
/// What is said of bytes holds where the objects tell them. A status of a fault comes only where that
/// object's count of faults rose in this call; want of memory is free. After either, each output has grown
/// by a front of what it would have grown by.
pub fn glplay<R: Threads, S: Source, F: Sink, L: Sink, G: Gate>(
    rt: &R,
    alloc: Global,
    words: &[String],
    trace: &mut S,
    frames: &mut F,
    log: &mut L,
    _gate: &G,
) -> Status
    // With the words of `play` the bytes of the trace decide.
    ensures status { IsPlay words.now → IfSome (S.rest trace.old) (λ bytes. IsAnswer result (status_of bytes)) }
    ensures frames { IsPlay words.now → IfSome (S.rest trace.old) (λ bytes.
        Grew result (F.held frames.old) (F.held frames.new) (frames_of bytes)) }
    ensures log { IsPlay words.now → IfSome (S.rest trace.old) (λ bytes.
        Grew result (L.held log.old) (L.held log.new) (log_of bytes)) }
    ensures read_whole { result ≡ Status.Done → IfSome (S.rest trace.old) (λ _. S.rest trace.new ≡ Some []) }

    // Other words have their line, and nothing is read.
    ensures bad_words { ¬ IsPlay words.now → IsAnswer result Status.BadWords }
    ensures bad_words_alone { result ≡ Status.BadWords → ¬ IsPlay words.now }
    ensures bad_words_line { ¬ IsPlay words.now → Grew result (L.held log.old) (L.held log.new) bad_words_line }
    ensures bad_words_nothing_else { ¬ IsPlay words.now → (trace.new ≡ trace.old) × (frames.new ≡ frames.old) }

    ensures read_fault { result ≡ Status.ReadFault → Rose (S.faults trace.old) (S.faults trace.new) }
    ensures write_fault { result ≡ Status.WriteFault
        → Rose (F.faults frames.old) (F.faults frames.new) ⊎ Rose (L.faults log.old) (L.faults log.new) }
    ensures trace_faults { S.faults trace.old ≤ S.faults trace.new }
    ensures frames_faults { F.faults frames.old ≤ F.faults frames.new }
    ensures log_faults { L.faults log.old ≤ L.faults log.new }
{
    if is_play(words) {
        match play(rt, alloc, trace, frames, log) {
            Ok(status) => status,
            Err(fault) => fault.status(),
        }
    } else {
        match put(log, b"bad words\n") {
            Ok(()) => Status::BadWords,
            Err(fault) => fault.status(),
        }
    }
}
