//! Playing a trace, from its header to its ending.
ghost use Rattle.std.specs.Prelude.{◌≡◌, ◌⊎◌, ◌*◌, ◌^◌, ◌≤◌, Err, IfOk, IfSome};
ghost use Rattle.outer_io.specs.Faults.{Rose};
ghost use Rattle.trace_reader.specs.Reading.{tail_of};
ghost use Rattle.trace_reader.specs.Trace.{trace_of};
ghost use Rattle.trace_reader.specs.declared.stage.Stage.TheVariants.{Reading};
ghost use Rattle.output_format.specs.Answer.{Puts, Plays, PlaysOutcome};
ghost use Rattle.draw_front.specs.Immediate.{output_of_tail, frames_of, log_of};
ghost use Rattle.immediate_renderer.specs.Settled.{IsSettled, playing};

use crate::player::Player;
use draw_front::Step;
use outer_io::{Sink, Source};
use output_format::{Fault, Status, put_end, put_stop};
use std::alloc::Global;
use std::thread::Threads;
use trace_reader::Reader;

/// Plays the trace: puts the frames and the log of the immediate renderer, or after a fault a front of each.
pub fn play<R: Threads, S: Source, F: Sink, L: Sink>(
    rt: &R,
    alloc: Global,
    trace: &mut S,
    frames: &mut F,
    log: &mut L,
) -> Result<Status, Fault>
    ensures frames { IfSome (S.rest trace.old) (λ bytes. Puts result (F.held frames.old) (F.held frames.new) (frames_of bytes)) }
    ensures log { IfSome (S.rest trace.old) (λ bytes. Puts result (L.held log.old) (L.held log.new) (log_of bytes)) }
    ensures outcome { IfSome (S.rest trace.old) (λ bytes. PlaysOutcome (trace_of bytes) result (S.rest trace.new)) }
    ensures ended { IfOk result (λ status. (status ≡ Status.Done) ⊎ (status ≡ Status.Refused)) }
    ensures read_fault { result ≡ Err Fault.ReadFault → Rose (S.faults trace.old) (S.faults trace.new) }
    ensures write_fault { result ≡ Err Fault.WriteFault
        → Rose (F.faults frames.old) (F.faults frames.new) ⊎ Rose (L.faults log.old) (L.faults log.new) }
    ensures trace_faults { S.faults trace.old ≤ S.faults trace.new }
    ensures frames_faults { F.faults frames.old ≤ F.faults frames.new }
    ensures log_faults { L.faults log.old ≤ L.faults log.new }
{
    let (mut reader, size) = match Reader::start(alloc, trace) {
        Ok(begun) => begun,
        Err(end) => return put_stop(alloc, log, end),
    };
    let mut player = Player::new(alloc, size)?;
    let played = play_records(rt, alloc, &mut reader, &mut player, trace, frames, log);
    drop(player);
    played
}

/// Puts what the rest of the trace makes, its last line included.
fn play_records<R: Threads, S: Source, F: Sink, L: Sink>(
    rt: &R,
    alloc: Global,
    reader: &mut Reader,
    player: &mut Player,
    trace: &mut S,
    frames: &mut F,
    log: &mut L,
) -> Result<Status, Fault>
    requires reading { reader.old.stage ≡ Reading }
    requires counted { 8 * player.old.front.index ≤ reader.old.offset }
    requires settled { IsSettled player.old.front player.old.surface }
    requires within { reader.old.offset ≤ 2 ^ 28 }
    ensures frames { IfSome (S.rest trace.old) (λ bytes.
        Puts result (F.held frames.old) (F.held frames.new) (output_of_tail (playing player.old.front player.old.surface) (tail_of reader.old bytes)).frames) }
    ensures log { IfSome (S.rest trace.old) (λ bytes.
        Puts result (L.held log.old) (L.held log.new) (output_of_tail (playing player.old.front player.old.surface) (tail_of reader.old bytes)).log) }
    ensures ending { IfSome (S.rest trace.old) (λ bytes. Plays (tail_of reader.old bytes).ending result (S.rest trace.new)) }
    ensures ended { IfOk result (λ status. (status ≡ Status.Done) ⊎ (status ≡ Status.Refused)) }
    ensures read_fault { result ≡ Err Fault.ReadFault → Rose (S.faults trace.old) (S.faults trace.new) }
    ensures write_fault { result ≡ Err Fault.WriteFault
        → Rose (F.faults frames.old) (F.faults frames.new) ⊎ Rose (L.faults log.old) (L.faults log.new) }
    ensures trace_faults { S.faults trace.old ≤ S.faults trace.new }
    ensures frames_faults { F.faults frames.old ≤ F.faults frames.new }
    ensures log_faults { L.faults log.old ≤ L.faults log.new }
{
    'records: loop {
        let rec = match reader.next(trace) {
            Ok(rec) => rec,
            Err(end) => return put_stop(alloc, log, end),
        };
        if let Step::Ended = player.run(rt, rec, frames, log)? {
            put_end(alloc, log, player.front.index())?;
            return Ok(Status::Done);
        }
    }
}
