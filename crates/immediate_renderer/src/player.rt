//! One record: what it asks for is drawn and put.
ghost use Rattle.std.specs.Prelude.{◌≡◌, ◌≢◌, ◌⊎◌, ◌+◌, ◌^◌, ◌<◌, ◌≤◌, [], Err, IfOk, OnOk, option_to_list};
ghost use Rattle.gl_records.specs.Size.{IsSize};
ghost use Rattle.gl_records.specs.Surface.{IsShaped, drawn};
ghost use Rattle.outer_io.specs.Faults.{Rose};
ghost use Rattle.output_format.specs.Answer.{Puts};
ghost use Rattle.trace_reader.specs.Trace.{is_end};
ghost use Rattle.draw_front.specs.Immediate.{joined};
ghost use Rattle.draw_front.specs.Playing.{call, opening};
ghost use Rattle.immediate_renderer.specs.Settled.{IsSettled, after_record, is_ended, playing, presented};

use crate::frame::put_frame;
use draw_front::{Front, Step};
use gl_records::{Rec, Size};
use outer_io::Sink;
use output_format::{Fault, put};
use std::alloc::{AllocError, Global};
use std::thread::Threads;
use texture_ghosts::Lent;
use whole_surface::Surface;

/// A trace that is being played: the front, and the surface on which its items are drawn.
#[derive(Drop)]
pub struct Player {
    alloc: Global,
    pub front: Front,
    pub surface: Surface,
}

impl Player {
    /// Before the first record.
    pub fn new(alloc: Global, size: Size) -> Result<Player, AllocError>
        requires { IsSize size }
        ensures opening { IfOk result (λ player. playing player.front player.surface ≡ opening size) }
        ensures settled { IfOk result (λ player. IsSettled player.front player.surface) }
    {
        let surface = Surface::new(alloc, size)?;
        let front = Front::new(alloc, size)?;
        Ok(Player {
            alloc,
            front,
            surface,
        })
    }

    /// Runs the record: presents the surface where it asks for that, draws its items, and puts its lines.
    pub fn run<R: Threads, F: Sink, L: Sink>(
        &mut self,
        rt: &R,
        rec: Rec,
        frames: &mut F,
        log: &mut L,
    ) -> Result<Step, Fault>
        requires settled { IsSettled self.old.front self.old.surface }
        requires countable { self.old.front.index + 1 < 2 ^ 32 }
        ensures ran { OnOk result (playing self.new.front self.new.surface ≡ after_record (playing self.old.front self.old.surface) rec) }
        ensures ended { IfOk result (λ step. is_ended step ≡ is_end rec) }
        ensures settled { OnOk result (IsSettled self.new.front self.new.surface) }
        ensures chunk { Puts result (F.held frames.old) (F.held frames.new) (joined (option_to_list (call (playing self.old.front self.old.surface) rec).chunk)) }
        ensures lines { Puts result (L.held log.old) (L.held log.new) (joined (call (playing self.old.front self.old.surface) rec).lines) }
        ensures write_fault { result ≡ Err Fault.WriteFault
            → Rose (F.faults frames.old) (F.faults frames.new) ⊎ Rose (L.faults log.old) (L.faults log.new) }
        ensures no_read_fault { result ≢ Err Fault.ReadFault }
        ensures frames_faults { F.faults frames.old ≤ F.faults frames.new }
        ensures log_faults { L.faults log.old ≤ L.faults log.new }
    {
        let index = self.front.index();
        let lent = Lent::empty(self.alloc);
        let step = self.front.step(rec, &lent)?;
        self.present(step, index, frames)?;
        self.draw_items(rt)?;
        self.put_lines(log)?;
        Ok(step)
    }

    /// Puts the surface as a frame, where the step asks for it.
    fn present<F: Sink>(&self, step: Step, index: u32, frames: &mut F) -> Result<(), Fault>
        requires { IsShaped self.now.front.size self.now.surface }
        ensures chunk { Puts result (F.held frames.old) (F.held frames.new) (presented self.now.front.size self.now.surface index step) }
        ensures write_fault { result ≡ Err Fault.WriteFault → Rose (F.faults frames.old) (F.faults frames.new) }
        ensures no_read_fault { result ≢ Err Fault.ReadFault }
        ensures faults { F.faults frames.old ≤ F.faults frames.new }
    {
        match step {
            Step::Present => put_frame(self.alloc, frames, index, self.front.size(), &self.surface),
            Step::Quiet | Step::Items | Step::Ended => Ok(()),
        }
    }

    /// Draws the items of the record, each wholly before the next.
    fn draw_items<R: Threads>(&mut self, rt: &R) -> Result<(), AllocError>
        requires shaped { IsShaped self.old.front.size self.old.surface }
        ensures drawn { OnOk result (self.new.surface ≡ drawn self.old.front.left self.old.surface) }
        ensures front { OnOk result (self.new.front ≡ record self.old.front { left = [] }) }
        ensures shaped { OnOk result (IsShaped self.new.front.size self.new.surface) }
    {
        let size = self.front.size();
        let lent = Lent::empty(self.alloc);
        'items: while let Some(item) = self.front.next_item(rt, &lent)? {
            let first = self.front.image(&item, 0, &lent);
            let second = self.front.image(&item, 1, &lent);
            self.surface.draw(size, &item, first, second);
        }
        Ok(())
    }

    /// Puts the lines that wait, in one piece.
    fn put_lines<L: Sink>(&mut self, log: &mut L) -> Result<(), Fault>
        ensures lines { Puts result (L.held log.old) (L.held log.new) self.old.front.lines }
        ensures front { self.new.front ≡ record self.old.front { lines = []; line_count = 0 } }
        ensures surface { self.new.surface ≡ self.old.surface }
        ensures write_fault { result ≡ Err Fault.WriteFault → Rose (L.faults log.old) (L.faults log.new) }
        ensures no_read_fault { result ≢ Err Fault.ReadFault }
        ensures faults { L.faults log.old ≤ L.faults log.new }
    {
        let lines = self.front.take_lines();
        if lines.as_slice().is_empty() {
            return Ok(());
        }
        put(log, lines.as_slice())
    }
}
