//! Memory of which some calls fail.
ghost use Rattle.std.specs.Prelude.{◌≡◌, ◌≤◌, [], true, Some, Err, IfOk, IfErr, OnErr, OnOk, take, length, min, is_err};
ghost use Rattle.std.specs.Io.KnownBytes.{Appends, ReadConsumes};
ghost use Rattle.outer_io.specs.Faults.{Rose};
ghost use Rattle.outer_io.specs.Bytes.{PutsAtMost, is_failed};

use crate::never::copy_front;
use crate::sink::{PutFault, Sink};
use crate::source::{Failed, Source};
use std::alloc::Global;
use std::marker::Model;

/// A source over bytes in memory. The calls whose numbers stand in `fails` fail; they are counted from 0.
#[derive(Drop)]
pub struct MemSource {
    bytes: Vec<u8>,
    at: usize,
    calls: u64,
    faults: u64,
    fails: Vec<u64>,
}

impl Model for MemSource {
    ghost use Rattle.std.specs.Prelude.{◌≤◌, drop, vec_len};
    ghost use Rattle.outer_io.specs.Memory.{Memory};

    ghost Value = { Memory };

    ghost view = { λ source. record {
      bytes = drop source.at source.bytes.items;
      calls = source.calls;
      faults = source.faults;
      fails = source.fails.items;
    } };

    ghost invariant = { λ source. source.at ≤ vec_len source.bytes };
}

impl MemSource {
    /// These bytes, from the first on; the calls whose numbers, from 0, are in `fails` are faults.
    pub fn new(bytes: Vec<u8>, fails: Vec<u64>) -> MemSource
        ensures { result ≡ record { bytes = bytes.items; calls = 0; faults = 0; fails = fails.items } }
    {
        MemSource {
            bytes,
            at: 0,
            calls: 0,
            faults: 0,
            fails,
        }
    }
}

impl Source for MemSource {
    ghost use Rattle.outer_io.specs.Memory.{is_listed, failed as failed_call, taken_from};

    ghost rest = { λ source. Some source.bytes };

    ghost faults = { λ source. source.faults };

    /// Fails exactly where this call is listed, and then takes nothing; else it takes as many bytes as there are
    /// and as fit.
    fn take(&mut self, into: &mut [u8]) -> Result<usize, Failed>
        ensures count { IfOk result (λ taken. taken ≤ length into.new) }
        ensures bytes { ReadConsumes (Some self.old.bytes) (Some self.new.bytes) result into.new }
        ensures failed { OnErr result (Rose self.old.faults self.new.faults) }
        ensures faults { self.old.faults ≤ self.new.faults }

        ensures listed { is_err result ≡ is_listed self.old }
        ensures taken { IfOk result (λ taken. taken ≡ min (length self.old.bytes) (length into.new)) }
        ensures after { IfOk result (λ taken. self.new ≡ taken_from self.old taken) }
        ensures after_fault { OnErr result (self.new ≡ failed_call self.old) }
    {
        let call = self.calls;
        self.calls = call.saturating_add(1);
        if self.fails.contains(&call) {
            self.faults = self.faults.saturating_add(1);
            return Err(Failed);
        }
        let taken = copy_front(&self.bytes[self.at..], into);
        self.at += taken;
        Ok(taken)
    }
}

/// A sink into memory. The calls whose numbers stand in `fails` append nothing and fail; they are counted
/// from 0.
#[derive(Drop)]
pub struct MemSink {
    bytes: Vec<u8>,
    calls: u64,
    faults: u64,
    fails: Vec<u64>,
}

impl Model for MemSink {
    ghost use Rattle.outer_io.specs.Memory.{Memory};

    ghost Value = { Memory };

    ghost view = { λ sink. record {
      bytes = sink.bytes.items;
      calls = sink.calls;
      faults = sink.faults;
      fails = sink.fails.items;
    } };
}

impl MemSink {
    /// A sink that holds nothing yet; the calls whose numbers, from 0, are in `fails` are faults.
    pub fn new(alloc: Global, fails: Vec<u64>) -> MemSink
        ensures { result ≡ record { bytes = []; calls = 0; faults = 0; fails = fails.items } }
    {
        MemSink {
            bytes: Vec::new(alloc),
            calls: 0,
            faults: 0,
            fails,
        }
    }

    /// The bytes that were put.
    pub fn bytes(&self) -> &[u8]
        ensures { result.now ≡ self.now.bytes }
    {
        self.bytes.as_slice()
    }
}

impl Sink for MemSink {
    ghost use Rattle.outer_io.specs.Memory.{is_listed, called, failed as failed_call, with_piece};

    ghost held = { λ sink. Some sink.bytes };

    ghost faults = { λ sink. sink.faults };

    /// Fails exactly where this call is listed, and then appends nothing.
    fn put(&mut self, piece: &[u8]) -> Result<(), PutFault>
        ensures whole { OnOk result (Appends (Some self.old.bytes) (Some self.new.bytes) piece.now) }
        ensures front { IfErr result (PutsAtMost (Some self.old.bytes) (Some self.new.bytes) piece.now) }
        ensures failed { result ≡ Err PutFault.Failed → Rose self.old.faults self.new.faults }
        ensures faults { self.old.faults ≤ self.new.faults }

        ensures listed { is_failed result ≡ is_listed self.old }
        ensures after { OnOk result (self.new ≡ with_piece self.old piece.now) }
        ensures after_fault { result ≡ Err PutFault.Failed → self.new ≡ failed_call self.old }
        ensures after_want { result ≡ Err PutFault.NoMemory → self.new ≡ called self.old }
    {
        let call = self.calls;
        self.calls = call.saturating_add(1);
        if self.fails.contains(&call) {
            self.faults = self.faults.saturating_add(1);
            return Err(PutFault::Failed);
        }
        match self.bytes.extend_from_slice(piece) {
            Ok(()) => Ok(()),
            Err(_) => Err(PutFault::NoMemory),
        }
    }
}
