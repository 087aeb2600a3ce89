//! Memory that never fails.
ghost use Rattle.std.specs.Prelude.{◌≡◌, ℕ, List, [], Some, take, min, length};

use crate::sink::{PutFault, Sink};
use crate::source::{Failed, Source};
use std::alloc::Global;
use std::marker::Model;

/// A source over bytes in memory. Its count of faults is always 0.
#[derive(Drop)]
pub struct NeverSource {
    bytes: Vec<u8>,
    at: usize,
}

impl Model for NeverSource {
    ghost use Rattle.std.specs.Prelude.{◌≤◌, ℕ, List, drop, vec_len};

    ghost Value = { List ℕ };

    // The bytes that are left.
    ghost view = { λ source. drop source.at source.bytes.items };

    ghost invariant = { λ source. source.at ≤ vec_len source.bytes };
}

impl NeverSource {
    /// These bytes, from the first on.
    pub fn new(bytes: Vec<u8>) -> NeverSource
        ensures { result ≡ bytes.items }
    {
        NeverSource { bytes, at: 0 }
    }
}

impl Source for NeverSource {
    ghost rest = { λ source. Some source };

    ghost faults = { λ _. 0 };

    fn take(&mut self, into: &mut [u8]) -> Result<usize, Failed> {
        let taken = copy_front(&self.bytes[self.at..], into);
        self.at += taken;
        Ok(taken)
    }
}

/// Copies as many bytes as there are and as fit into the front of `into`, and answers how many.
pub fn copy_front(bytes: &[u8], into: &mut [u8]) -> usize
    ensures count { result ≡ min (length bytes.now) (length into.new) }
    ensures copied { take result into.new ≡ take result bytes.now }
{
    let count = bytes.len().min(into.len());
    into[..count].copy_from_slice(&bytes[..count]);
    count
}

/// A sink into memory. Its count of faults is always 0, and a put can find no memory.
#[derive(Drop)]
pub struct NeverSink {
    bytes: Vec<u8>,
}

impl Model for NeverSink {
    ghost use Rattle.std.specs.Prelude.{ℕ, List};

    ghost Value = { List ℕ };

    // The bytes that the sink holds.
    ghost view = { λ sink. sink.bytes.items };
}

impl NeverSink {
    /// A sink that holds nothing yet.
    pub fn new(alloc: Global) -> NeverSink
        ensures { result ≡ [] }
    {
        NeverSink {
            bytes: Vec::new(alloc),
        }
    }

    /// The bytes that were put.
    pub fn bytes(&self) -> &[u8]
        ensures { result.now ≡ self.now }
    {
        self.bytes.as_slice()
    }
}

impl Sink for NeverSink {
    ghost held = { λ sink. Some sink };

    ghost faults = { λ _. 0 };

    fn put(&mut self, piece: &[u8]) -> Result<(), PutFault> {
        match self.bytes.extend_from_slice(piece) {
            Ok(()) => Ok(()),
            Err(_) => Err(PutFault::NoMemory),
        }
    }
}
