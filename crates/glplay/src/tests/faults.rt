//! Faults of reading and of writing: what was written before them is kept.

use super::support::{DRAWN, RED, REFUSED, TWO_FRAMES, run};
use crate::top_call::glplay;
use outer_io::{FromRead, MemSink, MemSource, NoGate, ToWrite};
use output_format::Status;
use std::alloc::{AllocError, Global};
use std::io;
use std::io::{ErrorKind, Read, Write};
use std::process::Abort;
use std::test::Fail;
use std::thread::Threads;

/// The object that fails.
#[derive(Clone, Copy, PartialEq, Eq, Debug)]
enum Object {
    Source,
    Frames,
    Log,
}

/// The statuses and outputs of a run in which one call fails.
#[derive(Drop)]
struct Broken {
    status: Status,
    frames: MemSink,
    log: MemSink,
}

/// The calls of an object that fail, where the one that fails is this call of that object.
fn calls(
    alloc: Global,
    object: Object,
    failing: Object,
    call: u64,
) -> Result<Vec<u64>, AllocError> {
    let mut calls = Vec::new(alloc);
    if object == failing {
        calls.push(call)?;
    }
    Ok(calls)
}

fn run_broken<R: Threads + AllocGlobal>(
    rt: &R,
    words: &[String],
    bytes: &[u8],
    failing: Object,
    call: u64,
) -> Result<Broken, AllocError> {
    let alloc = rt.alloc();
    let takes = calls(alloc, Object::Source, failing, call)?;
    let mut source = MemSource::new(Vec::from_slice(alloc, bytes)?, takes);
    let mut frames = MemSink::new(alloc, calls(alloc, Object::Frames, failing, call)?);
    let mut log = MemSink::new(alloc, calls(alloc, Object::Log, failing, call)?);
    let status = glplay(
        rt,
        alloc,
        words,
        &mut source,
        &mut frames,
        &mut log,
        &NoGate,
    );
    Ok(Broken {
        status,
        frames,
        log,
    })
}

/// Each call of each object fails in turn, until a run meets none and is the whole one.
fn fail_in_turn<R: Threads + AllocGlobal + Abort>(
    rt: &R,
    word: &str,
    bytes: &[u8],
) -> Result<(), AllocError> {
    let whole = run(rt, &[word], bytes)?;
    let mut words = Vec::new(rt.alloc());
    words.push(String::from_str(rt.alloc(), word)?)?;
    for object in [Object::Source, Object::Frames, Object::Log] {
        let mut ended = false;
        for call in 0..64 {
            let broken = run_broken(rt, &words, bytes, object, call)?;
            if broken.status == whole.status {
                assert_eq!(rt;
                    broken.frames.bytes(),
                    whole.frames.bytes(),
                    "{object:?} {call}"
                );
                assert_eq!(rt; broken.log.bytes(), whole.log.bytes(), "{object:?} {call}");
                ended = true;
                break;
            }
            let expected = match object {
                Object::Source => Status::ReadFault,
                _ => Status::WriteFault,
            };
            assert_eq!(rt; broken.status, expected, "{object:?} {call}");
            assert!(rt;
                whole.frames.bytes().starts_with(broken.frames.bytes()),
                "{object:?} {call}"
            );
            assert!(rt;
                whole.log.bytes().starts_with(broken.log.bytes()),
                "{object:?} {call}"
            );
        }
        assert!(rt; ended);
    }
    Ok(())
}

#[test]
fn each_call_fails_in_turn(rt: HostRuntime) -> Result<(), Fail> {
    for bytes in [TWO_FRAMES.as_slice(), &DRAWN, &REFUSED] {
        fail_in_turn(&rt, "play", bytes)?;
    }
    fail_in_turn(&rt, "played", &TWO_FRAMES)?;
    Ok(())
}

#[test]
fn the_first_take_and_the_second_put(rt: HostRuntime) -> Result<(), Fail> {
    let mut words = Vec::new(rt.alloc());
    words.push(String::from_str(rt.alloc(), "play")?)?;
    let unread = run_broken(&rt, &words, &RED, Object::Source, 0)?;
    assert_eq!(rt; unread.status, Status::ReadFault);
    assert_eq!(rt; unread.frames.bytes().len(), 0);
    assert_eq!(rt; unread.log.bytes().len(), 0);
    let unwritten = run_broken(&rt, &words, &RED, Object::Frames, 1)?;
    assert_eq!(rt; unwritten.status, Status::WriteFault);
    assert_eq!(rt;
        unwritten.frames.bytes(),
        b"GLF1\x02\0\0\0\x01\0\x01\0".as_slice()
    );
    assert_eq!(rt; unwritten.log.bytes().len(), 0);
    Ok(())
}

/// A reader in memory whose reads from one call to another are interrupted. It gives three bytes at a time.
#[derive(Drop)]
struct Interrupted<'a> {
    bytes: &'a [u8],
    calls: u64,
    from: u64,
    to: u64,
}

impl Read for Interrupted<'_> {
    fn read(&mut self, buf: &mut [u8]) -> io::Result<usize> {
        let call = self.calls;
        self.calls = call.saturating_add(1);
        if self.from <= call && call < self.to {
            return Err(io::Error::from(ErrorKind::Interrupted));
        }
        let count = self.bytes.len().min(buf.len()).min(3);
        let (front, rest) = self.bytes.split_at(count);
        buf[..count].copy_from_slice(front);
        self.bytes = rest;
        Ok(count)
    }
}

/// A writer into memory that takes so many bytes at a time.
#[derive(Drop)]
struct Slow {
    bytes: Vec<u8>,
    most: usize,
}

impl Write for Slow {
    fn write(&mut self, buf: &[u8]) -> io::Result<usize> {
        let count = buf.len().min(self.most);
        self.bytes.extend_from_slice(&buf[..count])?;
        Ok(count)
    }

    fn flush(&mut self) -> io::Result<()> {
        Ok(())
    }
}

#[test]
fn readers_and_writers_of_std(rt: HostRuntime) -> Result<(), Fail> {
    let whole = run(&rt, &["play"], &RED)?;
    let mut words = Vec::new(rt.alloc());
    words.push(String::from_str(rt.alloc(), "play")?)?;
    for (from, to, most, status) in [
        (0, 0, 100, Status::Done),
        (4, 5, 1, Status::Done),
        (4, 6, 1, Status::ReadFault),
        (0, 2, 1, Status::ReadFault),
        (0, 1, 0, Status::WriteFault),
    ] {
        let mut source = FromRead::new(Interrupted {
            bytes: &RED,
            calls: 0,
            from,
            to,
        });
        let mut frames = Slow {
            bytes: Vec::new(rt.alloc()),
            most,
        };
        let mut log = Slow {
            bytes: Vec::new(rt.alloc()),
            most: 2,
        };
        let answer = glplay(
            &rt,
            rt.alloc(),
            &words,
            &mut source,
            &mut ToWrite::new(&mut frames),
            &mut ToWrite::new(&mut log),
            &NoGate,
        );
        assert_eq!(rt; answer, status);
        if status == Status::Done {
            assert_eq!(rt; frames.bytes.as_slice(), whole.frames.bytes());
            assert_eq!(rt; log.bytes.as_slice(), whole.log.bytes());
        } else {
            assert_eq!(rt; frames.bytes.len(), 0);
            assert_eq!(rt; log.bytes.len(), 0);
        }
    }
    Ok(())
}
