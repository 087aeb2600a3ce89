//! A record as a trace has it.
ghost use Rattle.std.specs.Prelude.{◌≡◌, ◌≤◌, ◌++◌, [], length};
ghost use Rattle.trace_reader.specs.Lists.{AreWords, words_bytes};
ghost use Rattle.trace_reader.specs.Spelling.{Gives, IsWritable, ReadsBack, spelling as spelling_of};
ghost use Rattle.trace_reader.specs.Table.{piece_of as record_piece};

use crate::table::{
    arrays, blending, buffers, clears, control, current, environments, fragment_tests, lighting,
    matrices, piece_of, pixels, raster, switches, textures,
};
use crate::words::Words;
use gl_records::Rec;
use std::marker::Model;

/// A command as it is written into a trace: its opcode, the words that its payload begins with, and what stands
/// behind them, a list of words and bytes, which are lent by the record. Contracts see it as the opcode, the words
/// and the bytes of all that is behind them.
#[derive(Drop)]
pub struct Spelled<'a> {
    opcode: u16,
    words: Words,
    /// How many of the words are the payload's, at most 16.
    count: usize,
    list: &'a [u32],
    bytes: &'a [u8],
}

impl<'a> Model for Spelled<'a> {
    ghost use Rattle.std.specs.Prelude.{◌≤◌, ◌++◌, take};
    ghost use Rattle.trace_reader.specs.Command.{Command};
    ghost use Rattle.trace_reader.specs.Lists.{words_bytes};

    ghost Value = { Command };

    ghost view = { λ spelled. record { opcode = spelled.opcode; words = take spelled.count spelled.words; piece = words_bytes spelled.list.now ++ spelled.bytes.now } };

    ghost invariant = { λ spelled. spelled.count ≤ 16 };
}

impl<'a> Spelled<'a> {
    /// A command of these words, at most 16, of this list of words and of these bytes.
    fn of_parts(opcode: u16, front: &[u32], list: &'a [u32], bytes: &'a [u8]) -> Spelled<'a>
        requires { length front.now ≤ 16 }
        ensures parts { result ≡ record { opcode = opcode; words = front.now; piece = words_bytes list.now ++ bytes.now } }
        ensures writable { IsWritable result }
    {
        let mut words = [0; 16];
        words[..front.len()].copy_from_slice(front);
        Spelled {
            opcode,
            words,
            count: front.len(),
            list,
            bytes,
        }
    }

    /// A record as a command of this opcode and of these words, at most 16; the record has the piece.
    pub(crate) fn new(rec: &'a Rec, opcode: u16, front: &[u32]) -> Spelled<'a>
        requires few { length front.now ≤ 16 }
        requires gives { Gives opcode front.now (record_piece rec.now) rec.now }
        ensures parts { result ≡ record { opcode = opcode; words = front.now; piece = record_piece rec.now } }
        ensures back { ReadsBack rec.now result }
    {
        let (list, bytes) = piece_of(rec);
        Spelled::of_parts(opcode, front, list, bytes)
    }

    /// A record as a command of this opcode and of nothing but this list of words.
    pub(crate) fn listed(rec: &'a Rec, opcode: u16, list: &'a [u32]) -> Spelled<'a>
        requires piece { record_piece rec.now ≡ words_bytes list.now }
        requires gives { AreWords list.now → Gives opcode [] (words_bytes list.now) rec.now }
        ensures parts { result ≡ record { opcode = opcode; words = []; piece = words_bytes list.now } }
        ensures back { ReadsBack rec.now result }
    {
        Spelled::of_parts(opcode, &[], list, b"")
    }

    /// The opcode.
    pub fn opcode(&self) -> u16
        ensures { result ≡ self.now.opcode }
    {
        self.opcode
    }

    /// The words that the payload begins with, each of 32 bits, the lowest byte first.
    pub fn words(&self) -> &[u32]
        ensures { result.now ≡ self.now.words }
    {
        &self.words[..self.count]
    }

    /// What the payload has behind the words: a list of words, each of 32 bits, the lowest byte first, and bytes.
    pub fn piece(&self) -> (&[u32], &[u8])
        ensures { words_bytes result.0.now ++ result.1.now ≡ self.now.piece }
    {
        (self.list, self.bytes)
    }
}

/// The record as it is written into a trace. What is written reads back as the record.
pub fn spell(rec: &Rec) -> Spelled<'_>
    ensures spelling { result ≡ spelling_of rec.now }
    ensures back { ReadsBack rec.now result }
{
    if let Some(spelled) = control::spelling(rec) {
        return spelled;
    }
    if let Some(spelled) = arrays::spelling(rec) {
        return spelled;
    }
    if let Some(spelled) = current::spelling(rec) {
        return spelled;
    }
    if let Some(spelled) = buffers::spelling(rec) {
        return spelled;
    }
    if let Some(spelled) = matrices::spelling(rec) {
        return spelled;
    }
    if let Some(spelled) = raster::spelling(rec) {
        return spelled;
    }
    if let Some(spelled) = switches::spelling(rec) {
        return spelled;
    }
    if let Some(spelled) = lighting::spelling(rec) {
        return spelled;
    }
    if let Some(spelled) = fragment_tests::spelling(rec) {
        return spelled;
    }
    if let Some(spelled) = blending::spelling(rec) {
        return spelled;
    }
    if let Some(spelled) = clears::spelling(rec) {
        return spelled;
    }
    if let Some(spelled) = textures::spelling(rec) {
        return spelled;
    }
    if let Some(spelled) = environments::spelling(rec) {
        return spelled;
    }
    match pixels::spelling(rec) {
        Some(spelled) => spelled,
        None => unreachable!(),
    }
}
