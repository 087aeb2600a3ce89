ghost use Rattle.std.specs.Prelude.{◌≡◌};
ghost use Rattle.trace_reader.specs.declared.cause.ReadEnd.TheVariants.{ReadFault as read_fault};

use outer_io::Failed;

/// The condition that makes a trace malformed. Of several that hold, the first in this order is the cause.
#[derive(Clone, Copy, Debug, PartialEq, Eq)]
pub enum Cause {
    /// The header, a record's first eight bytes or its payload pass the end.
    Short,
    /// The header doesn't begin with `GLT1`.
    BadMagic,
    /// A side of the surface is 0 or above 1024.
    BadSize,
    /// The bytes end where a record would begin.
    NoEnd,
    /// A record's second word of 16 bits isn't 0.
    BadZero,
    /// No command has the opcode.
    UnknownOp,
    /// The payload is longer than 2^24 bytes, or the record would end past byte 2^28.
    TooLong,
    /// The command doesn't allow a payload of this length.
    BadLength,
    /// A byte follows End.
    Trailing,
}

/// Why no record was read.
#[derive(Clone, Copy, Debug, PartialEq, Eq)]
pub enum ReadEnd {
    /// The trace is malformed.
    Malformed {
        /// The whole records before the place; for `Trailing` with End.
        index: u32,
        /// The bytes before the place, which is the record's opcode; for `Trailing` the byte after End.
        offset: u32,
        cause: Cause,
    },
    /// The source failed.
    ReadFault,
    /// There is no memory for a record's piece.
    NoMemory,
}

impl From<Failed> for ReadEnd {
    ghost from_gives = { λ _ end. end ≡ read_fault };

    fn from(_failed: Failed) -> ReadEnd {
        ReadEnd::ReadFault
    }
}
