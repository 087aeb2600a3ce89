ghost use Rattle.std.specs.Prelude.{◌≡◌};
ghost use Rattle.output_format.specs.Answer.{number_of};

/// How a run ended.
#[derive(Clone, Copy, Debug, PartialEq, Eq)]
pub enum Status {
    /// The trace was read to End, and no byte follows.
    Done,
    /// The words are no command.
    BadWords,
    /// The trace is malformed; the last line of the log says where and why.
    Refused,
    /// Memory ran out.
    NoMemory,
    /// The source of the trace failed.
    ReadFault,
    /// A sink of an output failed.
    WriteFault,
}

impl Status {
    /// The exit status of the program.
    pub fn number(self) -> u8
        ensures { result ≡ number_of self }
    {
        match self {
            Status::Done => 0,
            Status::BadWords => 2,
            Status::Refused => 3,
            Status::NoMemory => 5,
            Status::ReadFault => 6,
            Status::WriteFault => 7,
        }
    }
}
