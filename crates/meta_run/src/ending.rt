ghost use Rattle.std.specs.Prelude.{◌≡◌};
ghost use Rattle.meta_run.specs.Ending.{code_of};

/// How a run ended.
#[derive(Clone, Copy, Debug, PartialEq, Eq)]
pub enum Ending {
    /// The answer was written whole.
    Done,
    /// The declarations were refused, and their fault was written.
    Refused,
    /// The words aren't words of the program.
    Usage,
    /// The source failed.
    ReadFault,
    /// The sink failed.
    WriteFault,
    /// Memory ran out.
    OutOfMemory,
    /// The source gave more than 1,048,576 bytes.
    TooLong,
    /// The input is rejected, and the reason was written whole.
    Rejected,
}

impl Ending {
    /// The exit status of the process, from 0 to 7 in the order above.
    pub fn code(self) -> u8
        ensures { result ≡ code_of self }
    {
        match self {
            Ending::Done => 0,
            Ending::Refused => 1,
            Ending::Usage => 2,
            Ending::ReadFault => 3,
            Ending::WriteFault => 4,
            Ending::OutOfMemory => 5,
            Ending::TooLong => 6,
            Ending::Rejected => 7,
        }
    }
}
