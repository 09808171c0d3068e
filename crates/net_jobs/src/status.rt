//! How a run ends.

ghost use Rattle.std.specs.Prelude.{◌≡◌};
ghost use Rattle.net_jobs.specs.Codes.{code_of};

/// How a run ended.
#[derive(Debug, Clone, Copy, PartialEq, Eq)]
pub enum Status {
    /// The whole text was written.
    Ok,
    /// The words are not a command.
    Usage,
    /// The text is not that of a network.
    Blif,
    /// A call of a session found no free slot.
    Full,
    /// Memory was wanting.
    Memory,
    /// A read failed.
    ReadFault,
    /// A write failed.
    WriteFault,
    /// The text is not that of a stored diagram.
    Dddmp,
    /// The text is not that of a job.
    Job,
    /// More bytes came than are read.
    TooLong,
    /// The outputs' diagram as a network has more signals than are read.
    Large,
}

impl Status {
    /// The exit status of the process.
    pub fn code(self) -> u8
        ensures { result ≡ code_of self }
    {
        match self {
            Status::Ok => 0,
            Status::Usage => 2,
            Status::Blif => 3,
            Status::Full => 4,
            Status::Memory => 5,
            Status::ReadFault => 6,
            Status::WriteFault => 7,
            Status::Dddmp => 8,
            Status::Job => 9,
            Status::TooLong => 10,
            Status::Large => 11,
        }
    }
}
