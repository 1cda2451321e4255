//! How a command ends.

ghost use Rattle.std.specs.Prelude.{◌≡◌};
ghost use Rattle.kin_ids.specs.Exits.{exit_of};

/// A quantity with a limit.
#[derive(Clone, Copy, Debug, PartialEq, Eq)]
pub enum Which {
    /// The bytes of all feeds together, at most 33554432.
    FeedBytes,
    /// The records of all feeds together, at most 2097152.
    Records,
    /// The bytes of a schedule, at most 33554432.
    ScriptBytes,
    /// The lines of a schedule, at most 1048576.
    ScriptLines,
}

/// How a command ended.
#[derive(Clone, Copy, Debug, PartialEq, Eq)]
pub enum Status {
    /// All was read, run and written.
    Done,
    /// The words are none of the command's.
    Usage,
    /// This line of the schedule, counted from 1, is the first that isn't of its language.
    Script { line: u64 },
    /// A file could not be read.
    Read,
    /// The report could not be written.
    Write,
    /// This quantity is past its limit.
    Limit { which: Which },
    /// There was not enough memory.
    Memory,
}

impl Status {
    /// The exit status of a program that ended so. It takes no memory.
    pub fn exit(&self) -> u8
        ensures { result ≡ exit_of self.now }
    {
        match self {
            Status::Done => 0,
            Status::Usage => 2,
            Status::Script { .. } => 3,
            Status::Read => 4,
            Status::Write => 5,
            Status::Limit { .. } => 6,
            Status::Memory => 7,
        }
    }
}
