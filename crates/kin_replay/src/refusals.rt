//! Why the files that the words name could not be read.

ghost use Rattle.std.specs.Prelude.{◌≡◌};
ghost use Rattle.kin_replay.specs.Refusals.{status_of};

use kin_ids::{Memory, Status, Which};

/// Why the files that the words name could not be read.
#[derive(Clone, Copy, Debug, PartialEq, Eq)]
pub(crate) enum Refusal {
    /// A file could not be read.
    Read,
    /// The quantity is past its limit.
    Limit(Which),
    /// This line of the schedule, counted from 1, is the first outside its language.
    Script(u64),
    /// There was not enough memory.
    Memory,
}

impl Refusal {
    /// The status of a run that it ended.
    pub(crate) fn status(&self) -> Status
        ensures { result ≡ status_of self.now }
    {
        match *self {
            Refusal::Read => Status::Read,
            Refusal::Limit(which) => Status::Limit { which },
            Refusal::Script(line) => Status::Script { line },
            Refusal::Memory => Status::Memory,
        }
    }
}
