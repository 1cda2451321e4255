//! What events answer.

use kin_ids::{Epoch, Inc, PartId, Stamp};

/// What an event answers.
#[derive(Clone, Copy, Debug, PartialEq, Eq)]
pub enum Outcome {
    Stamped(Stamp),
    /// The piece joined the chain, which now ends here.
    Held(u64),
    /// The piece is kept until those before it come. The chain ends here.
    Early(u64),
    Repeat,
    /// The partition keeps this later incarnation.
    Stale(Inc),
    Reported,
    /// The agreed position grew to this.
    Raised(u64),
    /// The agreed position stayed at this.
    Level(u64),
    CutMade(Epoch),
    Committed(Epoch),
    Begun(Epoch),
    Turned,
    Mined(Epoch),
    Crashed,
    Restarted { inc: Inc, base: u64 },
    /// Nothing changed.
    Refused(Refusal),
}

/// Why an event was refused.
#[derive(Clone, Copy, Debug, PartialEq, Eq)]
pub enum Refusal {
    /// The node is down.
    Down,
    /// The node is up.
    Up,
    /// The node has stamped its whole feed.
    Exhausted,
    /// No stamp of that node and incarnation ends there.
    NotSent,
    /// The least partition that never reported.
    NotReported(PartId),
    /// There is no cut epoch left.
    NothingCut,
    /// The least partition that hasn't committed the epoch.
    NotCommitted(PartId),
    /// No epoch is open.
    NotBegun,
    /// This epoch is open.
    Busy(Epoch),
    /// The incarnation is 65535.
    IncarnationsSpent,
}
