//! What the table answers. A refusal changes nothing.

use kin_ids::{Memory, PartId};
use thiserror::Error;

/// What became of an agreed position.
#[derive(Clone, Copy, Debug, PartialEq, Eq)]
pub enum Raised {
    /// It grew to this.
    Raised(u64),
    /// It stayed at this.
    Level(u64),
}

/// The node came back 65535 times.
#[derive(Clone, Copy, Debug, PartialEq, Eq, Error)]
#[error("the node came back 65535 times")]
pub struct IncarnationsSpent;

/// Why no epoch is cut.
#[derive(Clone, Copy, Debug, PartialEq, Eq, Error)]
pub enum CutRefused {
    #[error("partition {} never reported", .0.0)]
    NotReported(PartId),
    #[error("out of memory")]
    Memory,
}

impl From<Memory> for CutRefused {
    ghost use Rattle.std.specs.Prelude.{◌≡◌};
    ghost use Rattle.kin_table.specs.declared.answers.CutRefused.TheVariants as refused;

    ghost from_gives = { λ _ e. e ≡ refused.Memory };

    fn from(_error: Memory) -> CutRefused {
        CutRefused::Memory
    }
}
