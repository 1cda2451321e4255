//! What the hub refuses. A refusal changes nothing.

use kin_ids::Memory;
use thiserror::Error;

/// Why a partition doesn't commit.
#[derive(Clone, Copy, Debug, PartialEq, Eq, Error)]
pub enum CommitRefused {
    #[error("the partition has committed every cut")]
    NothingCut,
    #[error("out of memory")]
    Memory,
}

impl From<Memory> for CommitRefused {
    ghost use Rattle.std.specs.Prelude.{◌≡◌};
    ghost use Rattle.kin_hub.specs.declared.answers.CommitRefused.TheVariants as refused;

    ghost from_gives = { λ _ e. e ≡ refused.Memory };

    fn from(_error: Memory) -> CommitRefused {
        CommitRefused::Memory
    }
}
