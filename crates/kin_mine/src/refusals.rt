//! What a miner refuses. A refusal changes nothing.

use kin_ids::{Epoch, Memory, User};
use thiserror::Error;

/// Why an epoch isn't begun.
#[derive(Clone, Copy, Debug, PartialEq, Eq, Error)]
pub enum BeginRefused {
    /// This epoch, begun last, has an active user.
    #[error("epoch {} has an active user", .0.0)]
    Busy(Epoch),
    /// The next epoch is this one.
    #[error("the next epoch is {}", .0.0)]
    NotNext(Epoch),
    #[error("out of memory")]
    Memory,
}

impl From<Memory> for BeginRefused {
    ghost use Rattle.std.specs.Prelude.{◌≡◌};
    ghost use Rattle.kin_mine.specs.declared.refusals.BeginRefused.TheVariants as refused;

    ghost from_gives = { λ _ e. e ≡ refused.Memory };

    fn from(_error: Memory) -> BeginRefused {
        BeginRefused::Memory
    }
}

/// Why no turn is made.
#[derive(Clone, Copy, Debug, PartialEq, Eq, Error)]
pub enum TurnRefused {
    #[error("no epoch was begun")]
    NotBegun,
    #[error("out of memory")]
    Memory,
}

impl From<Memory> for TurnRefused {
    ghost use Rattle.std.specs.Prelude.{◌≡◌};
    ghost use Rattle.kin_mine.specs.declared.refusals.TurnRefused.TheVariants as refused;

    ghost from_gives = { λ _ e. e ≡ refused.Memory };

    fn from(_error: Memory) -> TurnRefused {
        TurnRefused::Memory
    }
}

/// Why there is no result.
#[derive(Clone, Copy, Debug, PartialEq, Eq, Error)]
pub enum ResultRefused {
    #[error("no epoch was begun")]
    NotBegun,
    /// The least active user.
    #[error("user {} is active", .0.0)]
    Active(User),
}
