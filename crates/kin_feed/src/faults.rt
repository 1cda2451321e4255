//! Why a feed could not be read.

ghost use Rattle.std.specs.Prelude.{◌≡◌};

use kin_ids::Memory;
use thiserror::Error;

/// Why a feed could not be read.
#[derive(Clone, Copy, Debug, PartialEq, Eq, Error)]
pub enum FeedFault {
    #[error("too many records")]
    TooManyRecords,
    #[error("out of memory")]
    Memory,
}

impl From<Memory> for FeedFault {
    ghost use Rattle.kin_feed.specs.declared.faults.FeedFault.{FeedFault};

    ghost from_gives = { λ _ e. e ≡ FeedFault.Memory };

    fn from(_fault: Memory) -> FeedFault {
        FeedFault::Memory
    }
}
