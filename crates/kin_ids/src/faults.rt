//! The two faults that most calls share.

ghost use Rattle.std.specs.Prelude.{◌≡◌};

use std::alloc::{AllocError, AllocFailed};
use thiserror::Error;

/// There was not enough memory. After it the object of the call is as before, unless the call says otherwise.
#[derive(Clone, Copy, Debug, PartialEq, Eq, Error)]
#[error("out of memory")]
pub struct Memory;

impl From<AllocError> for Memory {
    ghost use Rattle.std.specs.Prelude.{⊤};

    ghost from_gives = { λ _ e. ⊤ };

    fn from(_error: AllocError) -> Memory {
        Memory
    }
}

impl<T: Drop> From<AllocFailed<T>> for Memory {
    ghost use Rattle.std.specs.Prelude.{⊤};

    ghost from_gives = { λ _ e. ⊤ };

    fn from(_error: AllocFailed<T>) -> Memory {
        Memory
    }
}

/// A call on the outside, on a file or on standard output, failed.
#[derive(Clone, Copy, Debug, PartialEq, Eq, Error)]
#[error("a call on the outside failed")]
pub struct Failed;
