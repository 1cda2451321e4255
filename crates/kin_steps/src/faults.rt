//! Why a run ended before its input did.

use kin_ids::Memory;
use std::alloc::AllocError;
use std::io;

/// Why a run ended before its input did.
#[derive(Clone, Copy, Debug, PartialEq, Eq)]
pub(crate) enum Fault {
    Read,
    Write,
    Memory,
}

impl From<Memory> for Fault {
    fn from(_fault: Memory) -> Fault {
        Fault::Memory
    }
}

impl From<AllocError> for Fault {
    fn from(_fault: AllocError) -> Fault {
        Fault::Memory
    }
}

/// A fault of standard output; standard input's are told apart where it is read.
impl From<io::Error> for Fault {
    fn from(_error: io::Error) -> Fault {
        Fault::Write
    }
}
