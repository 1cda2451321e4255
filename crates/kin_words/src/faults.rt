//! Why words could not be read.

use thiserror::Error;

/// Why words could not be read.
#[derive(Clone, Copy, Debug, PartialEq, Eq, Error)]
pub enum WordsFault {
    /// They aren't words of the command.
    #[error("usage")]
    Usage,
    /// There was not enough memory.
    #[error("out of memory")]
    Memory,
}
