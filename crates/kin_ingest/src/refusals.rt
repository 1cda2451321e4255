//! Why a node refuses a call. A refusal changes nothing.

use thiserror::Error;

/// Why a node stamps nothing.
#[derive(Clone, Copy, Debug, PartialEq, Eq, Error)]
pub enum StampRefused {
    #[error("the node is down")]
    Down,
    #[error("every record of the feed is stamped")]
    Exhausted,
    #[error("a batch has 1 to 16 records")]
    BadBatch,
}

/// The node is down already.
#[derive(Clone, Copy, Debug, PartialEq, Eq, Error)]
#[error("the node is down")]
pub struct Down;

/// Why a node doesn't come back.
#[derive(Clone, Copy, Debug, PartialEq, Eq, Error)]
pub enum RestartRefused {
    #[error("the node is up")]
    Up,
    #[error("the node came back 65535 times")]
    IncarnationsSpent,
}
