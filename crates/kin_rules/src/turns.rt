//! What a turn of a user does.

/// Whether a turn was made.
#[derive(Clone, Copy, Debug, PartialEq, Eq)]
pub enum Turn {
    Turned,
    /// The user wasn't active, and nothing was read.
    Idle,
}
