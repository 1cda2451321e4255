//! What a partition answers to a piece.

use kin_ids::Inc;

/// What became of a piece.
#[derive(Clone, Copy, Debug, PartialEq, Eq)]
pub enum Taken {
    /// It joined the chain, whose top is this now.
    Held(u64),
    /// It is kept until the chain, whose top is this, comes to it.
    Early(u64),
    /// It is here already.
    Repeat,
    /// Its incarnation is over; this one is kept.
    Stale(Inc),
    /// Its incarnation is a later one that begins at no place of this chain.
    Adrift { base: u64, floor: u64, top: u64 },
}
