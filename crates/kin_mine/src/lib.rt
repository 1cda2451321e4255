//! Mining epoch by epoch: all values of the epoch begun last, kept from epoch to epoch.
#![tactic(auto)]

mod lanes;
pub mod laws;
pub mod miners;
pub(crate) mod plans;
pub mod refusals;
pub(crate) mod walk_rules;
pub(crate) mod walkers;

pub use kin_rules::{EpochResult, Turn};
pub use miners::Miner;
pub use refusals::{BeginRefused, ResultRefused, TurnRefused};
