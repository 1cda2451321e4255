//! What the deltas of all partitions tell together of an epoch.
#![tactic(auto)]

mod fresh;
pub mod joins;
pub mod keys;
pub mod laws;

pub use joins::{next_tags, next_users};
pub use keys::is_among;

#[cfg(test)]
mod tests;
