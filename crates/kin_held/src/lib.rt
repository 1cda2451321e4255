//! The pieces that one partition holds: a chain for each ingest node, and the pieces that came early.
#![tactic(auto)]

pub mod answers;
pub mod by_node;
mod chains;
mod early;
mod queues;
mod runs;

pub use answers::Taken;
pub use by_node::Held;

#[cfg(test)]
mod tests;
