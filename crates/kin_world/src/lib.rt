//! The core: nodes, partitions and what is agreed, by events.
#![tactic(auto)]

mod cores;
pub mod laws;
pub mod runs;
pub mod sent_logs;
mod told;
mod turns;
pub mod worlds;

pub use runs::run;
pub use sent_logs::{Sent, SentLog};
pub use worlds::World;

#[cfg(test)]
mod tests;
