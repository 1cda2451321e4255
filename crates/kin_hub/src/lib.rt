//! Partitions and the progress table in one owner.
#![tactic(auto)]

pub mod answers;
mod commits;
mod cores;
pub mod hubs;
pub mod laws;
mod runs;

pub use answers::CommitRefused;
pub use hubs::Hub;
pub use kin_blocks::{Delta, Snap};
pub use kin_held::Taken;
pub use kin_table::{Cut, CutRefused, End, IncarnationsSpent, Raised};

#[cfg(test)]
mod tests;
