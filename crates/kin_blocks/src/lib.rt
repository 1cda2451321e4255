//! Versions of the partitions' stores: a snapshot of all of them for each epoch, and what each epoch changed.
#![tactic(auto)]

pub mod blocks;
mod epochs;
pub mod laws;
pub mod runs;
pub mod snap_views;
pub mod snaps;
pub mod versions;

pub use blocks::{Blocks, Frozen};
pub use kin_graph::{Delta, PartSnap};
pub use runs::Run;
pub use snaps::Snap;
pub use versions::Versions;

#[cfg(test)]
mod tests;
