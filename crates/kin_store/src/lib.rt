//! One partition's store, in rows and blocks that versions share.
#![tactic(auto)]

mod blocks;
pub mod indexes;
mod keyed;
pub mod lists;
pub mod lookups;
pub mod pairs;
pub mod part_snaps;
pub mod rows;
mod shelves;
mod spine;
mod stores;
mod vertices;

pub use indexes::Index;
pub use lists::{Halves, UseList, Users};
pub use pairs::{Pair, TagUser};
pub use part_snaps::PartSnap;
pub use rows::Row;

#[cfg(test)]
mod tests;
