//! Lists whose clones share what doesn't change.
#![tactic(auto)]

mod chunks;
mod full;
pub mod items;
pub mod lists;
mod pages;
mod runs;

pub use items::Items;
pub use lists::SharedList;

#[cfg(test)]
mod tests;
