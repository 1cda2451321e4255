//! Reads a feed: the records that `csv` gives of its bytes.
#![tactic(auto)]

pub mod faults;
pub mod feeds;
mod parses;
mod rows;

pub use faults::FeedFault;
pub use feeds::{Feed, read_feed};

#[cfg(test)]
mod tests;
