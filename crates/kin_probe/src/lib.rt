//! Engines alone, over views and rules that count their calls: what tests show of how little an epoch reads.
#![tactic(auto)]

pub mod follows;
pub mod rules;
pub mod views;

pub use follows::{follow_layers, follow_walks, start_layers, start_walks};
pub use rules::{CountedExposure, CountedRank, CountedWalk};
pub use views::CountedView;

#[cfg(test)]
mod tests;
