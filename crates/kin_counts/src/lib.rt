//! How many follow a user and how many it follows, how often it was mentioned, and how many have used a tag: kept from
//! epoch to epoch by what deltas tell.
#![tactic(auto)]

mod changes;
pub mod enters;
pub mod graph_laws;
mod items;
pub mod plans;
mod sides;
mod tables;
mod tag_numbers;
pub mod tallies;

pub use enters::enter;
pub use plans::{CountPlan, plan};
pub use tallies::Counts;

#[cfg(test)]
mod tests;
