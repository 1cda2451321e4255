//! Values that fall along edges, kept from epoch to epoch by turns of users in any order.
#![tactic(auto)]

pub mod active_sets;
pub mod begins;
pub mod engines;
pub mod laws;
mod places;
pub mod turns;
pub mod waves;

pub use active_sets::ActiveSet;
pub use begins::{enter, starts, widened};
pub use engines::{Plan, PushEngine};
pub use turns::{make_turn, settle};
pub use waves::Waves;

#[cfg(test)]
mod settle_tests;
