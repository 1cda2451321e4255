//! Ranks and exposures, kept from epoch to epoch with the columns of a result that show them.
#![tactic(auto)]

mod entries;
pub mod laws;
pub mod plans;
pub mod scores;
pub(crate) mod settles;
pub(crate) mod turns;

pub use plans::ScorePlan;
pub use scores::Scores;
