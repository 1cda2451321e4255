//! Layers of users, kept from epoch to epoch: a user's is computed again where an edge or an input of it changed.
#![tactic(auto)]

pub mod begins;
mod deltas;
mod ends;
pub mod engines;
pub mod kept;
pub mod laws;
mod passes;
mod places;
pub mod settles;
mod showing;
pub mod turns;

pub use begins::plan;
pub use engines::PullEngine;
pub use kept::Kept;
pub use settles::{SettlePlan, enter_settle, plan_settle, settle};
pub use turns::{TurnPlan, enter_turn, least_active, make_turn, plan_turn};
