//! The commands: `replay`, words, feeds and a schedule in, a report out; and `demo`, over a job that is made from a
//! number.
#![tactic(auto)]

mod blocks;
mod counts;
pub mod demos;
mod files;
mod generated;
mod jobs;
pub mod laws;
mod plays;
mod refusals;
pub mod replays;
pub mod rows;
mod runs;

pub use demos::demo;
pub use replays::{Run, replay};
