//! The words of the commands.
#![tactic(auto)]

pub mod commands;
pub mod demos;
pub mod faults;
mod parses;
pub mod replays;
mod values;

pub use commands::{Command, pick};
pub use demos::read_demo;
pub use faults::WordsFault;
pub use replays::read_replay;

#[cfg(test)]
mod tests;
