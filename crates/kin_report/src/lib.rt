//! What is printed: blocks of epochs, trace lines and whole reports.
#![tactic(auto)]

pub mod blocks;
pub mod laws;
mod numbers;
pub mod rows;
mod tags;
pub mod traces;
mod walks;
mod words;

pub use blocks::block;
pub use traces::trace_line;
