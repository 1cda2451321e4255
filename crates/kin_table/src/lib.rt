//! The progress table: what partitions reported, what is agreed, and where the epochs were cut.
#![tactic(auto)]

pub mod answers;
pub mod cuts;
mod ends;
mod rounds;
mod rows;
pub mod tables;
#[cfg(test)]
mod tests;
mod vectors;

pub use answers::{CutRefused, IncarnationsSpent, Raised};
pub use cuts::Cut;
pub use kin_ids::End;
pub use rounds::fair;
pub use tables::Table;
