//! Events of the core, what they answer, and the schedules that give them.
#![tactic(auto)]

pub mod events;
pub mod outcomes;
mod readers;
pub mod schedules;

pub use events::{Event, Line};
pub use outcomes::{Outcome, Refusal};
pub use schedules::{ScriptFault, read_script, text_laws};

#[cfg(test)]
mod tests;
