//! The outside: a shelf of named files and a sink of bytes, each with a count of faults.
#![tactic(auto)]

pub mod files;
pub mod loads;
pub mod memory_shelves;
pub mod memory_sinks;
pub mod outputs;
mod plans;
pub mod shelves;
pub mod sinks;

pub use files::FileShelf;
pub use loads::{LoadFault, load};
pub use memory_shelves::MemShelf;
pub use memory_sinks::MemSink;
pub use outputs::StdSink;
pub use shelves::Shelf;
pub use sinks::{Sink, put_all};

#[cfg(test)]
mod tests;
