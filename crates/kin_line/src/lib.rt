//! Numbers and lines of texts.
#![tactic(auto)]

pub mod numbers;
pub mod spans;

pub use numbers::{push_u64, read_u64};
pub use spans::{Span, lines};

#[cfg(test)]
mod tests;
