//! Hops and closeness from a landmark, as rules whose values grow along edges.
#![tactic(auto)]

mod closes;
mod hops;

pub use closes::Close;
pub use hops::Hops;

#[cfg(test)]
mod tests;
