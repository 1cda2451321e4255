//! What the rules of mining mean on a graph: counts, least walks, rank, exposure and lists cut to their greatest
//! entries.
#![tactic(auto)]

pub mod columns;
pub mod costs;
pub mod edges;
mod evaluations;
mod exchanges;
pub mod exposure_lists;
pub mod exposure_rules;
pub mod indexes;
pub mod kinds;
pub mod laws;
pub mod layers;
mod neighbours;
pub mod numbers;
pub mod pull_rules;
pub mod push_rules;
pub mod rank_rules;
pub mod results;
mod rounds;
pub mod rows;
pub mod scratches;
mod spots;
pub mod tops;
pub mod turns;
pub mod walks;
mod widenings;

pub use columns::{Column, Walks};
pub use costs::Costs;
pub use edges::Edges;
pub use exposure_lists::tally;
pub use exposure_rules::{UseK, UseKs};
pub use indexes::Index;
pub use kinds::EdgeKind;
pub use layers::{Layers, layer_values};
pub use numbers::{KCount, Num, TagNumber, UserNumber};
pub use pull_rules::{Facts, Input, Lent, PullRule, Side};
pub use push_rules::PushRule;
pub use results::EpochResult;
pub use scratches::scratch;
pub use tops::{top_tags, top_users};
pub use turns::Turn;
pub use walks::walk_costs;

#[cfg(test)]
mod result_tests;
#[cfg(test)]
mod scratch_tests;
#[cfg(test)]
mod tests;
#[cfg(test)]
mod walk_tests;
