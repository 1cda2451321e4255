//! One partition's part of the graph, and how graphs are read: by calls that count the edges that they hand out.
#![tactic(auto)]

pub mod deltas;
pub mod differences;
pub mod laws;
mod notes;
pub mod part_graphs;
mod part_views;
pub mod ticks;
pub mod touched;
pub mod views;

pub use deltas::{Delta, SaidRow, UseRow};
pub use differences::delta;
use kin_ids::ListOf;
pub use kin_ids::{Half, Use};
pub use kin_store::{Halves, Index, Pair, PartSnap, Row, TagUser, UseList, Users};
pub use part_graphs::PartGraph;
pub use ticks::Steps;
pub use touched::Touched;
pub use views::View;

/// Uses of tags.
pub type Uses = ListOf<Use>;

#[cfg(test)]
mod delta_tests;
#[cfg(test)]
mod store_tests;
