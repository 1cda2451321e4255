//! Ingest nodes: each stamps the records of its feed, crashes, and comes back under a later incarnation.
#![tactic(auto)]

pub mod ingests;
pub mod refusals;

pub use ingests::Ingest;
pub use refusals::{Down, RestartRefused, StampRefused};
