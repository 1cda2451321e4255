//! The generated job of `demo`: three feeds and a list of events, from a seed and a number of records.
//!
//! Every byte and every event is read off the next word of a named generator by a fixed rule, so a job is the same
//! wherever it is made. The feeds have follows, unfollows, tweets and bad records, over as many users as a quarter of
//! the records, and two. The events are those of three nodes and four partitions: stamps, pieces in both orders and
//! some of them twice, agreed positions, cuts and restarts.
#![tactic(auto)]

mod draws;
pub mod events;
pub mod feeds;
pub mod laws;
mod records;
mod rounds;

pub use events::events_of;
pub use feeds::feeds_of;
pub use laws::{event_laws, feed_laws, worked_rows};

#[cfg(test)]
mod tests;
