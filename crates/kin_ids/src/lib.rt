//! Ids, stamps, records and operations, with what they mean for one graph.
#![tactic(auto)]

pub mod decimals;
pub mod faults;
pub mod ids;
pub mod laws;
pub mod limits;
pub mod lists;
pub mod ops;
pub mod options;
pub mod parting;
pub mod stamps;
pub mod statuses;
pub mod tags;

pub use decimals::read_decimal;
pub use faults::{Failed, Memory};
pub use ids::{Epoch, Inc, IngestId, PartId, User};
pub use limits::{
    MOST_BATCH, MOST_BYTES, MOST_FEEDS, MOST_ITEMS, MOST_LANDMARKS, MOST_LINES, MOST_PARTS,
    MOST_RECORDS,
};
pub use lists::{Ends, Items, Landmarks, ListOf, Names, Ops, PieceList, StampList};
pub use ops::{Half, Item, Name, Numbered, Op, Piece, Record, Subject, Use};
pub use options::{CrashAt, DemoWords, LiveWords, OptionWords, ReplayWords, RuleSet};
pub use parting::{part_of_tag, part_of_user};
pub use stamps::{End, Place, Stamp};
pub use statuses::{Status, Which};
pub use tags::Tag;

#[cfg(test)]
mod tests;
