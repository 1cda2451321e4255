//! What the words of a command choose.

use crate::ids::IngestId;
use crate::lists::{Landmarks, Names};
use crate::ops::Name;

/// Which rules are printed.
#[derive(Clone, Copy, Debug, PartialEq, Eq)]
pub struct RuleSet {
    /// The number of followers of each user.
    pub ins: bool,
    /// The number of users that each user follows.
    pub outs: bool,
    /// How often each user was mentioned.
    pub said: bool,
    /// The number of users of each tag.
    pub tags: bool,
    /// The influence of each user over its followers.
    pub rank: bool,
    /// How many users took up each tag after so many of those whom they follow.
    pub expo: bool,
    /// The least number of edges from each landmark.
    pub hops: bool,
    /// The least cost of a walk from each landmark.
    pub close: bool,
}

/// What is printed of an epoch.
#[derive(Debug, Drop)]
pub struct OptionWords {
    /// The rules that are printed, in the order of the report.
    pub rules: RuleSet,
    /// 0 to 16 distinct users, in the order of the words.
    pub landmarks: Landmarks,
    /// The length of the printed top lists, 0 to 1000.
    pub top: u64,
}

/// The words of `replay`: a schedule, run over feeds.
#[derive(Debug, Drop)]
pub struct ReplayWords {
    /// The file of the schedule.
    pub script: Name,
    /// The files of the feeds, 1 to 16. Node i reads the i-th, counted from 0.
    pub feeds: Names,
    /// The number of partitions, 1 to 64.
    pub parts: u16,
    /// What is printed.
    pub options: OptionWords,
    /// Whether each event of the schedule writes a line.
    pub trace: bool,
}

/// The words of `demo`: a job that is made from a number.
#[derive(Clone, Copy, Debug, PartialEq, Eq)]
pub struct DemoWords {
    /// The number that the job is made from.
    pub seed: u64,
    /// The number of records of all feeds together, 1 to 500000.
    pub records: u64,
}

/// Where an ingest node is to crash.
#[derive(Clone, Copy, Debug, PartialEq, Eq)]
pub struct CrashAt {
    /// The node, one of the feeds.
    pub ingest: IngestId,
    /// It crashes at its first stamp of incarnation 0 that reaches this position, 1 to 2097152.
    pub at: u64,
}

/// The words of `live`: threads that run over feeds.
#[derive(Debug, Drop)]
pub struct LiveWords {
    /// The files of the feeds, 1 to 16. Node i reads the i-th, counted from 0.
    pub feeds: Names,
    /// The number of partitions, 1 to 64.
    pub parts: u16,
    /// What is printed.
    pub options: OptionWords,
    /// The number of new records that end an epoch, 1 to 1000000.
    pub every: u64,
    /// The number of workers that mine, 1 to 64.
    pub workers: u32,
    /// The number that chooses the sizes of batches.
    pub seed: u64,
    /// The node that is to crash, if one is.
    pub crash: Option<CrashAt>,
}
