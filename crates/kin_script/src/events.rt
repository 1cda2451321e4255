//! The eleven events of the core.

use kin_ids::{Inc, IngestId, PartId, User};

/// One atomic step of the core. Nodes are below the number of feeds, partitions below the number of partitions.
#[derive(Clone, Copy, Debug, PartialEq, Eq)]
pub enum Event {
    /// A node stamps its next `n` records, 1 to 16, or what is left of its feed where that is less.
    Stamp {
        ingest: IngestId,
        n: u64,
    },
    /// The piece of the stamp of this node and incarnation that ends at `to` comes to a partition.
    Deliver {
        part: PartId,
        ingest: IngestId,
        inc: Inc,
        to: u64,
    },
    /// A partition's row in the progress table becomes its kept incarnations and tops.
    Report {
        part: PartId,
    },
    /// The agreed position of a node is raised to its ready position.
    Raise {
        ingest: IngestId,
    },
    /// The next epoch ends: at the agreed positions, or with a number (1 to 2097152) fairly after that many records.
    Cut {
        n: Option<u64>,
    },
    /// A partition commits its next cut epoch.
    Commit {
        part: PartId,
    },
    /// The mining of the next epoch begins.
    Begin,
    /// One vertex turn of a user.
    Turn {
        user: User,
    },
    /// Mining is completed and its block is printed.
    Mine,
    /// A node goes down.
    Crash {
        ingest: IngestId,
    },
    /// A node comes back under a new incarnation.
    Restart {
        ingest: IngestId,
    },
}

/// An event of a schedule with the number of its line, from 1 on.
#[derive(Clone, Copy, Debug, PartialEq, Eq)]
pub struct Line {
    pub number: u64,
    pub event: Event,
}
