//! Stamps, and the positions that they lead to.

ghost use Rattle.std.specs.Prelude.{◌≡◌};
ghost use Rattle.kin_ids.specs.Users.{is_before};

use crate::ids::{Epoch, Inc, IngestId};

/// A transaction's stamp: the records `from`+1 to `to` of a node's feed. `to` is its sequence number.
#[derive(Clone, Copy, Debug, PartialEq, Eq, PartialOrd, Ord, Hash)]
pub struct Stamp {
    /// The node that made it.
    pub ingest: IngestId,
    /// The node's incarnation that made it.
    pub inc: Inc,
    /// The position before its first record.
    pub from: u64,
    /// The position of its last record.
    pub to: u64,
}

/// Where a record stands in the agreed order. Records of a feed are numbered from 1.
#[derive(Clone, Copy, Debug, PartialEq, Eq, PartialOrd, Ord, Hash)]
pub struct Place {
    /// The epoch that brought the record.
    pub epoch: Epoch,
    /// The node whose record it is.
    pub ingest: IngestId,
    /// The record's number in the node's feed.
    pub number: u64,
}

impl Place {
    /// Whether it stands before another one: by epoch, then by node, then by record. Places are ordered so.
    pub fn is_before(&self, other: &Place) -> bool
        ensures { result ≡ is_before self.now other.now }
    {
        self < other
    }
}

/// A position of a node, with the incarnation that reached it.
#[derive(Clone, Copy, Debug, PartialEq, Eq, PartialOrd, Ord, Hash)]
pub struct End {
    /// The incarnation of the stamp that ends there, 0 at the start.
    pub inc: Inc,
    /// The position.
    pub to: u64,
}
