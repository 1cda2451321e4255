//! The stamps that were made, in the order made.

ghost use Rattle.std.specs.Prelude.{◌≡◌, ◌<◌, ◌++◌, ◌∷◌, [], None, OnOk, OnErr, length, slice_get, option_map};
ghost use Rattle.kin_world.specs.SentStamps.{find_sent};

use indexmap::IndexMap;
use kin_ids::{Inc, IngestId, Memory, Stamp};
use std::alloc::Global;
use std::marker::Model;

/// A stamp that was made, with the base of its incarnation.
#[derive(Clone, Copy, Debug, PartialEq, Eq)]
pub struct Sent {
    pub stamp: Stamp,
    pub base: u64,
}

/// What names a stamp: the stamps of one incarnation follow each other, so no two of them end at one position.
#[derive(Clone, Copy, Debug, PartialEq, Eq, Hash)]
pub struct SentKey {
    pub ingest: IngestId,
    pub inc: Inc,
    pub to: u64,
}

/// The stamps that were made, seen as the list of them in the order made. A look-up is O(1) on average.
#[derive(Drop)]
pub struct SentLog {
    all: IndexMap<SentKey, Sent>,
}

impl Model for SentLog {
    ghost use Rattle.std.specs.Prelude.{List};
    ghost use Rattle.kin_world.specs.declared.sent_logs.Sent.{Sent};
    ghost use Rattle.kin_world.specs.SentEntries.{IsKeyed, values_of};

    ghost Value = { List Sent };

    ghost view = { λ a. values_of a.all.entries };

    ghost invariant = { λ a. IsKeyed a.all.entries };
}

impl SentLog {
    /// No stamp yet. It takes no memory.
    pub fn new(alloc: Global) -> SentLog
        ensures { result ≡ [] }
    {
        SentLog {
            all: IndexMap::new(alloc),
        }
    }

    /// Appends a stamp that isn't there.
    pub fn push(&mut self, sent: Sent) -> Result<(), Memory>
        requires { find_sent self.old sent.stamp.ingest.0 sent.stamp.inc.0 sent.stamp.to ≡ None }
        ensures ok { OnOk result (self.new ≡ self.old ++ sent ∷ []) }
        ensures err { OnErr result (self.new ≡ self.old) }
    {
        let key = SentKey {
            ingest: sent.stamp.ingest,
            inc: sent.stamp.inc,
            to: sent.stamp.to,
        };
        self.all.insert(key, sent)?;
        Ok(())
    }

    /// How many were made.
    pub fn len(&self) -> usize
        ensures { result ≡ length self.now }
    {
        self.all.len()
    }

    /// The stamp of this node and incarnation that ends there. None exactly where no such stamp was made.
    pub fn find(&self, ingest: IngestId, inc: Inc, to: u64) -> Option<Sent>
        ensures { result ≡ find_sent self.now ingest.0 inc.0 to }
    {
        self.all.get(&SentKey { ingest, inc, to }).copied()
    }

    /// The stamp at this place, counted from 0. None exactly past the last one.
    pub fn at(&self, n: usize) -> Option<Sent>
        ensures { result ≡ slice_get self.now n }
    {
        value_at(&self.all, n)
    }
}

fn value_at(all: &IndexMap<SentKey, Sent>, n: usize) -> Option<Sent>
    ensures { result ≡ option_map (λ e. e.1) (slice_get all.now.entries n) }
{
    all.get_index(n).map(|entry| *entry.1)
}
