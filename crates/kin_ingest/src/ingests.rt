//! The state of one ingest node.

ghost use Rattle.std.specs.Prelude.{◌≡◌, ◌≢◌, ◌+◌, ◌<◌, ◌≤◌, ◌↔◌, ◌⊎◌, IsTrue, true, false, IfOk, OnOk, OnErr, IsErr, IsErrOf};
ghost use Rattle.kin_ids.specs.Lines.{next_stamp};
ghost use Rattle.kin_ids.specs.Operations.{IsTransaction};
ghost use Rattle.kin_ingest.specs.Ingests.{IsStanding};

use crate::refusals::{Down, RestartRefused, StampRefused};
use kin_ids::{Inc, IngestId, Stamp};

/// The most records that one stamp holds.
const LARGEST_BATCH: u64 = 16;

/// Node `id` reads a feed of `len` records. Its incarnation `inc` began at position `base`, and has
/// stamped the records up to position `next`. Its calls cost O(1), and take no memory.
#[derive(Debug, PartialEq, Eq, Drop)]
pub struct Ingest {
    pub id: IngestId,
    pub len: u64,
    pub inc: Inc,
    pub base: u64,
    pub next: u64,
    pub up: bool,
}

impl Ingest {
    /// A node at the start of its feed, up.
    pub fn new(id: IngestId, len: u64) -> Ingest
        ensures start { result
            ≡ record { id = id; len = len; inc = record { 0 = 0 }; base = 0; next = 0; up = true } }
        ensures standing { IsStanding result }
    {
        Ingest {
            id,
            len,
            inc: Inc(0),
            base: 0,
            next: 0,
            up: true,
        }
    }

    /// Stamps the next `n` records, or what is left where that is less.
    pub fn stamp(&mut self, n: u64) -> Result<Stamp, StampRefused>
        // The causes, in the order in which they are looked at.
        ensures down { IsErrOf result StampRefused.Down ↔ (self.old.up ≡ false) }
        ensures exhausted { IsErrOf result StampRefused.Exhausted
            ↔ (IsTrue self.old.up × (self.old.next ≡ self.old.len)) }
        ensures bad_batch { IsErrOf result StampRefused.BadBatch
            ↔ (IsTrue self.old.up × (self.old.next ≢ self.old.len) × ((n ≡ 0) ⊎ (LARGEST_BATCH < n))) }
        ensures err { OnErr result (self.new ≡ self.old) }

        // The stamp, and the node after it.
        ensures stamp { IfOk result
            (λ s. s ≡ next_stamp self.old.len self.old.id.0 self.old.inc.0 self.old.next n) }
        ensures moved { IfOk result (λ s. self.new ≡ record self.old { next = s.to }) }

        // A node that stands in its feed stamps a transaction of it, at or past its base, and stands.
        ensures transaction { IsStanding self.old → IfOk result (IsTransaction self.old.len) }
        ensures after_base { IsStanding self.old → IfOk result (λ s. self.old.base ≤ s.from) }
        ensures standing { IsStanding self.old → IsStanding self.new }
    {
        if !self.up {
            return Err(StampRefused::Down);
        }
        if self.next == self.len {
            return Err(StampRefused::Exhausted);
        }
        if n == 0 || n > LARGEST_BATCH {
            return Err(StampRefused::BadBatch);
        }
        let from = self.next;
        let to = from.saturating_add(n).min(self.len);
        self.next = to;
        Ok(Stamp {
            ingest: self.id,
            inc: self.inc,
            from,
            to,
        })
    }

    /// Takes the node down.
    pub fn crash(&mut self) -> Result<(), Down>
        ensures down { IsErr result ↔ (self.old.up ≡ false) }
        ensures err { OnErr result (self.new ≡ self.old) }
        ensures ok { OnOk result (self.new ≡ record self.old { up = false }) }
    {
        if !self.up {
            return Err(Down);
        }
        self.up = false;
        Ok(())
    }

    /// Brings the node back under the next incarnation, which begins at `base`.
    pub fn restart(&mut self, base: u64) -> Result<Inc, RestartRefused>
        requires { base ≤ self.old.len }
        ensures up { IsErrOf result RestartRefused.Up ↔ IsTrue self.old.up }
        ensures spent { IsErrOf result RestartRefused.IncarnationsSpent
            ↔ ((self.old.up ≡ false) × (self.old.inc.0 ≡ u16.MAX)) }
        ensures err { OnErr result (self.new ≡ self.old) }
        ensures next { IfOk result (λ inc. inc.0 ≡ self.old.inc.0 + 1) }
        ensures ok { IfOk result
            (λ inc. self.new ≡ record self.old { inc = inc; base = base; next = base; up = true }) }
        ensures standing { OnOk result (IsStanding self.new) }
    {
        if self.up {
            return Err(RestartRefused::Up);
        }
        if self.inc.0 == u16::MAX {
            return Err(RestartRefused::IncarnationsSpent);
        }
        self.inc = Inc(self.inc.0 + 1);
        self.base = base;
        self.next = base;
        self.up = true;
        Ok(self.inc)
    }
}

#[cfg(test)]
mod tests {
    use super::*;

    #[test]
    fn a_batch_has_one_to_sixteen_records(rt: HostRuntime) {
        let mut node = Ingest::new(IngestId(0), 3);
        assert_eq!(rt; node.stamp(0), Err(StampRefused::BadBatch));
        assert_eq!(rt; node.stamp(17), Err(StampRefused::BadBatch));
        assert_eq!(rt; node, Ingest::new(IngestId(0), 3));
    }
}
