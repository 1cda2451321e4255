//! The world.

ghost use Rattle.std.specs.Prelude.{◌≡◌, ◌<◌, ◌≤◌, ◌+◌, ℕ, List, [], IfOk, OnOk, OnErr, length, slice_get, sum_by};
ghost use Rattle.kin_ids.specs.declared.ops.Record.{Record};

use crate::cores::Core;
use crate::sent_logs::Sent;
use kin_feed::Feed;
use kin_hub::Hub;
use kin_ids::{Inc, IngestId, Memory, User};
use kin_ingest::Ingest;
use kin_mine::Miner;
use kin_script::{Event, Outcome};
use std::alloc::Global;
use std::marker::Model;

/// The core as its callers see it: feeds, an ingest node for each, every stamp that was made, the hub, and
/// the miner. It always stands for some
/// list of events.
#[derive(Drop)]
pub struct World {
    core: Core,
}

impl Model for World {
    ghost use Rattle.kin_world.specs.Worlds.{WorldView};
    ghost use Rattle.kin_world.specs.Stands.{HasHistory};

    ghost Value = { WorldView };

    ghost view = { λ w. w.core };

    ghost invariant = { λ w. HasHistory w.core };
}

impl World {
    ghost use Rattle.kin_history.specs.Setting.{IsEvent};
    ghost use Rattle.kin_world.specs.SentStamps.{find_sent};
    ghost use Rattle.kin_hub.specs.Hubs.{cuts_in};
    ghost use Rattle.kin_world.specs.Worlds.{HasRoom, KeptWhereRefused, setting_of, node_at};
    ghost use Rattle.kin_world.specs.Stands.{Stands, Keeps, KeptAtMemory};
    ghost use Rattle.kin_world.specs.Mining.{CallsMiner};
    ghost use Rattle.kin_script.specs.declared.events.Event.{Event};
    ghost use Rattle.kin_history.specs.Setting.{Setting};
    ghost use Rattle.kin_history.specs.Drain.{drain, next_of_drain};
    ghost use Rattle.kin_history.specs.MiningLaws.{drain_by};

    /// Nothing happened yet. It costs O(n) in the nodes of all partitions.
    pub fn open(
        alloc: Global,
        feeds: Vec<Feed>,
        parts: u16,
        landmarks: &[User],
    ) -> Result<World, Memory>
        requires some_feeds { 0 < length feeds.items }
        requires few_feeds { length feeds.items ≤ 16 }
        requires few_records { sum_by (λ (feed : List Record). length feed) feeds.items ≤ 2097152 }
        requires some_parts { 0 < parts }
        requires few_parts { parts ≤ 64 }
        requires few_landmarks { length landmarks.now ≤ 16 }
        ensures stands { IfOk result (λ w.
            Stands (record { feeds = feeds.items; parts = parts; landmarks = landmarks.now }) w []) }
    {
        Ok(World {
            core: Core::open(alloc, feeds, parts, landmarks)?,
        })
    }

    /// One event. A stamp, a crash and a restart cost O(1) on average, a delivery the operations of its transaction and a logarithm of
    /// the early pieces for each piece that joins, a report O(n) in the nodes, a raise a search by halves in each
    /// partition and the stamps that are new, a cut O(n) in the partitions, the nodes and what it may take, and a commit a copy
    /// of the partition's store and what the epoch's pieces cost. Beginning an epoch costs a copy of its snapshot and an evaluation
    /// of all rules, a turn nothing, and mining an open epoch what it lets go. A cut has room while fewer than 2^32 - 1 epochs are cut; no
    /// event cuts more than one.
    pub fn step(&mut self, event: Event) -> Result<Outcome, Memory>
        requires event { IsEvent (setting_of self.old) event }
        requires room { HasRoom self.old event }
        ensures keeps { IfOk result (λ outcome. Keeps self.old event outcome self.new) }
        ensures refused { IfOk result (λ outcome. KeptWhereRefused self.old outcome self.new) }
        ensures setting { OnOk result (setting_of self.new ≡ setting_of self.old) }
        ensures cuts { cuts_in self.new.hub ≤ cuts_in self.old.hub + 1 }
        ensures calls { IfOk result (λ outcome. CallsMiner self.old event outcome self.new) }
        ensures err { OnErr result (KeptAtMemory self.old event self.new) }
    {
        self.core.step(event)
    }

    /// The feeds, node by node.
    pub fn feeds(&self) -> &[Feed]
        ensures { result.now ≡ self.now.feeds }
    {
        &self.core.feeds
    }

    /// How many partitions there are.
    pub fn parts(&self) -> u16
        ensures { result ≡ self.now.parts }
    {
        self.core.parts
    }

    /// The node of a feed.
    pub fn ingest(&self, i: IngestId) -> &Ingest
        requires { i.0 < length self.now.feeds }
        ensures { result.now ≡ node_at self.now i.0 }
    {
        &self.core.ingests[usize::from(i.0)]
    }

    /// The partitions and the progress table.
    pub fn hub(&self) -> &Hub
        ensures { result.now ≡ self.now.hub }
    {
        &self.core.hub
    }

    /// The miner: the values of the epoch begun last.
    pub fn miner(&self) -> &Miner
        ensures { result.now ≡ self.now.miner }
    {
        &self.core.miner
    }

    /// What is to be done next once no more events come: a Commit of the least partition that hasn't committed every cut, else a
    /// Mine where a cut epoch isn't mined. Repeating it drains the world. It costs O(n) in the partitions.
    pub fn drain_next(&self) -> Option<Event>
        ensures next { (set : Setting) (h : List Event) → Stands set self.now h → result ≡ next_of_drain set h }
        ensures drain { (set : Setting) (h : List Event) → Stands set self.now h → drain set h ≡ drain_by set h result }
    {
        self.core.drain_next()
    }

    /// How many stamps were made.
    pub fn sent_count(&self) -> u64
        ensures { result ≡ length self.now.sent }
    {
        self.core.sent.len() as u64
    }

    /// The stamp made after `n` others. None exactly where no more than `n` were made.
    pub fn sent_at(&self, n: u64) -> Option<Sent>
        ensures { result ≡ slice_get self.now.sent n }
    {
        self.core.sent.at(n as usize)
    }

    /// The stamp of this node and incarnation that ends there, in O(1) on average. None exactly where no such stamp was made.
    pub fn find_sent(&self, ingest: IngestId, inc: Inc, to: u64) -> Option<Sent>
        ensures { result ≡ find_sent self.now.sent ingest.0 inc.0 to }
    {
        self.core.sent.find(ingest, inc, to)
    }
}
