//! The core of a world: what each event does.

ghost use Rattle.std.specs.Prelude.{◌≡◌, ◌<◌, ◌≤◌, ◌+◌, ℕ, true, false, List, [], All};
ghost use Rattle.std.specs.Prelude.{IfOk, MatchOption, None, nat_lt, OnOk, OnErr, Some, length, map, sum_by};
ghost use Rattle.kin_ids.specs.declared.ops.Record.{Record};
ghost use Rattle.kin_ids.specs.Sizes.{IsSmall};
ghost use Rattle.kin_script.specs.declared.events.Event.{Event};
ghost use Rattle.kin_world.specs.Opens.{AreFirst};

use crate::sent_logs::{Sent, SentLog};
use crate::told::{told, told_raise};
use crate::turns::{settle, turn_of};
use kin_feed::Feed;
use kin_hub::{CommitRefused, CutRefused, Hub, Raised};
use kin_ids::{Epoch, Inc, IngestId, Memory, PartId, Piece, User};
use kin_ingest::{Ingest, RestartRefused, StampRefused};
use kin_mine::{BeginRefused, Miner, TurnRefused};
use kin_ops::piece_of;
use kin_script::{Event, Outcome, Refusal};
use std::alloc::Global;
use std::marker::{Brand, Model};
use std::sync::ledger::Blank;

/// The nodes of the feeds, the stamps that they made, the hub, and the miner.
#[derive(Drop)]
pub(crate) struct Core {
    pub(crate) alloc: Global,
    pub(crate) feeds: Vec<Feed>,
    pub(crate) parts: u16,
    pub(crate) ingests: Vec<Ingest>,
    pub(crate) sent: SentLog,
    pub(crate) hub: Hub,
    pub(crate) miner: Miner,
    // How many epochs were mined, and whether the next one was begun.
    pub(crate) mined: u32,
    pub(crate) is_open: bool,
}

impl Model for Core {
    ghost use Rattle.kin_world.specs.Worlds.{WorldView, IsWorld};

    ghost Value = { WorldView };

    ghost view = { λ w. record {
      feeds = w.feeds.items;
      parts = w.parts;
      ingests = w.ingests.items;
      sent = w.sent;
      hub = w.hub;
      miner = w.miner;
      mined = w.mined;
      is_open = w.is_open;
    } };

    ghost invariant = { λ w. IsWorld (record {
      feeds = w.feeds.items;
      parts = w.parts;
      ingests = w.ingests.items;
      sent = w.sent;
      hub = w.hub;
      miner = w.miner;
      mined = w.mined;
      is_open = w.is_open;
    }) };
}

impl Core {
    ghost use Rattle.kin_history.specs.Drain.{drain_event};
    ghost use Rattle.kin_history.specs.Setting.{IsEvent};
    ghost use Rattle.kin_table.specs.Tables.{raised_of};
    ghost use Rattle.kin_hub.specs.Cores.{ready, with_report, with_raise};
    ghost use Rattle.kin_hub.specs.Hubs.{agreed_in, cuts_in};
    ghost use Rattle.kin_hub.specs.Commits.{MayCommit};
    ghost use Rattle.kin_hub.specs.Goes.{HubKeeps, HubRaises};
    ghost use Rattle.kin_world.specs.SentStamps.{find_sent};
    ghost use Rattle.kin_world.specs.Worlds.{IsWorld, HasRoom, KeptWhereRefused, setting_of};
    ghost use Rattle.kin_world.specs.Steps.{Stamps, Crashes, Restarts, MayRestart, IsStamped};
    ghost use Rattle.kin_world.specs.Steps.{IsPieceFor, Delivers, Cuts, CommitsPart};
    ghost use Rattle.kin_world.specs.Mining.{Begins, CallsMiner, MayOpen, Mines, MinesOpen};
    ghost use Rattle.kin_world.specs.Mining.{TurnsOn, Turns, held_back_in, lagging_in};
    ghost use Rattle.kin_world.specs.Stands.{Stands, HasHistory, Keeps, KeepsOrBegins, KeptAtMemory};

    pub fn open(
        alloc: Global,
        feeds: Vec<Feed>,
        parts: u16,
        landmarks: &[User],
    ) -> Result<Core, Memory>
        requires some { 0 < length feeds.items }
        requires few { length feeds.items ≤ 16 }
        requires few_records { sum_by (λ (feed : List Record). length feed) feeds.items ≤ 2097152 }
        requires parts { 0 < parts }
        requires few_landmarks { length landmarks.now ≤ 16 }
        ensures stands { IfOk result (λ w.
            Stands (record { feeds = feeds.items; parts = parts; landmarks = landmarks.now }) w []) }
    {
        let nodes = feeds.len() as u16;
        let ingests = first_nodes(alloc, &feeds)?;
        let hub = Hub::new(alloc, nodes, parts)?;
        Ok(Core {
            alloc,
            feeds,
            parts,
            ingests,
            sent: SentLog::new(alloc),
            hub,
            miner: Miner::new(alloc, landmarks)?,
            mined: 0,
            is_open: false,
        })
    }

    pub fn step(&mut self, event: Event) -> Result<Outcome, Memory>
        requires event { IsEvent (setting_of self.old) event }
        requires room { HasRoom self.old event }
        requires history { HasHistory self.old }
        ensures keeps { IfOk result (λ outcome. Keeps self.old event outcome self.new) }
        ensures refused { IfOk result (λ outcome. KeptWhereRefused self.old outcome self.new) }
        ensures calls { IfOk result (λ outcome. CallsMiner self.old event outcome self.new) }
        ensures err { OnErr result (KeptAtMemory self.old event self.new) }
    {
        match event {
            Event::Stamp { ingest, n } => self.stamp(ingest, n),
            Event::Deliver {
                part,
                ingest,
                inc,
                to,
            } => self.deliver(part, ingest, inc, to),
            Event::Report { part } => {
                self.hub.report(part);
                Ok(Outcome::Reported)
            }
            Event::Raise { ingest } => Ok(told_raise(self.hub.raise(ingest))),
            Event::Crash { ingest } => Ok(self.crash(ingest)),
            Event::Restart { ingest } => Ok(self.restart(ingest)),
            Event::Cut { n } => self.cut(n),
            Event::Commit { part } => self.commit(part),
            Event::Begin => self.begin(),
            Event::Turn { user } => self.turn(user),
            Event::Mine => self.mine(),
        }
    }

    fn stamp(&mut self, ingest: IngestId, n: u64) -> Result<Outcome, Memory>
        requires node { ingest.0 < length self.old.feeds }
        requires some { 0 < n }
        requires few { n ≤ 16 }
        requires history { HasHistory self.old }
        ensures stamps { IfOk result (λ outcome. Stamps self.old ingest.0 n outcome self.new) }
        ensures err { OnErr result (self.new ≡ self.old) }
        ensures world { IsWorld self.new }
    {
        let at = usize::from(ingest.0);
        let mut node = Ingest { ..self.ingests[at] };
        match node.stamp(n) {
            Ok(stamp) => {
                self.sent.push(Sent {
                    stamp,
                    base: node.base,
                })?;
                self.ingests[at] = node;
                Ok(Outcome::Stamped(stamp))
            }
            Err(StampRefused::Down) => Ok(Outcome::Refused(Refusal::Down)),
            Err(StampRefused::Exhausted) => Ok(Outcome::Refused(Refusal::Exhausted)),
            Err(StampRefused::BadBatch) => unreachable!(),
        }
    }

    fn deliver(
        &mut self,
        part: PartId,
        ingest: IngestId,
        inc: Inc,
        to: u64,
    ) -> Result<Outcome, Memory>
        requires part { part.0 < self.old.parts }
        requires node { ingest.0 < length self.old.feeds }
        requires history { HasHistory self.old }
        ensures delivers { IfOk result (λ outcome.
            Delivers self.old part.0 (find_sent self.old.sent ingest.0 inc.0 to) outcome self.new) }
        ensures err { OnErr result (self.new ≡ self.old) }
        ensures world { IsWorld self.new }
    {
        let Some(sent) = self.sent.find(ingest, inc, to) else {
            return Ok(Outcome::Refused(Refusal::NotSent));
        };
        let piece = self.piece_for(sent, part)?;
        let taken = self.hub.take(piece)?;
        Ok(told(taken))
    }

    // A partition's piece of a stamp that was made.
    fn piece_for(&self, sent: Sent, part: PartId) -> Result<Piece, Memory>
        requires part { part.0 < self.now.parts }
        requires stamped { IsStamped self.now sent }
        ensures { IfOk result (λ piece. IsPieceFor self.now sent part.0 piece) }
    {
        let stamp = sent.stamp;
        let feed = &self.feeds[usize::from(stamp.ingest.0)];
        let records = &feed.records()[stamp.from as usize..stamp.to as usize];
        piece_of(self.alloc, stamp, sent.base, records, self.parts, part)
    }

    fn crash(&mut self, ingest: IngestId) -> Outcome
        requires { ingest.0 < length self.old.feeds }
        ensures crashes { Crashes self.old ingest.0 result self.new }
        ensures world { IsWorld self.new }
    {
        let node = &mut self.ingests[usize::from(ingest.0)];
        match node.crash() {
            Ok(()) => Outcome::Crashed,
            Err(_down) => Outcome::Refused(Refusal::Down),
        }
    }

    fn restart(&mut self, ingest: IngestId) -> Outcome
        requires node { ingest.0 < length self.old.feeds }
        requires may { MayRestart self.old ingest.0 }
        ensures restarts { Restarts self.old ingest.0 result self.new }
        ensures world { IsWorld self.new }
    {
        let base = self.hub.agreed(ingest);
        let node = &mut self.ingests[usize::from(ingest.0)];
        match node.restart(base) {
            Ok(inc) => {
                self.hub.seal(ingest).unwrap();
                Outcome::Restarted { inc, base }
            }
            Err(RestartRefused::Up) => Outcome::Refused(Refusal::Up),
            Err(RestartRefused::IncarnationsSpent) => Outcome::Refused(Refusal::IncarnationsSpent),
        }
    }

    fn cut(&mut self, n: Option<u64>) -> Result<Outcome, Memory>
        requires { cuts_in self.old.hub < u32.MAX }
        ensures cuts { IfOk result (λ outcome. Cuts self.old n outcome self.new) }
        ensures err { OnErr result (self.new ≡ self.old) }
        ensures world { IsWorld self.new }
    {
        match self.hub.cut(n) {
            Ok(cut) => Ok(Outcome::CutMade(cut.epoch)),
            Err(CutRefused::NotReported(part)) => {
                Ok(Outcome::Refused(Refusal::NotReported(part)))
            }
            Err(CutRefused::Memory) => Err(Memory),
        }
    }

    fn commit(&mut self, part: PartId) -> Result<Outcome, Memory>
        requires part { part.0 < self.old.parts }
        requires said { MayCommit self.old.hub part.0 }
        ensures commits { IfOk result (λ outcome. CommitsPart self.old part.0 outcome self.new) }
        ensures err { OnErr result (self.new ≡ self.old) }
        ensures world { IsWorld self.new }
    {
        match self.hub.commit(part) {
            Ok(epoch) => Ok(Outcome::Committed(epoch)),
            Err(CommitRefused::NothingCut) => Ok(Outcome::Refused(Refusal::NothingCut)),
            Err(CommitRefused::Memory) => Err(Memory),
        }
    }

    fn begin(&mut self) -> Result<Outcome, Memory>
        requires history { HasHistory self.old }
        ensures begins { IfOk result (λ outcome. Begins self.old outcome self.new) }
        ensures err { OnErr result (self.new ≡ self.old) }
        ensures world { IsWorld self.new }
    {
        if self.is_open {
            return Ok(Outcome::Refused(Refusal::Busy(self.next_epoch())));
        }
        match self.open_next()? {
            Some(why) => Ok(Outcome::Refused(why)),
            None => Ok(Outcome::Begun(self.next_epoch())),
        }
    }

    fn turn(&mut self, user: User) -> Result<Outcome, Memory>
        requires history { HasHistory self.old }
        ensures turns { IfOk result (λ outcome. Turns self.old user outcome self.new) }
        ensures err { OnErr result (self.new ≡ self.old) }
        ensures world { IsWorld self.new }
    {
        if !self.is_open {
            return Ok(Outcome::Refused(Refusal::NotBegun));
        }
        match turn_of::<Brand>(&mut self.miner, user, Blank::new(1)) {
            Ok(_turn) => Ok(Outcome::Turned),
            Err(TurnRefused::NotBegun) => unreachable!(),
            Err(TurnRefused::Memory) => Err(Memory),
        }
    }

    // After `Memory` the next epoch may be open, and some turns made.
    fn mine(&mut self) -> Result<Outcome, Memory>
        requires history { HasHistory self.old }
        ensures mines { IfOk result (λ outcome. Mines self.old outcome self.new) }
        ensures err { OnErr result (KeepsOrBegins self.old self.new) }
        ensures world { IsWorld self.new }
    {
        if !self.is_open {
            if let Some(why) = self.open_next()? {
                return Ok(Outcome::Refused(why));
            }
        }
        let epoch = self.mine_open()?;
        Ok(Outcome::Mined(epoch))
    }

    // Opens the next epoch, or says why it can't be opened.
    fn open_next(&mut self) -> Result<Option<Refusal>, Memory>
        requires history { HasHistory self.old }
        requires closed { self.old.is_open ≡ false }
        ensures why { IfOk result (λ why. why ≡ held_back_in self.old) }
        ensures opens { IfOk result (λ why. MayOpen self.old why self.new) }
        ensures err { OnErr result (self.new ≡ self.old) }
        ensures world { IsWorld self.new }
    {
        if let Some(why) = self.held_back() {
            return Ok(Some(why));
        }
        let epoch = self.next_epoch();
        let snap = self.hub.snapshot(epoch).unwrap().share()?;
        let deltas = self.hub.deltas(epoch).unwrap();
        match self.miner.begin(epoch, snap, deltas) {
            Ok(()) => {
                self.is_open = true;
                Ok(None)
            }
            // Nobody is active where no epoch is open, and the epoch is the one after that begun last.
            Err(BeginRefused::Busy(_)) => unreachable!(),
            Err(BeginRefused::NotNext(_)) => unreachable!(),
            Err(BeginRefused::Memory) => Err(Memory),
        }
    }

    // Completes the open epoch, and lets go of those below it. After `Memory` some turns are made.
    fn mine_open(&mut self) -> Result<Epoch, Memory>
        requires history { HasHistory self.old }
        requires open { self.old.is_open ≡ true }
        ensures epoch { IfOk result (λ k. k.0 ≡ self.old.mined + 1) }
        ensures mines { OnOk result (MinesOpen self.old self.new) }
        ensures err { OnErr result (TurnsOn self.old self.new) }
        ensures world { IsWorld self.new }
    {
        match settle::<Brand>(&mut self.miner, Blank::new(1)) {
            Ok(()) => {
                let epoch = self.next_epoch();
                self.hub.release_below(epoch);
                self.mined = epoch.0;
                self.is_open = false;
                Ok(epoch)
            }
            Err(TurnRefused::NotBegun) => unreachable!(),
            Err(TurnRefused::Memory) => Err(Memory),
        }
    }

    /// The next event of the drain.
    pub fn drain_next(&self) -> Option<Event>
        ensures { result ≡ drain_event (lagging_in self.now (cuts_in self.now.hub))
            (nat_lt self.now.mined (cuts_in self.now.hub)) }
    {
        let cuts = self.hub.cuts();
        if let Some(part) = self.lagging(cuts) {
            return Some(Event::Commit { part });
        }
        (u64::from(self.mined) < cuts).then_some(Event::Mine)
    }

    // The epoch after the one mined last.
    fn next_epoch(&self) -> Epoch
        requires { self.now.mined < u32.MAX }
        ensures { result.0 ≡ self.now.mined + 1 }
    {
        Epoch(self.mined + 1)
    }

    // Why the next epoch can't be opened, if it can't.
    fn held_back(&self) -> Option<Refusal>
        ensures { result ≡ held_back_in self.now }
    {
        let next = u64::from(self.mined) + 1;
        if self.hub.cuts() < next {
            return Some(Refusal::NothingCut);
        }
        let part = self.lagging(next)?;
        Some(Refusal::NotCommitted(part))
    }

    // The least partition that hasn't committed an epoch.
    fn lagging(&self, epoch: u64) -> Option<PartId>
        ensures { MatchOption result (lagging_in self.now epoch ≡ None)
            (λ p. lagging_in self.now epoch ≡ Some p.0) }
    {
        for p in 0..self.parts {
            if self.hub.committed(PartId(p)) < epoch {
                return Some(PartId(p));
            }
        }
        None
    }
}

// A node of each feed, at its start.
fn first_nodes(alloc: Global, feeds: &[Feed]) -> Result<Vec<Ingest>, Memory>
    requires { length feeds.now ≤ 16 }
    ensures nodes { IfOk result (λ nodes. AreFirst feeds.now nodes.items) }
    ensures small { OnOk result (All (λ (feed : List Record). All IsSmall feed) feeds.now) }
{
    let mut ingests = Vec::with_capacity(alloc, feeds.len())?;
    for i in 0..feeds.len() {
        ingests.push(Ingest::new(IngestId(i as u16), feeds[i].len()))?;
    }
    Ok(ingests)
}
