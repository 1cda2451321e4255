//! The miner.

ghost use Rattle.std.specs.Prelude.{◌≡◌, ◌≢◌, ◌≤◌, ◌<◌, ◌+◌, ◌^◌, ◌↔◌, ℕ, true, false, [], None, if◌then◌else◌};
ghost use Rattle.std.specs.Prelude.{IsErrOf, IfOk, IfSome, OnErr, OnOk, length, unwrap_or};
ghost use Rattle.kin_ids.specs.declared.ids.Epoch.{Epoch};
ghost use Rattle.kin_ids.specs.declared.ids.User.{User};
ghost use Rattle.kin_ids.specs.Graph.{Graph, empty_graph};
ghost use Rattle.kin_ids.specs.Users.{has_user};
ghost use Rattle.kin_ids.specs.Wholes.{IsViewOf};
ghost use Rattle.kin_graph.specs.Views.{IsSmall};
ghost use Rattle.kin_blocks.specs.Snaps.{joined};
ghost use Rattle.kin_changes.specs.Views.{AreLed};
ghost use Rattle.kin_counts.specs.Plans.{IsPlanOf, planned_tags, planned_users};
ghost use Rattle.kin_rules.specs.declared.turns.Turn.TheVariants as turn;
ghost use Rattle.kin_rules.specs.Results.{IsResult, ResultView};
ghost use Rattle.kin_scores.specs.Plans.{HasBegun};
ghost use Rattle.kin_scores.specs.Plans as scores;
ghost use Rattle.kin_scores.specs.Turns.{most_reads, scores_reads};
ghost use Rattle.kin_mine.specs.Epochs.{BeginsOn, Settles, TurnsAt, owed};
ghost use Rattle.kin_mine.specs.Miners.{IsLeastUser, IsMinerOf, active_in, begun, seen, turn_of};
ghost use Rattle.kin_mine.specs.Plans.{IsFreshFor, IsPlanned, LeadOn};

use crate::lanes::either;
use crate::plans::Plan;
use crate::refusals::{BeginRefused, ResultRefused, TurnRefused};
use crate::walkers::Walkers;
use kin_blocks::{Delta, Snap};
use kin_counts::CountPlan;
use kin_graph::Steps;
use kin_hops::{Close, Hops};
use kin_ids::{Epoch, Memory, Tag, User};
use kin_push::starts;
use kin_rules::{EpochResult, Turn};
use kin_scores::scores::lesser;
use kin_scores::{ScorePlan, Scores};
use std::alloc::Global;
use std::marker::Model;
use std::sync::ledger::Ledger;

/// All values of the epoch begun last, from each of the landmarks. They are kept from epoch to epoch: counts by what an
/// epoch changed, and walks, ranks and exposures by turns of users.
#[derive(Drop)]
pub struct Miner {
    alloc: Global,
    landmarks: Vec<User>,
    result: EpochResult,
    snap: Option<Snap>,
    walkers: Walkers,
    scores: Scores,
}

impl Model for Miner {
    ghost use Rattle.kin_mine.specs.Miners.{IsMining, MinerView};

    ghost Value = { MinerView };

    ghost view = { λ m. record {
      landmarks = m.landmarks.items;
      result = m.result;
      snap = m.snap;
      walkers = m.walkers;
      scores = m.scores;
    } };

    ghost invariant = { λ m. IsMining (record {
      landmarks = m.landmarks.items;
      result = m.result;
      snap = m.snap;
      walkers = m.walkers;
      scores = m.scores;
    }) };
}

// What a turn of a user answers that was active or wasn't.
fn turned(was_active: bool) -> Turn
    ensures { result ≡ (if was_active then turn.Turned else turn.Idle) }
{
    if was_active { Turn::Turned } else { Turn::Idle }
}

// Whether it is the answer of a user that was active.
fn is_turned(answer: Turn) -> bool
    ensures { answer ≡ (if result then turn.Turned else turn.Idle) }
{
    match answer {
        Turn::Turned => true,
        Turn::Idle => false,
    }
}

// The marks and the room are fresh ones, where there are such.
fn renew(walkers: &mut Walkers, fresh: Option<Walkers>)
    ensures { walkers.new ≡ unwrap_or fresh walkers.old }
{
    if let Some(fresh) = fresh {
        *walkers = fresh;
    }
}

// The users of the next epoch.
fn next_users<'a>(counts: &'a CountPlan, users: &'a [User]) -> &'a [User]
    ensures { (r : ResultView) → r.users ≡ users.now → result.now ≡ planned_users counts.now r }
{
    match counts.users() {
        Some(more) => more,
        None => users,
    }
}

// The tags of the next epoch.
fn next_tags<'a>(counts: &'a CountPlan, tags: &'a [Tag]) -> &'a [Tag]
    ensures { (r : ResultView) → r.tags ≡ tags.now → result.now ≡ planned_tags counts.now r }
{
    match counts.tags() {
        Some(more) => more,
        None => tags,
    }
}

impl Miner {
    /// Before any epoch: epoch 0 of the empty graph. It costs O(n) in the landmarks.
    pub fn new(alloc: Global, landmarks: &[User]) -> Result<Miner, Memory>
        requires { length landmarks.now ≤ 16 }
        ensures landmarks { IfOk result (λ m. m.landmarks ≡ landmarks.now) }
        ensures quiet { IfOk result (λ m. active_in m ≡ []) }
        ensures stands { IfOk result (IsMinerOf empty_graph 0) }
    {
        Ok(Miner {
            alloc,
            landmarks: Vec::from_slice(alloc, landmarks)?,
            result: EpochResult::new(alloc, landmarks.len())?,
            snap: None,
            walkers: Walkers::still(alloc, landmarks.len(), 0)?,
            scores: Scores::nobody(alloc)?,
        })
    }

    /// The landmarks, in order. It takes no memory.
    pub fn landmarks(&self) -> &[User]
        ensures { result.now ≡ self.now.landmarks }
    {
        self.landmarks.as_slice()
    }

    /// The least active user. None where nobody is active. It takes no memory, and costs O(n) in the users.
    pub fn least_active(&self) -> Option<User>
        ensures none { result ≡ None → active_in self.now ≡ [] }
        ensures some { IfSome result (IsLeastUser (active_in self.now)) }
    {
        let users = self.result.users();
        lesser(
            self.walkers.least_active(users),
            self.scores.least_active(users),
        )
    }

    /// Begins the next epoch on its snapshot, which is let go where the call is refused, with what the epoch changed in
    /// each partition. All memory is taken before anything changes. Counts and walks cost what changed, and O(n) in the
    /// users for each of their columns where there are new ones; ranks and exposures cost O(n) in the users and in the
    /// entries.
    pub fn begin(&mut self, epoch: Epoch, snap: Snap, deltas: &[Delta]) -> Result<(), BeginRefused>
        requires small { IsSmall (joined snap) }
        requires room { begun self.old < u32.MAX }
        requires said { (u : User) → (joined snap).said u < 2 ^ 64 }
        requires led { AreLed (seen self.old) (joined snap) deltas.now }

        // The causes, in the order in which they are looked at.
        ensures busy { (k : Epoch) → IsErrOf result (BeginRefused.Busy k)
            ↔ ((active_in self.old ≢ []) × (k.0 ≡ begun self.old)) }
        ensures not_next { (k : Epoch) → IsErrOf result (BeginRefused.NotNext k)
            ↔ ((active_in self.old ≡ []) × (k.0 ≡ begun self.old + 1) × (epoch.0 ≢ begun self.old + 1)) }
        ensures err { OnErr result (self.new ≡ self.old) }

        // The epoch, and what the miner then stands for.
        ensures epoch { OnOk result (begun self.new ≡ begun self.old + 1) }
        ensures landmarks { self.new.landmarks ≡ self.old.landmarks }
        ensures begins { OnOk result (BeginsOn (joined snap) deltas.now self.old self.new) }
        ensures stands { OnOk result ((g : Graph) → IsViewOf g (joined snap) → IsMinerOf g epoch.0 self.new) }
    {
        if self.least_active().is_some() {
            return Err(BeginRefused::Busy(self.result.epoch()));
        }
        let next = Epoch(self.result.epoch().0 + 1);
        if epoch != next {
            return Err(BeginRefused::NotNext(next));
        }
        let plan = self.plan(deltas)?;
        self.enter(epoch, snap, plan, deltas);
        Ok(())
    }

    // Marks and room for the next users, where they aren't those of now.
    fn fresh_for(&self, counts: &CountPlan) -> Result<Option<Walkers>, Memory>
        ensures { IfOk result (IsFreshFor self.now.landmarks self.now.result.users
            (planned_users counts.now self.now.result)) }
    {
        match counts.users() {
            Some(users) => Ok(Some(Walkers::still(self.alloc, self.landmarks.len(), users.len())?)),
            None => Ok(None),
        }
    }

    // The part of ranks and exposures.
    fn plan_scores(&self, counts: &CountPlan, deltas: &[Delta]) -> Result<ScorePlan, Memory>
        requires counts { IsPlanOf self.now.result deltas.now counts.now }
        requires lead { LeadOn (seen self.now) deltas.now }
        ensures plan { IfOk result (scores.IsPlanOf (planned_users counts.now self.now.result)
            (planned_tags counts.now self.now.result)) }
        ensures begun { IfOk result (HasBegun deltas.now self.now.result.users self.now.scores
            (planned_users counts.now self.now.result)) }
    {
        let users = self.result.users();
        let more = next_users(counts, users);
        let tags = next_tags(counts, self.result.tags());
        self.scores.plan(users, more, tags, deltas)
    }

    // All memory that the next epoch takes.
    fn plan(&self, deltas: &[Delta]) -> Result<Plan, Memory>
        requires { LeadOn (seen self.now) deltas.now }
        ensures { IfOk result (IsPlanned self.now deltas.now) }
    {
        let counts = kin_counts::plan(self.alloc, &self.result, deltas)?;
        let fresh = self.fresh_for(&counts)?;
        let scores = self.plan_scores(&counts, deltas)?;
        let landmark = User(0);
        Ok(Plan {
            counts,
            fresh,
            hop_starts: starts(self.alloc, &Hops { landmark }, deltas)?,
            close_starts: starts(self.alloc, &Close { landmark }, deltas)?,
            scores,
        })
    }

    // Begins the epoch by its plan. It takes no memory.
    fn enter(&mut self, epoch: Epoch, snap: Snap, plan: Plan, deltas: &[Delta])
        requires quiet { active_in self.old ≡ [] }
        requires small { IsSmall (joined snap) }
        requires said { (u : User) → (joined snap).said u < 2 ^ 64 }
        requires led { AreLed (seen self.old) (joined snap) deltas.now }
        requires plan { IsPlanned self.old deltas.now plan }
        requires some { 0 < epoch.0 }
        ensures epoch { begun self.new ≡ epoch.0 }
        ensures landmarks { self.new.landmarks ≡ self.old.landmarks }
        ensures begins { BeginsOn (joined snap) deltas.now self.old self.new }
        ensures stands { (g : Graph) → IsViewOf g (joined snap) → IsMinerOf g epoch.0 self.new }
    {
        let Plan {
            counts,
            fresh,
            hop_starts,
            close_starts,
            scores,
        } = plan;
        kin_counts::enter(&mut self.result, counts, deltas);
        self.scores.enter(&mut self.result, scores);
        renew(&mut self.walkers, fresh);
        self.walkers.enter(
            self.landmarks.as_slice(),
            &mut self.result,
            hop_starts.as_slice(),
            close_starts.as_slice(),
        );
        self.result.set_epoch(epoch);
        self.snap = Some(snap);
    }

    /// A turn of a user: by each rule of walks for which it is active, it offers its values to the ends of the edges
    /// out of it; by rank and by exposure its layers are computed again. It costs O(log n) for each edge, and where
    /// ranks or exposures take the turn O(n) in the users and in the entries. After Memory all is as before.
    pub fn turn<L: Ledger>(&mut self, u: User, steps: &mut Steps<L>) -> Result<Turn, TurnRefused>
        ensures not_begun { IsErrOf result TurnRefused.NotBegun ↔ (begun self.old ≡ 0) }
        ensures turn { IfOk result (λ turn. turn ≡ turn_of self.old u) }
        ensures turns { OnOk result (TurnsAt u self.old self.new) }
        ensures idle { has_user (active_in self.old) u ≡ false → (self.new ≡ self.old) × (steps.new ≡ steps.old) }
        ensures reads { OnOk result (steps.new + owed self.new
            ≤ steps.old + owed self.old + most_reads (seen self.old) self.old.result.users self.old.scores u) }
        ensures err { OnErr result (self.new ≡ self.old) }
        ensures landmarks { self.new.landmarks ≡ self.old.landmarks }
        ensures stands { (g : Graph) (k : ℕ) → IsMinerOf g k self.old → IsMinerOf g k self.new }
    {
        let Some(snap) = &self.snap else {
            return Err(TurnRefused::NotBegun);
        };
        let scored = self.scores.turn(&mut self.result, snap, u, steps)?;
        let walked = self.walkers.turn(self.landmarks.as_slice(), &mut self.result, snap, u, steps);
        Ok(turned(either(walked, is_turned(scored))))
    }

    /// Makes turns until nobody is active, layer by layer by rank and by exposure. Where somebody is active by these it
    /// costs O(n) in the users for each layer, and a look at all entries. After Memory all is as before.
    pub fn settle<L: Ledger>(&mut self, steps: &mut Steps<L>) -> Result<(), TurnRefused>
        ensures not_begun { IsErrOf result TurnRefused.NotBegun ↔ (begun self.old ≡ 0) }
        ensures settles { OnOk result (Settles self.old self.new) }
        ensures quiet { OnOk result (active_in self.new ≡ []) }
        ensures idle { active_in self.old ≡ [] → (self.new ≡ self.old) × (steps.new ≡ steps.old) }
        ensures reads { OnOk result (steps.new + owed self.new
            ≤ steps.old + owed self.old + scores_reads (seen self.old) self.old.result.users self.old.scores) }
        ensures err { OnErr result (self.new ≡ self.old) }
        ensures landmarks { self.new.landmarks ≡ self.old.landmarks }
        ensures stands { (g : Graph) (k : ℕ) → IsMinerOf g k self.old → IsMinerOf g k self.new }
    {
        let Some(snap) = &self.snap else {
            return Err(TurnRefused::NotBegun);
        };
        self.scores.settle(&mut self.result, snap, steps)?;
        self.walkers
            .settle(self.landmarks.as_slice(), &mut self.result, snap, steps);
        Ok(())
    }

    /// All values of the epoch begun last. It takes no memory.
    pub fn result(&self) -> Result<&EpochResult, ResultRefused>
        ensures not_begun { IsErrOf result ResultRefused.NotBegun ↔ (begun self.now ≡ 0) }
        ensures active { (u : User) → IsErrOf result (ResultRefused.Active u)
            ↔ ((begun self.now ≢ 0) × IsLeastUser (active_in self.now) u) }
        ensures quiet { OnOk result (active_in self.now ≡ []) }
        ensures result { IfOk result (λ r. r.now ≡ self.now.result) }
        ensures exact { OnOk result ((g : Graph) (k : ℕ) → IsMinerOf g k self.now
            → IsResult g self.now.landmarks self.now.result) }
    {
        if self.snap.is_none() {
            return Err(ResultRefused::NotBegun);
        }
        match self.least_active() {
            Some(u) => Err(ResultRefused::Active(u)),
            None => Ok(&self.result),
        }
    }
}
