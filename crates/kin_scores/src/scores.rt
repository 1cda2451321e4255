//! Ranks and exposures that are kept.

ghost use Rattle.std.specs.Prelude.{◌≡◌, ◌≤◌, ◌⊎◌, true, [], None, Some, IfOk, IfSome};
ghost use Rattle.kin_ids.specs.declared.ids.User.{User};
ghost use Rattle.kin_changes.specs.Views.{empty_view};
ghost use Rattle.kin_rules.specs.Results.{ResultView};
ghost use Rattle.kin_pull.specs.States.{row_in};
ghost use Rattle.kin_scores.specs.Plans.{IsPlanOf, planned};
ghost use Rattle.kin_scores.specs.Scores.{AreKept, AreQuiet, AreShown, StandOn, is_active};

use crate::plans::ScorePlan;
use kin_ids::{Memory, User};
use kin_pull::{Kept, least_active};
use kin_rules::exposure_rules::Exposure;
use kin_rules::rank_rules::Rank;
use kin_rules::{EpochResult, PullRule, UseKs};
use std::alloc::Global;
use std::marker::Model;

/// The layers of rank and the entries of exposure of the users of an epoch, by the place of each. The users, and the
/// columns of ranks and of exposures, are those of a result that is lent.
#[derive(Drop)]
pub struct Scores {
    pub(crate) alloc: Global,
    pub(crate) ranks: Kept<u64>,
    pub(crate) expos: Kept<UseKs>,
}

impl Model for Scores {
    ghost use Rattle.kin_scores.specs.Scores.{ScoresView};

    ghost Value = { ScoresView };

    ghost view = { λ s. record { ranks = s.ranks; expos = s.expos } };
}

/// The lesser of two users who may be there.
pub fn lesser(a: Option<User>, b: Option<User>) -> Option<User>
    ensures none { result ≡ None → (a ≡ None) × (b ≡ None) }
    ensures one { IfSome result (λ u. (a ≡ Some u) ⊎ (b ≡ Some u)) }
    ensures least { IfSome result (λ u. IfSome a (λ x. u.0 ≤ x.0) × IfSome b (λ x. u.0 ≤ x.0)) }
{
    match (a, b) {
        (Some(x), Some(y)) => Some(if x.0 < y.0 { x } else { y }),
        (Some(x), None) => Some(x),
        (None, _) => b,
    }
}

impl Scores {
    /// Of nobody.
    pub fn nobody(alloc: Global) -> Result<Scores, Memory>
        ensures kept { IfOk result (AreKept []) }
        ensures on { IfOk result (StandOn empty_view []) }
        ensures quiet { IfOk result (AreQuiet []) }
        ensures shown { IfOk result (λ s. (r : ResultView) → r.ranks ≡ [] → r.tags ≡ [] → r.expos ≡ [] → AreShown s r) }
    {
        Ok(Scores {
            alloc,
            ranks: Kept::nobody(alloc, Rank::LAYERS)?,
            expos: Kept::nobody(alloc, Exposure::LAYERS)?,
        })
    }

    /// The least user who is active. O(n).
    pub fn least_active(&self, users: &[User]) -> Option<User>
        requires { AreKept users.now self.now }
        ensures some { IfSome result (λ u. (is_active users.now self.now u ≡ true)
            × ((x : User) → is_active users.now self.now x ≡ true → u.0 ≤ x.0)) }
        ensures none { result ≡ None → AreQuiet users.now self.now }
    {
        lesser(
            least_active::<Rank>(users, &self.ranks),
            least_active::<Exposure>(users, &self.expos),
        )
    }

    /// Begins the epoch of a plan, whose users and tags the result has by now: its ranks and exposures are those of the
    /// plan. It takes no memory.
    pub fn enter(&mut self, columns: &mut EpochResult, plan: ScorePlan)
        requires { IsPlanOf columns.old.users columns.old.tags plan }
        ensures planned { self.new ≡ planned plan }
        ensures kept { AreKept columns.new.users self.new }
        ensures shown { AreShown self.new columns.new }
        ensures rest { columns.new ≡ record columns.old { ranks = columns.new.ranks; expos = columns.new.expos } }
    {
        self.ranks = plan.ranks;
        self.expos = plan.expos;
        columns.put_ranks(self.ranks.row(8));
        columns.put_exposures(plan.lists);
    }
}
