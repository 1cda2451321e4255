//! Walks by both rules, over the columns of a result that is lent.

ghost use Rattle.std.specs.Prelude.{◌≡◌, ◌≤◌, ◌+◌, true, false, None, IfOk, IfSome};
ghost use Rattle.std.specs.List.Sorted.{IsStrictlySortedBy};
ghost use Rattle.kin_ids.specs.declared.ids.User.{User};
ghost use Rattle.kin_ids.specs.Users.{has_user, user_cmp};
ghost use Rattle.kin_mine.specs.Walkers.{AreEntered, AreFresh, AreLong, AreSettled, AreStill, AreTurned, HaveStates};
ghost use Rattle.kin_mine.specs.Walkers.{KeepsRest, WalkOn, no_walkers, is_walking, walks_owed};

use crate::lanes::{either, enter_lanes, first_of, lesser, no_marks, settle_lanes, turn_lanes};
use crate::walk_rules::Distance;
use kin_graph::{Steps, View};
use kin_ids::{Memory, User};
use kin_push::{ActiveSet, Waves};
use kin_rules::EpochResult;
use std::alloc::Global;
use std::marker::Model;
use std::sync::ledger::Ledger;

/// Who is active by hops and by closeness from each landmark, by the places of the users of a result that is lent with
/// its columns, and room for turns.
#[derive(Drop)]
pub(crate) struct Walkers {
    hop_marks: Vec<ActiveSet>,
    close_marks: Vec<ActiveSet>,
    waves: Waves,
}

impl Model for Walkers {
    ghost use Rattle.kin_mine.specs.Walkers.{WalkersView};

    ghost Value = { WalkersView };

    ghost view = { λ w. record { hop_marks = w.hop_marks.items; close_marks = w.close_marks.items } };
}

impl Walkers {
    /// Nobody of so many users is active, from so many landmarks.
    pub(crate) fn still(alloc: Global, landmarks: usize, users: usize) -> Result<Walkers, Memory>
        ensures { IfOk result (λ w. w ≡ no_walkers landmarks users) }
    {
        Ok(Walkers {
            hop_marks: no_marks(alloc, landmarks, users)?,
            close_marks: no_marks(alloc, landmarks, users)?,
            waves: Waves::with_room(alloc, users)?,
        })
    }

    /// The least user who is active. It takes no memory.
    pub(crate) fn least_active(&self, users: &[User]) -> Option<User>
        requires ascend { IsStrictlySortedBy user_cmp users.now }
        requires long { AreLong users.now self.now }
        ensures none { result ≡ None → AreStill self.now }
        ensures some { IfSome result (λ u. (is_walking users.now self.now u ≡ true)
            × ((x : User) → is_walking users.now self.now x ≡ true → u.0 ≤ x.0)) }
    {
        let hops = first_of(self.hop_marks.as_slice());
        let close = first_of(self.close_marks.as_slice());
        match lesser(hops, close) {
            Some(place) => Some(users[place]),
            None => None,
        }
    }

    /// A turn of u by both rules from each landmark. Whether u was active in some column. It takes no memory.
    pub(crate) fn turn<V: View, L: Ledger>(
        &mut self,
        landmarks: &[User],
        columns: &mut EpochResult,
        view: &V,
        u: User,
        steps: &mut Steps<L>,
    ) -> bool
        requires { WalkOn (V.seen view.now) landmarks.now columns.old self.old }
        ensures on { WalkOn (V.seen view.now) landmarks.now columns.new self.new }
        ensures turns { AreTurned (V.seen view.now) u landmarks.now columns.old self.old columns.new self.new }
        ensures active { result ≡ is_walking columns.old.users self.old u }
        ensures rest { KeepsRest columns.old columns.new }
        ensures idle { is_walking columns.old.users self.old u ≡ false → (columns.new ≡ columns.old) × (self.new
            ≡ self.old)
            × (steps.new ≡ steps.old) }
        ensures reads { steps.new + walks_owed (V.seen view.now) landmarks.now columns.new self.new
            ≤ steps.old + walks_owed (V.seen view.now) landmarks.now columns.old self.old }
    {
        let mut walks = columns.take_walks();
        let hops = turn_lanes(
            Distance::Hops,
            landmarks,
            columns.users(),
            &mut walks.hops,
            &mut self.hop_marks,
            view,
            u,
            steps,
        );
        let close = turn_lanes(
            Distance::Close,
            landmarks,
            columns.users(),
            &mut walks.close,
            &mut self.close_marks,
            view,
            u,
            steps,
        );
        columns.put_walks(walks);
        either(hops, close)
    }

    /// Makes turns until nobody is active. It takes no memory.
    pub(crate) fn settle<V: View, L: Ledger>(
        &mut self,
        landmarks: &[User],
        columns: &mut EpochResult,
        view: &V,
        steps: &mut Steps<L>,
    )
        requires { WalkOn (V.seen view.now) landmarks.now columns.old self.old }
        ensures on { WalkOn (V.seen view.now) landmarks.now columns.new self.new }
        ensures settles { AreSettled (V.seen view.now) landmarks.now columns.old self.old columns.new self.new }
        ensures still { AreStill self.new }
        ensures rest { KeepsRest columns.old columns.new }
        ensures idle { AreStill self.old → (columns.new ≡ columns.old) × (self.new ≡ self.old) × (steps.new
            ≡ steps.old) }
        ensures reads { steps.new + walks_owed (V.seen view.now) landmarks.now columns.new self.new
            ≤ steps.old + walks_owed (V.seen view.now) landmarks.now columns.old self.old }
    {
        let mut walks = columns.take_walks();
        settle_lanes(
            Distance::Hops,
            landmarks,
            columns.users(),
            &mut walks.hops,
            &mut self.hop_marks,
            view,
            &mut self.waves,
            steps,
        );
        settle_lanes(
            Distance::Close,
            landmarks,
            columns.users(),
            &mut walks.close,
            &mut self.close_marks,
            view,
            &mut self.waves,
            steps,
        );
        columns.put_walks(walks);
    }

    /// Begins an epoch with these starts, where nobody is active. It takes no memory.
    pub(crate) fn enter(
        &mut self,
        landmarks: &[User],
        columns: &mut EpochResult,
        hop_starts: &[User],
        close_starts: &[User],
    )
        requires fresh { AreFresh landmarks.now columns.old self.old }
        requires hop_starts { (u : User) → has_user hop_starts.now u ≡ true → has_user columns.old.users u ≡ true }
        requires close_starts { (u : User) → has_user close_starts.now u ≡ true → has_user columns.old.users u ≡ true }
        ensures before { HaveStates landmarks.now columns.old self.old }
        ensures after { HaveStates landmarks.now columns.new self.new }
        ensures enters { AreEntered hop_starts.now close_starts.now landmarks.now columns.old self.old columns.new
            self.new }
        ensures rest { KeepsRest columns.old columns.new }
    {
        let mut walks = columns.take_walks();
        enter_lanes(
            Distance::Hops,
            landmarks,
            columns.users(),
            &mut walks.hops,
            &mut self.hop_marks,
            hop_starts,
        );
        enter_lanes(
            Distance::Close,
            landmarks,
            columns.users(),
            &mut walks.close,
            &mut self.close_marks,
            close_starts,
        );
        columns.put_walks(walks);
    }
}
