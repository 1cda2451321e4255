//! An engine of a pull rule.

ghost use Rattle.std.specs.Prelude.{◌≡◌, ◌≤◌, ◌+◌, ℕ, true, false, [], None, IfOk, IfSome, OnErr, OnOk, Ok};
ghost use Rattle.std.specs.Prelude.{if◌then◌else◌};
ghost use Rattle.kin_ids.specs.declared.ids.User.{User};
ghost use Rattle.kin_ids.specs.Parts.{PartView};
ghost use Rattle.kin_graph.specs.Views.{AreVertices};
ghost use Rattle.kin_changes.specs.Views.{AreLed, empty_view};
ghost use Rattle.kin_rules.specs.declared.turns.Turn.TheVariants as turn;
ghost use Rattle.kin_pull.specs.Begins.{IsBegun};
ghost use Rattle.kin_pull.specs.Engines.{LeadOn};
ghost use Rattle.kin_pull.specs.Keeping.{layer_in};
ghost use Rattle.kin_pull.specs.Settles.{settle_reads};
ghost use Rattle.kin_pull.specs.States.{IsKept, IsQuiet, On, is_active, keeping, net_in, value_in};
ghost use Rattle.kin_pull.specs.Turns.{IsMoved, IsRested, turn_reads};

use crate::begins::plan;
use crate::kept::Kept;
use crate::settles::settle;
use crate::turns::{least_active, make_turn};
use kin_changes::next_users;
use kin_graph::{Delta, Steps, View};
use kin_ids::{Memory, User};
use kin_rules::{PullRule, Turn};
use std::alloc::Global;
use std::marker::Model;
use std::sync::ledger::Ledger;

/// A rule and what is kept of the users of the epoch that was begun last.
#[derive(Drop)]
pub struct PullEngine<R: PullRule + Drop> {
    alloc: Global,
    rule: R,
    users: Vec<User>,
    kept: Kept<R::Value>,
}

impl<R: PullRule + Drop> Model for PullEngine<R> {
    ghost use Rattle.kin_pull.specs.Engines.{Engine};
    ghost use Rattle.kin_pull.specs.States.{IsKept};

    ghost Value = { Engine R R.Value };

    ghost view = { λ a. record { rule = a.rule; users = a.users.items; kept = a.kept } };

    ghost invariant = { λ a. IsKept R.LAYERS a.users.items a.kept };
}

impl<R: PullRule + Drop> PullEngine<R> {
    /// Nobody yet.
    pub fn new(alloc: Global, rule: R) -> Result<PullEngine<R>, Memory>
        ensures rule { IfOk result (λ e. e.rule ≡ rule) }
        ensures users { IfOk result (λ e. e.users ≡ []) }
        ensures on { IfOk result (λ e. On (R.seen rule) R.LAYERS empty_view [] e.kept) }
        ensures quiet { IfOk result (λ e. IsQuiet [] e.kept) }
    {
        Ok(PullEngine {
            alloc,
            rule,
            users: Vec::new(alloc),
            kept: Kept::nobody(alloc, R::LAYERS)?,
        })
    }

    /// Begins the epoch of the deltas, one of each partition, which lead from the view of the last one to the next: see
    /// `plan`. After Memory all is as before.
    pub fn begin(&mut self, deltas: &[Delta]) -> Result<(), Memory>
        requires { LeadOn self.old.users deltas.now }
        ensures rule { self.new.rule ≡ self.old.rule }
        ensures begun { OnOk result (IsBegun
            (R.seen self.old.rule) deltas.now self.old.users self.old.kept self.new.users self.new.kept) }
        ensures on { OnOk result ((was is : PartView) → AreLed was is deltas.now → AreVertices was self.old.users
            → AreVertices is self.new.users × (On (R.seen self.old.rule) R.LAYERS was self.old.users self.old.kept
            → IsQuiet self.old.users self.old.kept
            → On (R.seen self.old.rule) R.LAYERS is self.new.users self.new.kept)) }
        ensures err { OnErr result (self.new ≡ self.old) }
    {
        match next_users(self.alloc, self.users.as_slice(), deltas)? {
            Some(more) => {
                let kept = plan(
                    self.alloc,
                    &self.rule,
                    self.users.as_slice(),
                    &self.kept,
                    more.as_slice(),
                    deltas,
                )?;
                self.users = more;
                self.kept = kept;
            }
            None => {
                let users = self.users.as_slice();
                let kept = plan(self.alloc, &self.rule, users, &self.kept, users, deltas)?;
                self.kept = kept;
            }
        }
        Ok(())
    }

    /// The turn of a user: see `make_turn`.
    pub fn turn<V: View, L: Ledger>(
        &mut self,
        view: &V,
        u: User,
        steps: &mut Steps<L>,
    ) -> Result<Turn, Memory>
        requires { On (R.seen self.old.rule) R.LAYERS (V.seen view.now) self.old.users self.old.kept }
        ensures rule { self.new.rule ≡ self.old.rule }
        ensures users { self.new.users ≡ self.old.users }
        ensures on { On (R.seen self.old.rule) R.LAYERS (V.seen view.now) self.old.users self.new.kept }
        ensures which { IfOk result (λ t. t
            ≡ (if is_active self.old.users self.old.kept u then turn.Turned else turn.Idle)) }
        ensures idle { is_active self.old.users self.old.kept u ≡ false → (self.new ≡ self.old)
            × (steps.new ≡ steps.old) × (result ≡ Ok turn.Idle) }
        ensures reads { steps.new
            ≤ steps.old + turn_reads (R.seen self.old.rule) (V.seen view.now) self.old.users self.old.kept u }
        ensures turned { OnOk result (is_active self.old.users self.new.kept u ≡ false) }
        ensures rested { OnOk result (is_active self.old.users self.old.kept u ≡ true → IsRested (R.seen self.old.rule)
            (net_in (R.seen self.old.rule).side (V.seen view.now) self.old.users self.new.kept) R.LAYERS (keeping
            (R.seen self.old.rule).first self.old.users self.new.kept) u) }
        ensures moved { OnOk result (is_active self.old.users self.old.kept u ≡ true
            → IsMoved (net_in (R.seen self.old.rule).side (V.seen view.now) self.old.users self.old.kept) R.LAYERS u
            (keeping (R.seen self.old.rule).first self.old.users self.old.kept) (keeping
            (R.seen self.old.rule).first self.old.users self.new.kept)) }
        ensures err { OnErr result (self.new ≡ self.old) }
    {
        make_turn(
            self.alloc,
            &self.rule,
            self.users.as_slice(),
            &mut self.kept,
            view,
            u,
            steps,
        )
    }

    /// Computes the layers again of all who need it: see `settle`.
    pub fn settle<V: View, L: Ledger>(
        &mut self,
        view: &V,
        steps: &mut Steps<L>,
    ) -> Result<(), Memory>
        requires { On (R.seen self.old.rule) R.LAYERS (V.seen view.now) self.old.users self.old.kept }
        ensures rule { self.new.rule ≡ self.old.rule }
        ensures users { self.new.users ≡ self.old.users }
        ensures on { On (R.seen self.old.rule) R.LAYERS (V.seen view.now) self.old.users self.new.kept }
        ensures layers { OnOk result ((j : ℕ) (x : User) → j ≤ R.LAYERS → value_in
            (R.seen self.old.rule).first self.old.users self.new.kept j x
            ≡ layer_in (R.seen self.old.rule)
            (net_in (R.seen self.old.rule).side (V.seen view.now) self.old.users self.old.kept) j x) }
        ensures quiet { OnOk result (IsQuiet self.old.users self.new.kept) }
        ensures reads { OnOk result (steps.new ≡ steps.old + settle_reads (R.seen self.old.rule)
            (net_in (R.seen self.old.rule).side (V.seen view.now) self.old.users self.old.kept) (V.seen view.now)
            (keeping (R.seen self.old.rule).first self.old.users self.old.kept) self.old.users R.LAYERS) }
        ensures idle { IsQuiet self.old.users self.old.kept → (self.new ≡ self.old) × (steps.new ≡ steps.old)
            × (result ≡ Ok tt) }
        ensures err { OnErr result (self.new ≡ self.old) }
    {
        settle(
            self.alloc,
            &self.rule,
            self.users.as_slice(),
            &mut self.kept,
            view,
            steps,
        )
    }

    /// The least user who is active. O(n).
    pub fn least_active(&self) -> Option<User>
        ensures some { IfSome result (λ u. (is_active self.now.users self.now.kept u ≡ true) × ((x : User)
            → is_active self.now.users self.now.kept x ≡ true → u.0 ≤ x.0)) }
        ensures none { result ≡ None → IsQuiet self.now.users self.now.kept }
    {
        least_active::<R>(self.users.as_slice(), &self.kept)
    }
}
