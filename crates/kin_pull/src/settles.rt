//! A settle: every layer of all who need it is computed again.

ghost use Rattle.std.specs.Prelude.{◌≡◌, ◌+◌, ◌<◌, ◌≤◌, ℕ, List, [], None, IfOk, IfSome, OnErr, OnOk, Ok, length, map};
ghost use Rattle.std.specs.Prelude.{slice_index_or};
ghost use Rattle.kin_ids.specs.declared.ids.User.{User};
ghost use Rattle.kin_pull.specs.Keeping.{layer_in};
ghost use Rattle.kin_pull.specs.Passes.{IsDraft, drafted_at};
ghost use Rattle.kin_pull.specs.Settles.{settle_reads};
ghost use Rattle.kin_pull.specs.States.{IsKept, IsQuiet, On, keeping, net_in, row_in, value_in};

use crate::ends::Ends;
use crate::kept::{Kept, row_of};
use crate::passes::pass;
use crate::showing::drawn_value;
use kin_graph::{Steps, View};
use kin_ids::{Memory, User};
use kin_rules::PullRule;
use std::alloc::Global;
use std::marker::Model;
use std::sync::ledger::Ledger;

/// A settle that is planned: for each layer above layer 0 the values that are computed again, at the places of their
/// users.
#[derive(Drop)]
pub struct SettlePlan<V: Drop> {
    draft: Vec<Vec<Option<V>>>,
}

impl<V: Drop> Model for SettlePlan<V> {
    ghost use Rattle.std.specs.Prelude.{List, Option, map};

    ghost Value = { List (List (Option V)) };

    ghost view = { λ a. map (λ r. r.items) a.draft.items };
}

impl<V: Drop> SettlePlan<V> {
    /// What stands at a place of a layer above layer 0 once the plan is entered on what is kept: the value that is
    /// computed again, or else the one that is kept, or else `first`. O(1).
    pub fn value_of<'a>(&'a self, kept: &'a Kept<V>, first: &'a V, layer: u32, i: usize) -> &'a V
        ensures { result.now ≡ drafted_at self.now kept.now layer i first.now }
    {
        drawn_value(kept, first, layer, row_of(self.draft.as_slice(), layer), i)
    }
}

// The new values of all layers.
fn draw<R: PullRule, V: View, L: Ledger>(
    alloc: Global,
    rule: &R,
    users: &[User],
    kept: &Kept<R::Value>,
    view: &V,
    steps: &mut Steps<L>,
) -> Result<Vec<Vec<Option<R::Value>>>, Memory>
    requires kept { IsKept R.LAYERS users.now kept.now }
    requires on { On (R.seen rule.now) R.LAYERS (V.seen view.now) users.now kept.now }
    ensures draft { IfOk result (λ draft. IsDraft (R.seen rule.now) (V.seen view.now) users.now kept.now R.LAYERS (map
        (λ r. r.items) draft.items)) }
    ensures reads { OnOk result (steps.new ≡ steps.old + settle_reads (R.seen rule.now) (net_in (R.seen rule.now).side
        (V.seen view.now) users.now kept.now) (V.seen view.now)
        (keeping (R.seen rule.now).first users.now kept.now) users.now R.LAYERS) }
{
    let first = rule.first(alloc)?;
    let mut ins = Ends::none(alloc, users.len())?;
    let mut outs = Ends::none(alloc, users.len())?;
    let mut draft = Vec::new(alloc);
    for layer in 0..R::LAYERS {
        let above = pass(
            alloc,
            rule,
            users,
            kept,
            &first,
            layer,
            row_of(draft.as_slice(), layer),
            view,
            &mut ins,
            &mut outs,
            steps,
        )?;
        draft.push(above)?;
    }
    Ok(draft)
}

/// The layers again of all who are active and of those to whom a change shows, layer by layer, to be entered later.
/// None where nobody is active, and then nothing is read. Nothing changes, after Memory too. It costs as `settle`.
pub fn plan_settle<R: PullRule, V: View, L: Ledger>(
    alloc: Global,
    rule: &R,
    users: &[User],
    kept: &Kept<R::Value>,
    view: &V,
    steps: &mut Steps<L>,
) -> Result<Option<SettlePlan<R::Value>>, Memory>
    requires kept { IsKept R.LAYERS users.now kept.now }
    requires on { On (R.seen rule.now) R.LAYERS (V.seen view.now) users.now kept.now }
    ensures idle { IsQuiet users.now kept.now → (steps.new ≡ steps.old) × (result ≡ Ok None) }
    ensures none { IfOk result (λ plan. plan ≡ None → IsQuiet users.now kept.now) }
    ensures draft { IfOk result (λ o. IfSome o
        (IsDraft (R.seen rule.now) (V.seen view.now) users.now kept.now R.LAYERS)) }
    ensures reads { OnOk result (steps.new ≡ steps.old + settle_reads (R.seen rule.now) (net_in (R.seen rule.now).side
        (V.seen view.now) users.now kept.now) (V.seen view.now)
        (keeping (R.seen rule.now).first users.now kept.now) users.now R.LAYERS) }
{
    if kept.first_active().is_none() {
        return Ok(None);
    }
    let draft = draw(alloc, rule, users, kept, view, steps)?;
    Ok(Some(SettlePlan { draft }))
}

/// Settles by a plan that was made on what is kept: whoever is computed again has its new values, everybody else keeps
/// those that it has, and nobody is active. It takes no memory. O(n) in the users for each layer.
pub fn enter_settle<R: PullRule, V: View>(
    rule: &R,
    users: &[User],
    kept: &mut Kept<R::Value>,
    view: &V,
    plan: SettlePlan<R::Value>,
)
    requires kept { IsKept R.LAYERS users.now kept.old }
    requires on { On (R.seen rule.now) R.LAYERS (V.seen view.now) users.now kept.old }
    requires plan { IsDraft (R.seen rule.now) (V.seen view.now) users.now kept.old R.LAYERS plan }
    ensures kept { IsKept R.LAYERS users.now kept.new }
    ensures on { On (R.seen rule.now) R.LAYERS (V.seen view.now) users.now kept.new }
    ensures layers { (j : ℕ) (x : User) → j ≤ R.LAYERS → value_in (R.seen rule.now).first users.now kept.new j x
        ≡ layer_in (R.seen rule.now) (net_in (R.seen rule.now).side (V.seen view.now) users.now kept.old) j x }
    ensures quiet { IsQuiet users.now kept.new }
    ensures values { (j i : ℕ) (d : R.Value) → slice_index_or (row_in kept.new j) i d ≡ drafted_at plan kept.old j i d }
{
    let _ = rule;
    let _ = users;
    let _ = view;
    kept.take_over(plan.draft);
}

/// Computes the layers again of all who are active and of those to whom a change shows, layer by layer. Then nobody is
/// active, and every layer is the rule's. After Memory all is as before. Where somebody is active it costs O(n) in the
/// users for each layer, and for each user that is computed again, or whose change shows, O(log n) once for each edge
/// on that side, and a step for each such edge in each layer.
pub fn settle<R: PullRule, V: View, L: Ledger>(
    alloc: Global,
    rule: &R,
    users: &[User],
    kept: &mut Kept<R::Value>,
    view: &V,
    steps: &mut Steps<L>,
) -> Result<(), Memory>
    requires kept { IsKept R.LAYERS users.now kept.old }
    requires on { On (R.seen rule.now) R.LAYERS (V.seen view.now) users.now kept.old }
    ensures kept { IsKept R.LAYERS users.now kept.new }
    ensures on { On (R.seen rule.now) R.LAYERS (V.seen view.now) users.now kept.new }
    ensures layers { OnOk result ((j : ℕ) (x : User) → j ≤ R.LAYERS
        → value_in (R.seen rule.now).first users.now kept.new j x
        ≡ layer_in (R.seen rule.now) (net_in (R.seen rule.now).side (V.seen view.now) users.now kept.old) j x) }
    ensures quiet { OnOk result (IsQuiet users.now kept.new) }
    ensures reads { OnOk result (steps.new ≡ steps.old + settle_reads (R.seen rule.now) (net_in (R.seen rule.now).side
        (V.seen view.now) users.now kept.old) (V.seen view.now)
        (keeping (R.seen rule.now).first users.now kept.old) users.now R.LAYERS) }
    ensures idle { IsQuiet users.now kept.old → (kept.new ≡ kept.old) × (steps.new ≡ steps.old) × (result ≡ Ok tt) }
    ensures err { OnErr result (kept.new ≡ kept.old) }
{
    let Some(plan) = plan_settle(alloc, rule, users, kept, view, steps)? else {
        return Ok(());
    };
    enter_settle(rule, users, kept, view, plan);
    Ok(())
}
