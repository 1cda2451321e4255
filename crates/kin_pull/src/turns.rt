//! The turn of a user.

ghost use Rattle.std.specs.Prelude.{◌≡◌, ◌+◌, ◌<◌, ◌≤◌, ◌==◌, ◌&&◌, ◌||◌, ◌^◌, ℕ, Bool, true, false, List, [], Option};
ghost use Rattle.std.specs.Prelude.{Some, None, IfOk};
ghost use Rattle.std.specs.Prelude.{IfSome, OnErr, OnOk, Ok, All, is_some, length, map, option_copied, slice_index_or};
ghost use Rattle.std.specs.Prelude.{unwrap_or};
ghost use Rattle.std.specs.Prelude.{if◌then◌else◌};
ghost use Rattle.kin_ids.specs.declared.ids.User.{User};
ghost use Rattle.std.specs.List.Sorted.{IsStrictlySortedBy};
ghost use Rattle.kin_ids.specs.Users.{has_user, user_cmp};
ghost use Rattle.kin_rules.specs.declared.pull_rules.Facts.{Facts};
ghost use Rattle.kin_rules.specs.declared.turns.Turn.TheVariants as turn;
ghost use Rattle.kin_rules.specs.Edges.{places_of};
ghost use Rattle.kin_rules.specs.LayerTables.{neighbours_seen};
ghost use Rattle.kin_rules.specs.Layers.{lent};
ghost use Rattle.kin_rules.specs.Places.{place};
ghost use Rattle.kin_pull.specs.Keeping.{next_of};
ghost use Rattle.kin_pull.specs.Settles.{reads_on};
ghost use Rattle.kin_pull.specs.States.{IsKept, IsQuiet, On, is_active, is_from, keeping, net_in, opposite, row_in};
ghost use Rattle.kin_pull.specs.TurnPlans.{IsTurnPlan, planned_value};
ghost use Rattle.kin_pull.specs.TurnSteps.{IsColumn, IsTurnedOver, column_at, shows_turned, turned_at, turned_in};
ghost use Rattle.kin_pull.specs.TurnSteps.{turned_input};
ghost use Rattle.kin_pull.specs.Turns.{IsMoved, IsRested, turn_reads};

use crate::kept::Kept;
use crate::places::{ends, find, halves_on, opposite};
use crate::showing::shows;
use kin_graph::{Steps, View};
use kin_ids::{Memory, User};
use kin_rules::{Lent, PullRule, Side, Turn};
use std::alloc::Global;
use std::marker::Model;
use std::sync::ledger::Ledger;

/// A turn that is planned: the new values of its user in each layer above layer 0, and to which of its readers a change
/// shows, from which layer on.
#[derive(Drop)]
pub struct TurnPlan<V: Drop> {
    place: usize,
    column: Vec<V>,
    from: Option<u32>,
    readers: Vec<usize>,
}

impl<V: Drop> Model for TurnPlan<V> {
    ghost use Rattle.kin_pull.specs.TurnPlans.{TurnPlanView};

    ghost Value = { TurnPlanView V };

    ghost view = { λ a. record { place = a.place; column = a.column.items; from = a.from; readers = a.readers.items } };
}

impl<V: Drop> TurnPlan<V> {
    /// The user's new value in a layer above layer 0, with nothing where there is no such layer. O(1).
    pub fn value(&self, layer: u32) -> Option<&V>
        ensures { option_copied result ≡ planned_value self.now layer }
    {
        if layer == 0 {
            return None;
        }
        self.column.as_slice().get(layer as usize - 1)
    }
}

// The value of the turning user in a layer.
fn own_value<'a, V: Drop>(first: &'a V, column: &'a [V], layer: u32) -> &'a V
    ensures { result.now ≡ column_at first.now column.now layer }
{
    if layer == 0 {
        return first;
    }
    match column.get(layer as usize - 1) {
        Some(value) => value,
        None => first,
    }
}

// The value of whoever stands at a place, where the turning user at place i has its column.
fn turned_value<'a, V: Drop>(
    kept: &'a Kept<V>,
    first: &'a V,
    column: &'a [V],
    i: usize,
    layer: u32,
    p: usize,
) -> &'a V
    ensures { result.now ≡ turned_at first.now kept.now column.now i layer p }
{
    if p == i {
        return own_value(first, column, layer);
    }
    kept.value(first, layer, p)
}

// Lends the inputs that stand at these places.
fn lend_turned<'a, V: Drop>(
    alloc: Global,
    kept: &'a Kept<V>,
    first: &'a V,
    column: &'a [V],
    i: usize,
    layer: u32,
    ends: &[usize],
) -> Result<Vec<Lent<'a, V>>, Memory>
    requires { All (λ p. p < length kept.now.facts) ends.now }
    ensures { IfOk result (λ v. (df : Facts) → lent v.items
        ≡ map (turned_input df first.now kept.now column.now i layer) ends.now) }
{
    let mut inputs = Vec::with_capacity(alloc, ends.len())?;
    for end in ends {
        inputs.push(Lent {
            facts: &kept.facts()[*end],
            value: turned_value(kept, first, column, i, layer, *end),
        })?;
    }
    Ok(inputs)
}

// The value of the turning user in the layer above.
fn next_own<R: PullRule>(
    alloc: Global,
    rule: &R,
    kept: &Kept<R::Value>,
    first: &R::Value,
    column: &[R::Value],
    i: usize,
    layer: u32,
    row: &[usize],
) -> Result<R::Value, Memory>
    requires ends { All (λ p. p < length kept.now.facts) row.now }
    requires within { i < length kept.now.facts }
    ensures { IfOk result (λ value. (df : Facts) → value ≡ (R.seen rule.now).next (slice_index_or kept.now.facts i df)
        (map (turned_input df first.now kept.now column.now i layer) row.now)) }
{
    let inputs = lend_turned(alloc, kept, first, column, i, layer, row)?;
    rule.next_lent(alloc, &kept.facts()[i], inputs.as_slice())
}

// Every layer of a user above layer 0, of its inputs' kept values and of its own new ones.
fn column<R: PullRule, V: View, L: Ledger>(
    alloc: Global,
    rule: &R,
    users: &[User],
    kept: &Kept<R::Value>,
    first: &R::Value,
    view: &V,
    i: usize,
    u: User,
    steps: &mut Steps<L>,
) -> Result<Vec<R::Value>, Memory>
    requires kept { IsKept R.LAYERS users.now kept.now }
    requires on { On (R.seen rule.now) R.LAYERS (V.seen view.now) users.now kept.now }
    requires first { first.now ≡ (R.seen rule.now).first }
    requires within { i < length users.now }
    requires at { place users.now u ≡ i }
    ensures column { IfOk result (λ column. IsColumn (R.seen rule.now)
        (V.seen view.now) users.now kept.now u R.LAYERS column.items) }
    ensures reads { steps.new ≡ steps.old + reads_on (R.seen rule.now).side (V.seen view.now) u }
{
    let row = ends(alloc, users, halves_on(view, rule.side(), u, steps))?;
    let mut column = Vec::new(alloc);
    for layer in 0..R::LAYERS {
        let value = next_own(
            alloc,
            rule,
            kept,
            first,
            column.as_slice(),
            i,
            layer,
            row.as_slice(),
        )?;
        column.push(value)?;
    }
    Ok(column)
}

// The layer above the least one whose change shows.
fn shown_from<R: PullRule>(
    rule: &R,
    users: &[User],
    kept: &Kept<R::Value>,
    first: &R::Value,
    column: &[R::Value],
    i: usize,
    u: User,
) -> Option<u32>
    requires kept { IsKept R.LAYERS users.now kept.now }
    requires first { first.now ≡ (R.seen rule.now).first }
    requires within { i < length users.now }
    requires at { place users.now u ≡ i }
    ensures hidden { (j : ℕ) → j < R.LAYERS → is_from result (j + 1) ≡ false → shows_turned
        (R.seen rule.now) users.now kept.now column.now u j ≡ false }
    ensures shown { IfSome result (λ l. (j : ℕ) × (l ≡ j + 1) × (j < R.LAYERS)
        × (shows_turned (R.seen rule.now) users.now kept.now column.now u j ≡ true)) }
{
    for layer in 0..R::LAYERS {
        if changes_turned(rule, users, kept, first, column, i, u, layer) {
            return Some(layer + 1);
        }
    }
    None
}

// Whether the change of a layer of the turning user shows.
fn changes_turned<R: PullRule>(
    rule: &R,
    users: &[User],
    kept: &Kept<R::Value>,
    first: &R::Value,
    column: &[R::Value],
    i: usize,
    u: User,
    layer: u32,
) -> bool
    requires kept { IsKept R.LAYERS users.now kept.now }
    requires first { first.now ≡ (R.seen rule.now).first }
    requires within { i < length users.now }
    requires at { place users.now u ≡ i }
    ensures { result ≡ shows_turned (R.seen rule.now) users.now kept.now column.now u layer }
{
    let _ = users;
    let _ = u;
    shows(
        rule,
        kept.told_facts(i),
        &kept.facts()[i],
        true,
        kept.value(first, layer, i),
        own_value(first, column, layer),
    )
}

// The places of a user's readers, where a change shows to them.
fn readers<V: View, L: Ledger>(
    alloc: Global,
    users: &[User],
    view: &V,
    side: Side,
    from: Option<u32>,
    u: User,
    steps: &mut Steps<L>,
) -> Result<Vec<usize>, Memory>
    requires { IsStrictlySortedBy user_cmp users.now }
    ensures row { IfOk result (λ row. row.items ≡ (if is_some from then places_of users.now (neighbours_seen side
        (V.seen view.now) u) else [])) }
    ensures reads { steps.new ≤ steps.old + reads_on side (V.seen view.now) u }
{
    if from.is_none() {
        return Ok(Vec::new(alloc));
    }
    ends(alloc, users, halves_on(view, side, u, steps))
}

// The place of a user, where it is active.
fn active_place<V: Drop>(users: &[User], kept: &Kept<V>, u: User) -> Option<usize>
    requires ascend { IsStrictlySortedBy user_cmp users.now }
    requires told { length kept.now.told ≡ length users.now }
    requires low { length kept.now.low ≡ length users.now }
    ensures some { IfSome result (λ i. (i ≡ place users.now u) × (i < length users.now)
        × (is_active users.now kept.now u ≡ true)) }
    ensures none { result ≡ None → is_active users.now kept.now u ≡ false }
{
    let i = find(users, u)?;
    if kept.low()[i].is_some() || kept.told()[i].is_some() {
        Some(i)
    } else {
        None
    }
}

/// The turn of a user, to be entered later: each of its layers is computed again, of its inputs' kept values. None
/// where the user isn't active, and then nothing is read. Nothing changes, after Memory too. It costs O(log n) for each
/// edge into and out of the user, and for each layer a step for each input.
pub fn plan_turn<R: PullRule, V: View, L: Ledger>(
    alloc: Global,
    rule: &R,
    users: &[User],
    kept: &Kept<R::Value>,
    view: &V,
    u: User,
    steps: &mut Steps<L>,
) -> Result<Option<TurnPlan<R::Value>>, Memory>
    requires kept { IsKept R.LAYERS users.now kept.now }
    requires on { On (R.seen rule.now) R.LAYERS (V.seen view.now) users.now kept.now }
    ensures which { IfOk result (λ plan. is_some plan ≡ is_active users.now kept.now u) }
    ensures idle { is_active users.now kept.now u ≡ false → (steps.new ≡ steps.old) × (result ≡ Ok None) }
    ensures reads { steps.new ≤ steps.old + turn_reads (R.seen rule.now) (V.seen view.now) users.now kept.now u }
    ensures plan { IfOk result (λ o. IfSome o
        (IsTurnPlan (R.seen rule.now) R.LAYERS (V.seen view.now) users.now kept.now u)) }
    ensures values { IfOk result (λ o. IfSome o (λ plan. (j : ℕ) → 0 < j → j ≤ R.LAYERS
        → is_some (planned_value plan j) ≡ true)) }
{
    let Some(place) = active_place(users, kept, u) else {
        return Ok(None);
    };
    let first = rule.first(alloc)?;
    let column = column(alloc, rule, users, kept, &first, view, place, u, steps)?;
    let from = shown_from(rule, users, kept, &first, column.as_slice(), place, u);
    let readers = readers(alloc, users, view, opposite(rule.side()), from, u, steps)?;
    Ok(Some(TurnPlan {
        place,
        column,
        from,
        readers,
    }))
}

/// Makes a turn that was planned on what is kept: the user has its planned values, is active no longer and at rest, and
/// those of its readers become active to whom a change shows. It takes no memory. It costs a step for each layer and
/// for each of these readers.
pub fn enter_turn<R: PullRule, V: View>(
    rule: &R,
    users: &[User],
    kept: &mut Kept<R::Value>,
    view: &V,
    u: User,
    plan: TurnPlan<R::Value>,
)
    requires kept { IsKept R.LAYERS users.now kept.old }
    requires on { On (R.seen rule.now) R.LAYERS (V.seen view.now) users.now kept.old }
    requires plan { IsTurnPlan (R.seen rule.now) R.LAYERS (V.seen view.now) users.now kept.old u plan }
    ensures kept { IsKept R.LAYERS users.now kept.new }
    ensures on { On (R.seen rule.now) R.LAYERS (V.seen view.now) users.now kept.new }
    ensures turned { is_active users.now kept.new u ≡ false }
    ensures rested { IsRested (R.seen rule.now)
        (net_in (R.seen rule.now).side (V.seen view.now) users.now kept.new) R.LAYERS
        (keeping (R.seen rule.now).first users.now kept.new) u }
    ensures moved { IsMoved (net_in (R.seen rule.now).side (V.seen view.now) users.now kept.old) R.LAYERS u
        (keeping (R.seen rule.now).first users.now kept.old) (keeping (R.seen rule.now).first users.now kept.new) }
    ensures row { (j p : ℕ) (d : R.Value) → slice_index_or (row_in kept.new j) p d
        ≡ (if p == place users.now u then unwrap_or (planned_value plan j) d else slice_index_or
        (row_in kept.old j) p d) }
{
    let _ = rule;
    let _ = users;
    let _ = view;
    let _ = u;
    let TurnPlan {
        place,
        column,
        from,
        readers,
    } = plan;
    kept.turn_over(place, column, from, readers.as_slice());
}

/// The turn of a user: each of its layers is computed again, of its inputs' kept values, and those of its readers
/// become active to whom a change shows. Then it isn't active, and is at rest. After Memory all is as before. It costs
/// O(log n) for each edge into and out of the user, and for each layer a step for each input.
pub fn make_turn<R: PullRule, V: View, L: Ledger>(
    alloc: Global,
    rule: &R,
    users: &[User],
    kept: &mut Kept<R::Value>,
    view: &V,
    u: User,
    steps: &mut Steps<L>,
) -> Result<Turn, Memory>
    requires kept { IsKept R.LAYERS users.now kept.old }
    requires on { On (R.seen rule.now) R.LAYERS (V.seen view.now) users.now kept.old }
    ensures kept { IsKept R.LAYERS users.now kept.new }
    ensures on { On (R.seen rule.now) R.LAYERS (V.seen view.now) users.now kept.new }
    ensures which { IfOk result (λ t. t ≡ (if is_active users.now kept.old u then turn.Turned else turn.Idle)) }
    ensures idle { is_active users.now kept.old u ≡ false → (kept.new ≡ kept.old) × (steps.new ≡ steps.old)
        × (result ≡ Ok turn.Idle) }
    ensures reads { steps.new ≤ steps.old + turn_reads (R.seen rule.now) (V.seen view.now) users.now kept.old u }
    ensures turned { OnOk result (is_active users.now kept.new u ≡ false) }
    ensures rested { OnOk result (is_active users.now kept.old u ≡ true → IsRested (R.seen rule.now)
        (net_in (R.seen rule.now).side (V.seen view.now) users.now kept.new) R.LAYERS (keeping
        (R.seen rule.now).first users.now kept.new) u) }
    ensures moved { OnOk result (is_active users.now kept.old u ≡ true → IsMoved (net_in (R.seen rule.now).side
        (V.seen view.now) users.now kept.old) R.LAYERS u
        (keeping (R.seen rule.now).first users.now kept.old) (keeping (R.seen rule.now).first users.now kept.new)) }
    ensures err { OnErr result (kept.new ≡ kept.old) }
{
    let Some(plan) = plan_turn(alloc, rule, users, kept, view, u, steps)? else {
        return Ok(Turn::Idle);
    };
    enter_turn(rule, users, kept, view, u, plan);
    Ok(Turn::Turned)
}

/// The least user who is active. O(n).
pub fn least_active<R: PullRule>(users: &[User], kept: &Kept<R::Value>) -> Option<User>
    requires { IsKept R.LAYERS users.now kept.now }
    ensures some { IfSome result (λ u. (is_active users.now kept.now u ≡ true)
        × ((x : User) → is_active users.now kept.now x ≡ true
        → u.0 ≤ x.0)) }
    ensures none { result ≡ None → IsQuiet users.now kept.now }
{
    let i = kept.first_active()?;
    Some(users[i])
}
