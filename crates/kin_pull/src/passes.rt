//! A settle layer by layer: who is due, and what is computed again.

ghost use Rattle.std.specs.Prelude.{◌≡◌, ◌==◌, ◌^◌, ◌+◌, ◌<◌, ◌&&◌, ◌||◌, ℕ, Bool, true, false, List, [], Option, Some};
ghost use Rattle.std.specs.Prelude.{None, IfOk, IfSome, OnOk, All, unwrap_or, length, map, take, slice_index_or};
ghost use Rattle.std.specs.Prelude.{if◌then◌else◌};
ghost use Rattle.kin_ids.specs.declared.ids.User.{User};
ghost use Rattle.kin_ids.specs.Users.{has_user};
ghost use Rattle.kin_rules.specs.declared.pull_rules.Facts.{Facts};
ghost use Rattle.kin_rules.specs.Going.{has_place};
ghost use Rattle.kin_rules.specs.LayerTables.{neighbours_seen};
ghost use Rattle.kin_rules.specs.Layers.{lent};
ghost use Rattle.kin_rules.specs.Places.{place};
ghost use Rattle.kin_pull.specs.Passes.{AreRead, AreSharesAt, IsAbove, above_in, drawn_in, lent_at, marked, read_of};
ghost use Rattle.kin_pull.specs.Passes.{was_read};
ghost use Rattle.kin_pull.specs.Settles.{IsPassed, changes, is_due};
ghost use Rattle.kin_pull.specs.States.{IsKept, On, active_at, keeping, net_in, opposite, row_in};

use crate::ends::Ends;
use crate::kept::{Kept, is_from};
use crate::showing::{drawn_value, tell_all};
use kin_graph::{Steps, View};
use kin_ids::{Memory, User};
use kin_rules::{Facts, Lent, PullRule};
use std::alloc::Global;
use std::sync::ledger::Ledger;

// Marks of those who are active at a layer.
fn active_marks<V: Drop>(
    alloc: Global,
    users: &[User],
    kept: &Kept<V>,
    layer: u32,
) -> Result<Vec<bool>, Memory>
    requires { length kept.now.low ≡ length users.now }
    ensures long { IfOk result (λ marks. length marks.items ≡ length users.now) }
    ensures marks { IfOk result (λ marks. (x : User) → marked users.now marks.items x
        ≡ active_at users.now kept.now layer x) }
{
    let _ = users;
    let mut marks = Vec::with_capacity(alloc, kept.low().len())?;
    for low in kept.low() {
        marks.push(is_from(*low, layer))?;
    }
    Ok(marks)
}

// Lends the inputs that stand at these places.
fn lend<'a, V: Drop>(
    alloc: Global,
    kept: &'a Kept<V>,
    first: &'a V,
    layer: u32,
    drawn: &'a [Option<V>],
    ends: &[usize],
) -> Result<Vec<Lent<'a, V>>, Memory>
    requires { All (λ i. i < length kept.now.facts) ends.now }
    ensures { IfOk result (λ v. (df : Facts) → lent v.items
        ≡ map (lent_at df first.now kept.now layer drawn.now) ends.now) }
{
    let mut inputs = Vec::with_capacity(alloc, ends.len())?;
    for end in ends {
        inputs.push(Lent {
            facts: &kept.facts()[*end],
            value: drawn_value(kept, first, layer, drawn, *end),
        })?;
    }
    Ok(inputs)
}

// The share of everybody, where the rule has shares.
fn shares_of<R: PullRule>(
    alloc: Global,
    rule: &R,
    users: &[User],
    kept: &Kept<R::Value>,
    first: &R::Value,
    layer: u32,
    drawn: &[Option<R::Value>],
) -> Result<Option<Vec<u64>>, Memory>
    requires { length kept.now.facts ≡ length users.now }
    ensures { IfOk result (λ o. IfSome o
        (λ v. AreSharesAt (R.share rule.now) first.now kept.now layer drawn.now v.items)) }
{
    let mut shares = Vec::with_capacity(alloc, users.len())?;
    for i in 0..users.len() {
        let value = drawn_value(kept, first, layer, drawn, i);
        let Some(share) = rule.share(&kept.facts()[i], value) else {
            return Ok(None);
        };
        shares.push(share)?;
    }
    Ok(Some(shares))
}

// Whether at least an eighth is marked.
fn are_many(marks: &[bool]) -> bool {
    let mut count = 0;
    for mark in marks {
        if *mark {
            count += 1;
        }
    }
    count >= marks.len() / 8
}

// The same, where many are due.
fn shares_if<R: PullRule>(
    alloc: Global,
    rule: &R,
    users: &[User],
    kept: &Kept<R::Value>,
    first: &R::Value,
    layer: u32,
    drawn: &[Option<R::Value>],
    marks: &[bool],
) -> Result<Option<Vec<u64>>, Memory>
    requires { length kept.now.facts ≡ length users.now }
    ensures { IfOk result (λ o. IfSome o
        (λ v. AreSharesAt (R.share rule.now) first.now kept.now layer drawn.now v.items)) }
{
    if !are_many(marks) {
        return Ok(None);
    }
    shares_of(alloc, rule, users, kept, first, layer, drawn)
}

// The value above of the user at a place whose inputs stand at these places.
fn next_at<R: PullRule>(
    alloc: Global,
    rule: &R,
    kept: &Kept<R::Value>,
    first: &R::Value,
    layer: u32,
    drawn: &[Option<R::Value>],
    shares: &Option<Vec<u64>>,
    i: usize,
    row: &[usize],
) -> Result<R::Value, Memory>
    requires ends { All (λ p. p < length kept.now.facts) row.now }
    requires within { i < length kept.now.facts }
    requires shares { IfSome shares.now
        (λ v. AreSharesAt (R.share rule.now) first.now kept.now layer drawn.now v.items) }
    ensures { IfOk result (λ value. (df : Facts) → value ≡ (R.seen rule.now).next (slice_index_or kept.now.facts i df)
        (map (lent_at df first.now kept.now layer drawn.now) row.now)) }
{
    if let Some(shares) = shares {
        if let Some(value) = rule.next_shares(alloc, &kept.facts()[i], shares.as_slice(), row)? {
            return Ok(value);
        }
    }
    let inputs = lend(alloc, kept, first, layer, drawn, row)?;
    rule.next_lent(alloc, &kept.facts()[i], inputs.as_slice())
}

// The value of the user at a place in the layer above.
fn above<R: PullRule, V: View, L: Ledger>(
    alloc: Global,
    rule: &R,
    users: &[User],
    kept: &Kept<R::Value>,
    first: &R::Value,
    layer: u32,
    drawn: &[Option<R::Value>],
    shares: &Option<Vec<u64>>,
    view: &V,
    ins: &mut Ends,
    i: usize,
    user: User,
    steps: &mut Steps<L>,
) -> Result<R::Value, Memory>
    requires kept { IsKept R.LAYERS users.now kept.now }
    requires on { On (R.seen rule.now) R.LAYERS (V.seen view.now) users.now kept.now }
    requires first { first.now ≡ (R.seen rule.now).first }
    requires within { i < length users.now }
    requires at { place users.now user ≡ i }
    requires ins { AreRead (R.seen rule.now).side (V.seen view.now) users.now ins.old }
    requires shares { IfSome shares.now
        (λ v. AreSharesAt (R.share rule.now) first.now kept.now layer drawn.now v.items) }
    ensures ins { AreRead (R.seen rule.now).side (V.seen view.now) users.now ins.new }
    ensures value { IfOk result (λ value. value
        ≡ above_in (R.seen rule.now) (V.seen view.now) users.now kept.now layer drawn.now user) }
    ensures computed { OnOk result ((x : User) → has_user users.now x ≡ true → was_read users.now ins.new x
        ≡ (was_read users.now ins.old x || place users.now x == i)) }
    ensures reads { OnOk result (steps.new + read_of (R.seen rule.now).side (V.seen view.now) users.now ins.old
        ≡ steps.old + read_of (R.seen rule.now).side (V.seen view.now) users.now ins.new) }
{
    ins.read(alloc, users, view, rule.side(), i, user, steps)?;
    next_at(
        alloc,
        rule,
        kept,
        first,
        layer,
        drawn,
        shares,
        i,
        ins.row(i),
    )
}

// The value of the user at a place in the layer above, where it is due.
fn above_if<R: PullRule, V: View, L: Ledger>(
    alloc: Global,
    rule: &R,
    users: &[User],
    kept: &Kept<R::Value>,
    first: &R::Value,
    layer: u32,
    drawn: &[Option<R::Value>],
    shares: &Option<Vec<u64>>,
    view: &V,
    ins: &mut Ends,
    i: usize,
    user: User,
    due: bool,
    steps: &mut Steps<L>,
) -> Result<Option<R::Value>, Memory>
    requires kept { IsKept R.LAYERS users.now kept.now }
    requires on { On (R.seen rule.now) R.LAYERS (V.seen view.now) users.now kept.now }
    requires first { first.now ≡ (R.seen rule.now).first }
    requires within { i < length users.now }
    requires at { place users.now user ≡ i }
    requires ins { AreRead (R.seen rule.now).side (V.seen view.now) users.now ins.old }
    requires shares { IfSome shares.now
        (λ v. AreSharesAt (R.share rule.now) first.now kept.now layer drawn.now v.items) }
    ensures ins { AreRead (R.seen rule.now).side (V.seen view.now) users.now ins.new }
    ensures value { IfOk result (λ value. value
        ≡ (if due then Some (above_in (R.seen rule.now)
        (V.seen view.now) users.now kept.now layer drawn.now user) else None)) }
    ensures computed { OnOk result ((x : User) → has_user users.now x ≡ true → was_read users.now ins.new x
        ≡ (was_read users.now ins.old x || (due && place users.now x == i))) }
    ensures reads { OnOk result (steps.new + read_of (R.seen rule.now).side (V.seen view.now) users.now ins.old
        ≡ steps.old + read_of (R.seen rule.now).side (V.seen view.now) users.now ins.new) }
{
    if !due {
        return Ok(None);
    }
    Ok(Some(above(
        alloc, rule, users, kept, first, layer, drawn, shares, view, ins, i, user, steps,
    )?))
}

// The values in the layer above of those who are marked.
fn all_above<R: PullRule, V: View, L: Ledger>(
    alloc: Global,
    rule: &R,
    users: &[User],
    kept: &Kept<R::Value>,
    first: &R::Value,
    layer: u32,
    drawn: &[Option<R::Value>],
    shares: &Option<Vec<u64>>,
    view: &V,
    ins: &mut Ends,
    marks: &[bool],
    steps: &mut Steps<L>,
) -> Result<Vec<Option<R::Value>>, Memory>
    requires kept { IsKept R.LAYERS users.now kept.now }
    requires on { On (R.seen rule.now) R.LAYERS (V.seen view.now) users.now kept.now }
    requires first { first.now ≡ (R.seen rule.now).first }
    requires long { length marks.now ≡ length users.now }
    requires ins { AreRead (R.seen rule.now).side (V.seen view.now) users.now ins.old }
    requires shares { IfSome shares.now
        (λ v. AreSharesAt (R.share rule.now) first.now kept.now layer drawn.now v.items) }
    ensures ins { AreRead (R.seen rule.now).side (V.seen view.now) users.now ins.new }
    ensures above { IfOk result (λ above. IsAbove (R.seen rule.now)
        (V.seen view.now) users.now kept.now layer drawn.now marks.now above.items) }
    ensures computed { OnOk result ((x : User) → has_user users.now x ≡ true → was_read users.now ins.new x
        ≡ (was_read users.now ins.old x || marked users.now marks.now x)) }
    ensures reads { OnOk result (steps.new + read_of (R.seen rule.now).side (V.seen view.now) users.now ins.old
        ≡ steps.old + read_of (R.seen rule.now).side (V.seen view.now) users.now ins.new) }
{
    let mut values = Vec::with_capacity(alloc, users.len())?;
    for i in 0..users.len() {
        values.push(above_if(
            alloc, rule, users, kept, first, layer, drawn, shares, view, ins, i, users[i],
            marks[i], steps,
        )?)?;
    }
    Ok(values)
}

/// The values in the layer above of those who are due there: who is active, and who reads somebody whose change shows.
pub(crate) fn pass<R: PullRule, V: View, L: Ledger>(
    alloc: Global,
    rule: &R,
    users: &[User],
    kept: &Kept<R::Value>,
    first: &R::Value,
    layer: u32,
    drawn: &[Option<R::Value>],
    view: &V,
    ins: &mut Ends,
    outs: &mut Ends,
    steps: &mut Steps<L>,
) -> Result<Vec<Option<R::Value>>, Memory>
    requires kept { IsKept R.LAYERS users.now kept.now }
    requires on { On (R.seen rule.now) R.LAYERS (V.seen view.now) users.now kept.now }
    requires first { first.now ≡ (R.seen rule.now).first }
    requires below { layer < R.LAYERS }
    requires small { layer + 1 < 2 ^ 32 }
    requires ins { AreRead (R.seen rule.now).side (V.seen view.now) users.now ins.old }
    requires outs { AreRead (opposite (R.seen rule.now).side) (V.seen view.now) users.now outs.old }
    ensures ins { AreRead (R.seen rule.now).side (V.seen view.now) users.now ins.new }
    ensures outs { AreRead (opposite (R.seen rule.now).side) (V.seen view.now) users.now outs.new }
    ensures long { IfOk result (λ above. length above.items ≡ length users.now) }
    ensures passed { IfOk result (λ above. IsPassed (R.seen rule.now)
        (net_in (R.seen rule.now).side (V.seen view.now) users.now kept.now)
        (keeping (R.seen rule.now).first users.now kept.now) users.now layer (drawn_in
        (R.seen rule.now).first users.now kept.now layer drawn.now)
        (drawn_in (R.seen rule.now).first users.now kept.now (layer + 1) above.items)) }
    ensures told { OnOk result ((x : User) → has_user users.now x ≡ true → was_read users.now outs.new x
        ≡ (was_read users.now outs.old x || changes (R.seen rule.now)
        (net_in (R.seen rule.now).side (V.seen view.now) users.now kept.now)
        (keeping (R.seen rule.now).first users.now kept.now) layer
        (drawn_in (R.seen rule.now).first users.now kept.now layer drawn.now) x)) }
    ensures computed { OnOk result ((x : User) → has_user users.now x ≡ true → was_read users.now ins.new x
        ≡ (was_read users.now ins.old x || is_due (R.seen rule.now)
        (net_in (R.seen rule.now).side (V.seen view.now) users.now kept.now)
        (keeping (R.seen rule.now).first users.now kept.now) users.now layer
        (drawn_in (R.seen rule.now).first users.now kept.now layer drawn.now) x)) }
    ensures reads { OnOk result (steps.new
        + (read_of (opposite (R.seen rule.now).side) (V.seen view.now) users.now outs.old
        + read_of (R.seen rule.now).side (V.seen view.now) users.now ins.old) ≡ steps.old
        + (read_of (opposite (R.seen rule.now).side) (V.seen view.now) users.now outs.new
        + read_of (R.seen rule.now).side (V.seen view.now) users.now ins.new)) }
{
    let mut marks = active_marks(alloc, users, kept, layer + 1)?;
    tell_all(
        alloc, rule, users, kept, first, layer, drawn, view, outs, &mut marks, steps,
    )?;
    let shares = shares_if(
        alloc,
        rule,
        users,
        kept,
        first,
        layer,
        drawn,
        marks.as_slice(),
    )?;
    all_above(
        alloc,
        rule,
        users,
        kept,
        first,
        layer,
        drawn,
        &shares,
        view,
        ins,
        marks.as_slice(),
        steps,
    )
}
