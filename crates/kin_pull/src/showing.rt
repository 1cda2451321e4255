//! Whose change shows, and to whom.

ghost use Rattle.std.specs.Prelude.{◌≡◌, ◌==◌, ◌+◌, ◌<◌, ◌&&◌, ◌||◌, ℕ, true, false, Option, Some, None, OnOk, All};
ghost use Rattle.std.specs.Prelude.{unwrap_or, length, slice_index_or};
ghost use Rattle.kin_ids.specs.declared.ids.User.{User};
ghost use Rattle.kin_ids.specs.Users.{has_user};
ghost use Rattle.kin_rules.specs.Going.{has_place};
ghost use Rattle.kin_rules.specs.LayerTables.{neighbours_seen};
ghost use Rattle.kin_rules.specs.Places.{place};
ghost use Rattle.kin_pull.specs.Keeping.{shows};
ghost use Rattle.kin_pull.specs.Passes.{AreRead, changes_in, is_shown, marked, read_of, was_read};
ghost use Rattle.kin_pull.specs.States.{IsKept, On, opposite, row_in};

use crate::ends::Ends;
use crate::kept::Kept;
use crate::places::opposite;
use kin_graph::{Steps, View};
use kin_ids::{Memory, User};
use kin_rules::{Facts, PullRule};
use std::alloc::Global;
use std::sync::ledger::Ledger;

/// The value at a place that was computed again, or else the one that is kept.
pub(crate) fn drawn_value<'a, V: Drop>(
    kept: &'a Kept<V>,
    first: &'a V,
    layer: u32,
    drawn: &'a [Option<V>],
    i: usize,
) -> &'a V
    ensures { result.now ≡ unwrap_or (slice_index_or drawn.now i None)
        (slice_index_or (row_in kept.now layer) i first.now) }
{
    match drawn.get(i) {
        Some(Some(value)) => value,
        _ => kept.value(first, layer, i),
    }
}

/// Whether a change of an input shows to its readers.
pub(crate) fn shows<R: PullRule>(
    rule: &R,
    told: &Facts,
    now: &Facts,
    mixed: bool,
    was: &R::Value,
    is: &R::Value,
) -> bool
    ensures { result ≡ shows (R.seen rule.now) told.now now.now mixed was.now is.now }
{
    if !rule.input_alike(told, was, now, is) {
        return true;
    }
    mixed && !rule.input_alike(now, was, now, is)
}

// Whether nothing was computed again at a place, and its user has told its facts of now.
fn is_still<V: Drop>(kept: &Kept<V>, drawn: &[Option<V>], i: usize) -> bool
    requires { i < length kept.now.told }
    ensures { result ≡ true → (slice_index_or drawn.now i None ≡ None) × (slice_index_or kept.now.told i None ≡ None) }
{
    if let Some(Some(_)) = drawn.get(i) {
        return false;
    }
    kept.told()[i].is_none()
}

// Whether the change of the user at a place shows to its readers.
fn changes<R: PullRule>(
    rule: &R,
    users: &[User],
    kept: &Kept<R::Value>,
    first: &R::Value,
    layer: u32,
    drawn: &[Option<R::Value>],
    i: usize,
    user: User,
) -> bool
    requires kept { IsKept R.LAYERS users.now kept.now }
    requires first { first.now ≡ (R.seen rule.now).first }
    requires within { i < length users.now }
    requires at { place users.now user ≡ i }
    ensures { result ≡ changes_in (R.seen rule.now) users.now kept.now layer drawn.now user }
{
    let _ = users;
    let _ = user;
    if is_still(kept, drawn, i) {
        return false;
    }
    shows(
        rule,
        kept.told_facts(i),
        &kept.facts()[i],
        kept.is_mixed(),
        kept.value(first, layer, i),
        drawn_value(kept, first, layer, drawn, i),
    )
}

// Marks these places.
fn mark_all(marks: &mut Vec<bool>, ends: &[usize])
    requires { All (λ i. i < length marks.old.items) ends.now }
    ensures long { length marks.new.items ≡ length marks.old.items }
    ensures marks { (k : ℕ) → slice_index_or marks.new.items k false
        ≡ (slice_index_or marks.old.items k false || has_place ends.now k) }
{
    for end in ends {
        marks[*end] = true;
    }
}

// Marks the readers of the user at a place, where its change shows to them.
fn tell<R: PullRule, V: View, L: Ledger>(
    alloc: Global,
    rule: &R,
    users: &[User],
    kept: &Kept<R::Value>,
    first: &R::Value,
    layer: u32,
    drawn: &[Option<R::Value>],
    view: &V,
    outs: &mut Ends,
    i: usize,
    user: User,
    marks: &mut Vec<bool>,
    steps: &mut Steps<L>,
) -> Result<(), Memory>
    requires kept { IsKept R.LAYERS users.now kept.now }
    requires on { On (R.seen rule.now) R.LAYERS (V.seen view.now) users.now kept.now }
    requires first { first.now ≡ (R.seen rule.now).first }
    requires within { i < length users.now }
    requires at { place users.now user ≡ i }
    requires long { length marks.old.items ≡ length users.now }
    requires outs { AreRead (opposite (R.seen rule.now).side) (V.seen view.now) users.now outs.old }
    ensures outs { AreRead (opposite (R.seen rule.now).side) (V.seen view.now) users.now outs.new }
    ensures long { length marks.new.items ≡ length users.now }
    ensures marks { OnOk result ((x : User) → marked users.now marks.new.items x ≡ (marked users.now marks.old.items x
        || (changes_in (R.seen rule.now) users.now kept.now layer drawn.now user && has_user (neighbours_seen (opposite
        (R.seen rule.now).side) (V.seen view.now) user) x))) }
    ensures told { OnOk result ((x : User) → has_user users.now x ≡ true → was_read users.now outs.new x
        ≡ (was_read users.now outs.old x
        || (changes_in (R.seen rule.now) users.now kept.now layer drawn.now user && place users.now x == i))) }
    ensures reads { OnOk result (steps.new
        + read_of (opposite (R.seen rule.now).side) (V.seen view.now) users.now outs.old
        ≡ steps.old + read_of (opposite (R.seen rule.now).side) (V.seen view.now) users.now outs.new) }
{
    if !changes(rule, users, kept, first, layer, drawn, i, user) {
        return Ok(());
    }
    outs.read(alloc, users, view, opposite(rule.side()), i, user, steps)?;
    mark_all(marks, outs.row(i));
    Ok(())
}

/// Marks the readers of each user whose change shows to them.
pub(crate) fn tell_all<R: PullRule, V: View, L: Ledger>(
    alloc: Global,
    rule: &R,
    users: &[User],
    kept: &Kept<R::Value>,
    first: &R::Value,
    layer: u32,
    drawn: &[Option<R::Value>],
    view: &V,
    outs: &mut Ends,
    marks: &mut Vec<bool>,
    steps: &mut Steps<L>,
) -> Result<(), Memory>
    requires kept { IsKept R.LAYERS users.now kept.now }
    requires on { On (R.seen rule.now) R.LAYERS (V.seen view.now) users.now kept.now }
    requires first { first.now ≡ (R.seen rule.now).first }
    requires long { length marks.old.items ≡ length users.now }
    requires outs { AreRead (opposite (R.seen rule.now).side) (V.seen view.now) users.now outs.old }
    ensures outs { AreRead (opposite (R.seen rule.now).side) (V.seen view.now) users.now outs.new }
    ensures long { length marks.new.items ≡ length users.now }
    ensures marks { OnOk result ((x : User) → marked users.now marks.new.items x ≡ (marked users.now marks.old.items x
        || is_shown (R.seen rule.now) (V.seen view.now) users.now kept.now layer drawn.now users.now x)) }
    ensures told { OnOk result ((x : User) → has_user users.now x ≡ true → was_read users.now outs.new x
        ≡ (was_read users.now outs.old x || changes_in (R.seen rule.now) users.now kept.now layer drawn.now x)) }
    ensures reads { OnOk result (steps.new
        + read_of (opposite (R.seen rule.now).side) (V.seen view.now) users.now outs.old
        ≡ steps.old + read_of (opposite (R.seen rule.now).side) (V.seen view.now) users.now outs.new) }
{
    for i in 0..users.len() {
        tell(
            alloc, rule, users, kept, first, layer, drawn, view, outs, i, users[i], marks, steps,
        )?;
    }
    Ok(())
}
