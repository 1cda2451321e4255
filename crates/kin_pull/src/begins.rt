//! How an epoch begins.

ghost use Rattle.std.specs.Prelude.{◌≡◌, ◌+◌, ◌<◌, ℕ, Bool, true, false, List, Option, Some, None, IfOk, length, map};
ghost use Rattle.std.specs.Prelude.{slice_index_or, if◌then◌else◌};
ghost use Rattle.std.specs.List.Sorted.{IsStrictlySortedBy};
ghost use Rattle.kin_ids.specs.declared.ids.User.{User};
ghost use Rattle.kin_ids.specs.Users.{has_user, user_cmp};
ghost use Rattle.kin_rules.specs.declared.pull_rules.Facts.{Facts};
ghost use Rattle.kin_rules.specs.Places.{place};
ghost use Rattle.kin_pull.specs.Begins.{IsBegun, is_rewired, is_touched};
ghost use Rattle.kin_pull.specs.Plans.{AreCopied, start_of};
ghost use Rattle.kin_pull.specs.States.{IsKept, now_in, row_in, value_in};

use crate::deltas::{change_facts, touched_marks, wired_marks};
use crate::kept::Kept;
use crate::places::{find_next, next_place};
use kin_graph::Delta;
use kin_ids::{Memory, User};
use kin_rules::{Facts, PullRule};
use std::alloc::Global;

// A copy of the facts of a user, whose place may be the next one.
fn facts_of<V: Drop>(
    alloc: Global,
    users: &[User],
    kept: &Kept<V>,
    next: &mut usize,
    u: User,
) -> Result<Facts, Memory>
    requires ascend { IsStrictlySortedBy user_cmp users.now }
    requires long { length kept.now.facts ≡ length users.now }
    ensures { IfOk result (λ facts. facts ≡ now_in users.now kept.now u) }
{
    match find_next(users, next, u) {
        Some(i) => kept.facts()[i].copy(alloc),
        None => Ok(Facts::blank(alloc, u)),
    }
}

// Copies of the facts of more users.
fn all_facts<V: Drop>(
    alloc: Global,
    users: &[User],
    kept: &Kept<V>,
    more: &[User],
) -> Result<Vec<Facts>, Memory>
    requires ascend { IsStrictlySortedBy user_cmp users.now }
    requires long { length kept.now.facts ≡ length users.now }
    ensures { IfOk result (λ facts. facts.items ≡ map (now_in users.now kept.now) more.now) }
{
    let mut facts = Vec::with_capacity(alloc, more.len())?;
    let mut next = 0;
    for user in more {
        facts.push(facts_of(alloc, users, kept, &mut next, *user)?)?;
    }
    Ok(facts)
}

// The places that more users have among these.
fn places(alloc: Global, users: &[User], more: &[User]) -> Result<Vec<usize>, Memory>
    requires { IsStrictlySortedBy user_cmp users.now }
    ensures { IfOk result (λ places. places.items ≡ map (place users.now) more.now) }
{
    let mut places = Vec::with_capacity(alloc, more.len())?;
    let mut next = 0;
    for user in more {
        places.push(next_place(users, &mut next, *user))?;
    }
    Ok(places)
}

// Copies of the values at these places in a layer.
fn values_at<R: PullRule>(
    alloc: Global,
    rule: &R,
    kept: &Kept<R::Value>,
    first: &R::Value,
    layer: u32,
    places: &[usize],
) -> Result<Vec<R::Value>, Memory>
    ensures { IfOk result (λ row. row.items
        ≡ map (λ p. slice_index_or (row_in kept.now layer) p first.now) places.now) }
{
    let mut values = Vec::with_capacity(alloc, places.len())?;
    for place in places {
        values.push(rule.copy(alloc, kept.value(first, layer, *place))?)?;
    }
    Ok(values)
}

// Copies of the values of more users in a layer, who have these places.
fn row<R: PullRule>(
    alloc: Global,
    rule: &R,
    users: &[User],
    kept: &Kept<R::Value>,
    first: &R::Value,
    layer: u32,
    more: &[User],
    places: &[usize],
) -> Result<Vec<R::Value>, Memory>
    requires { places.now ≡ map (place users.now) more.now }
    ensures { IfOk result (λ row. row.items ≡ map (value_in first.now users.now kept.now layer) more.now) }
{
    let _ = users;
    let _ = more;
    values_at(alloc, rule, kept, first, layer, places)
}

// Copies of the values of more users in each layer.
fn rows<R: PullRule>(
    alloc: Global,
    rule: &R,
    users: &[User],
    kept: &Kept<R::Value>,
    more: &[User],
) -> Result<Vec<Vec<R::Value>>, Memory>
    requires kept { IsKept R.LAYERS users.now kept.now }
    ensures { IfOk result (λ rows. AreCopied (R.seen rule.now).first users.now kept.now more.now R.LAYERS
        (map (λ r. r.items) rows.items)) }
{
    let first = rule.first(alloc)?;
    let places = places(alloc, users, more)?;
    let mut rows = Vec::new(alloc);
    for layer in 0..R::LAYERS {
        rows.push(row(
            alloc,
            rule,
            users,
            kept,
            &first,
            layer + 1,
            more,
            places.as_slice(),
        )?)?;
    }
    Ok(rows)
}

// A copy of the facts of a user, where they change.
fn told_if<V: Drop>(
    alloc: Global,
    users: &[User],
    kept: &Kept<V>,
    next: &mut usize,
    u: User,
    changes: bool,
) -> Result<Option<Facts>, Memory>
    requires ascend { IsStrictlySortedBy user_cmp users.now }
    requires long { length kept.now.facts ≡ length users.now }
    ensures { IfOk result (λ told. told ≡ (if changes then Some (now_in users.now kept.now u) else None)) }
{
    if !changes {
        return Ok(None);
    }
    Ok(Some(facts_of(alloc, users, kept, next, u)?))
}

// Copies of the facts of more users, of those whose facts change.
fn all_told<V: Drop>(
    alloc: Global,
    users: &[User],
    kept: &Kept<V>,
    more: &[User],
    marks: &[bool],
) -> Result<Vec<Option<Facts>>, Memory>
    requires ascend { IsStrictlySortedBy user_cmp users.now }
    requires long { length kept.now.facts ≡ length users.now }
    requires marks { length marks.now ≡ length more.now }
    ensures long { IfOk result (λ told. length told.items ≡ length more.now) }
    ensures told { IfOk result (λ told. (i : ℕ) (d : User) → i < length more.now → slice_index_or told.items i None
        ≡ (if slice_index_or marks.now i false then Some
        (now_in users.now kept.now (slice_index_or more.now i d)) else None)) }
{
    let mut told = Vec::with_capacity(alloc, more.len())?;
    let mut next = 0;
    for i in 0..more.len() {
        told.push(told_if(alloc, users, kept, &mut next, more[i], marks[i])?)?;
    }
    Ok(told)
}

// The layer from which on a user starts active.
fn start<R: PullRule>(rule: &R, wired: bool, told: &Option<Facts>, facts: &Facts) -> Option<u32>
    ensures { result ≡ start_of (R.seen rule.now) wired told.now facts.now }
{
    if wired {
        return Some(1);
    }
    match told {
        Some(told) => {
            if rule.own_alike(told, facts) {
                None
            } else {
                Some(1)
            }
        }
        None => None,
    }
}

// The layers from which on users start active.
fn starts<R: PullRule>(
    alloc: Global,
    rule: &R,
    wired: &[bool],
    told: &[Option<Facts>],
    facts: &[Facts],
) -> Result<Vec<Option<u32>>, Memory>
    requires told { length told.now ≡ length wired.now }
    requires facts { length facts.now ≡ length wired.now }
    ensures long { IfOk result (λ low. length low.items ≡ length wired.now) }
    ensures starts { IfOk result (λ low. (i : ℕ) (df : Facts) → i < length wired.now → slice_index_or low.items i None
        ≡ start_of (R.seen rule.now) (slice_index_or wired.now i false) (slice_index_or told.now i None)
        (slice_index_or facts.now i df)) }
{
    let mut low = Vec::with_capacity(alloc, wired.len())?;
    for i in 0..wired.len() {
        low.push(start(rule, wired[i], &told[i], &facts[i]))?;
    }
    Ok(low)
}

/// What is kept where the epoch of these deltas begins, over the users that it has then: no layer changes, and who is
/// new has the first value in each; the facts are those after the deltas; active are those an input of whom came or
/// went, and those whose own facts make other values. It costs a look-up of each user that the deltas tell of, and of
/// whoever comes after somebody new, and a copy of all facts and layers.
pub fn plan<R: PullRule>(
    alloc: Global,
    rule: &R,
    users: &[User],
    kept: &Kept<R::Value>,
    more: &[User],
    deltas: &[Delta],
) -> Result<Kept<R::Value>, Memory>
    requires kept { IsKept R.LAYERS users.now kept.now }
    requires ascend { IsStrictlySortedBy user_cmp more.now }
    requires all { (u : User) → has_user users.now u ≡ true → has_user more.now u ≡ true }
    requires touched { (u : User) → is_touched deltas.now u ≡ true → has_user more.now u ≡ true }
    requires rewired { (u : User) → is_rewired (R.seen rule.now).side deltas.now u ≡ true → has_user more.now u ≡ true }
    ensures kept { IfOk result (λ plan. IsKept R.LAYERS more.now plan) }
    ensures begun { IfOk result (λ plan. IsBegun (R.seen rule.now) deltas.now users.now kept.now more.now plan) }
{
    let mut facts = all_facts(alloc, users, kept, more)?;
    change_facts(more, &mut facts, deltas)?;
    let touched = touched_marks(alloc, more, deltas)?;
    let wired = wired_marks(alloc, more, rule.side(), deltas)?;
    let told = all_told(alloc, users, kept, more, touched.as_slice())?;
    let low = starts(
        alloc,
        rule,
        wired.as_slice(),
        told.as_slice(),
        facts.as_slice(),
    )?;
    let rows = rows(alloc, rule, users, kept, more)?;
    Ok(Kept::of(rows, facts, told, low))
}
