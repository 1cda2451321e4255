//! How an epoch begins.

ghost use Rattle.std.specs.Prelude.{◌≡◌, ◌<◌, ◌||◌, ◌&&◌, ℕ, Bool, true, false, List, Option, Some, IfOk, OnOk};
ghost use Rattle.std.specs.Prelude.{length, is_some, if◌then◌else◌};
ghost use Rattle.std.specs.List.{list_any};
ghost use Rattle.std.specs.List.Sorted.{IsStrictlySortedBy};
ghost use Rattle.kin_ids.specs.declared.ids.User.{User};
ghost use Rattle.kin_ids.specs.Users.{has_user, same_user, user_cmp};
ghost use Rattle.kin_changes.specs.Told.{is_of};
ghost use Rattle.kin_push.specs.Begins.{IsEntered, adds_of, is_started, lands_at, pairs_in, starts_by};
ghost use Rattle.kin_push.specs.States.{IsPushState, IsQuiet, is_active, state, value_in};

use crate::ActiveSet;
use crate::places::{find, place_of, value_of};
use kin_graph::{Delta, Pair};
use kin_ids::{Memory, User};
use kin_rules::{EdgeKind, PushRule};
use std::alloc::Global;

// The starts of edges.
fn add_starts(starts: &mut Vec<User>, pairs: &[Pair]) -> Result<(), Memory>
    ensures { OnOk result ((u : User) → has_user starts.new.items u ≡ (has_user starts.old.items u || list_any (is_of u) pairs.now)) }
{
    for pair in pairs {
        starts.push(pair.user)?;
    }
    Ok(())
}

// The edges of a kind that were added for the first time.
fn pairs_of(delta: &Delta, kind: EdgeKind) -> &[Pair]
    ensures { result.now ≡ pairs_in kind delta.now }
{
    match kind {
        EdgeKind::Follow => delta.new_out(),
        EdgeKind::Mention => delta.mention_out(),
    }
}

// The starts of the new edges of a kind, where the rule uses it.
fn add_kind<R: PushRule>(
    starts: &mut Vec<User>,
    rule: &R,
    deltas: &[Delta],
    kind: EdgeKind,
) -> Result<(), Memory>
    ensures { OnOk result ((u : User) → has_user starts.new.items u
        ≡ (has_user starts.old.items u || starts_by (R.seen rule.now) deltas.now kind u)) }
{
    if rule.along(kind, 0).is_none() {
        return Ok(());
    }
    for delta in deltas {
        add_starts(starts, pairs_of(delta, kind))?;
    }
    Ok(())
}

/// The starts of the new edges that the rule uses, each at least once. O(d) in what the deltas tell of them.
pub fn starts<R: PushRule>(alloc: Global, rule: &R, deltas: &[Delta]) -> Result<Vec<User>, Memory>
    ensures { IfOk result (λ us. (u : User) → has_user us.items u ≡ is_started (R.seen rule.now) deltas.now u) }
{
    let mut starts = Vec::new(alloc);
    add_kind(&mut starts, rule, deltas, EdgeKind::Follow)?;
    add_kind(&mut starts, rule, deltas, EdgeKind::Mention)?;
    Ok(starts)
}

// The value of a user, which may stand at a place.
fn value_near(users: &[User], values: &[Option<u32>], u: User, place: usize) -> Option<u32>
    requires ascend { IsStrictlySortedBy user_cmp users.now }
    requires valued { length values.now ≡ length users.now }
    ensures { (marks : List Bool) → result ≡ value_in (state users.now values.now marks) u }
{
    if place < users.len() && users[place] == u {
        return values[place];
    }
    value_of(users, values, u)
}

// The place after a user, where it stands at one.
fn place_after(users: &[User], u: User, place: usize) -> usize {
    if place < users.len() && users[place] == u {
        return place + 1;
    }
    place
}

/// The values of more users: of those who had one it is the same. O(n), and O(log n) for each new one.
pub fn widened(
    alloc: Global,
    users: &[User],
    values: &[Option<u32>],
    more: &[User],
) -> Result<Vec<Option<u32>>, Memory>
    requires ascend { IsStrictlySortedBy user_cmp users.now }
    requires more { IsStrictlySortedBy user_cmp more.now }
    requires valued { length values.now ≡ length users.now }
    requires all { (u : User) → has_user users.now u ≡ true → has_user more.now u ≡ true }
    ensures valued { IfOk result (λ vs. length vs.items ≡ length more.now) }
    ensures values { IfOk result (λ vs. (marks : List Bool) (u : User) →
        value_in (state more.now vs.items marks) u ≡ value_in (state users.now values.now marks) u) }
{
    let mut wide = Vec::with_capacity(alloc, more.len())?;
    let mut place = 0;
    for user in more {
        wide.push(value_near(users, values, *user, place))?;
        place = place_after(users, *user, place);
    }
    Ok(wide)
}

// The starts become active.
fn mark_starts(users: &[User], active: &mut ActiveSet, starts: &[User])
    requires ascend { IsStrictlySortedBy user_cmp users.now }
    requires marked { length active.old ≡ length users.now }
    requires within { (u : User) → has_user starts.now u ≡ true → has_user users.now u ≡ true }
    ensures marked { length active.new ≡ length users.now }
    ensures active { (values : List (Option ℕ)) (u : User) → is_active (state users.now values active.new) u
        ≡ (is_active (state users.now values active.old) u || has_user starts.now u) }
{
    for start in starts {
        active.mark(place_of(users, *start));
    }
}

// The landmark has 0 and is active, where it is one of the users and has no value yet.
fn land(users: &[User], values: &mut [Option<u32>], active: &mut ActiveSet, landmark: User)
    requires state { IsPushState (state users.now values.old active.old) }
    ensures state { IsPushState (state users.now values.new active.new) }
    ensures values { (u : User) → value_in (state users.now values.new active.new) u
        ≡ (if lands_at landmark users.now (value_in (state users.now values.old active.old)) && same_user u landmark
        then Some 0 else value_in (state users.now values.old active.old) u) }
    ensures active { (u : User) → is_active (state users.now values.new active.new) u
        ≡ (is_active (state users.now values.old active.old) u
        || (lands_at landmark users.now (value_in (state users.now values.old active.old)) && same_user u landmark)) }
{
    let Some(place) = find(users, landmark) else {
        return;
    };
    if values[place].is_some() {
        return;
    }
    values[place] = Some(0);
    active.mark(place);
}

/// Begins an epoch: the starts become active, and the landmark where it has no value yet, which then has 0. It takes
/// no memory. O(log n) for each start.
pub fn enter<R: PushRule>(
    rule: &R,
    users: &[User],
    values: &mut [Option<u32>],
    active: &mut ActiveSet,
    starts: &[User],
)
    requires state { IsPushState (state users.now values.old active.old) }
    requires quiet { IsQuiet (state users.now values.old active.old) }
    requires within { (u : User) → has_user starts.now u ≡ true → has_user users.now u ≡ true }
    ensures state { IsPushState (state users.now values.new active.new) }
    ensures entered { IsEntered (R.seen rule.now) starts.now (state users.now values.old active.old)
        (state users.now values.new active.new) }
{
    mark_starts(users, active, starts);
    land(users, values, active, rule.landmark());
}
