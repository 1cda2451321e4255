//! What deltas tell of users, by place: whose edges and whose facts change, and the facts after them.

ghost use Rattle.std.specs.Prelude.{◌≡◌, ◌+◌, ◌-◌, ◌<◌, ◌||◌, ◌++◌, ◌∷◌, ℕ, Bool, true, false, List, [], IfOk, OnOk};
ghost use Rattle.std.specs.Prelude.{length, map, filter, count_by, if◌then◌else◌};
ghost use Rattle.std.specs.List.{list_any};
ghost use Rattle.std.specs.List.Sorted.{IsStrictlySortedBy};
ghost use Rattle.kin_ids.specs.declared.ids.User.{User};
ghost use Rattle.kin_ids.specs.Users.{has_user, same_user, user_cmp};
ghost use Rattle.kin_changes.specs.Told.{is_of, pairs_of};
ghost use Rattle.kin_pull.specs.Begins.{facts_after, gone_pairs, is_rewired, is_touched, now_pairs, touches, uses_told};
ghost use Rattle.kin_pull.specs.Passes.{marked};
ghost use Rattle.kin_pull.specs.Plans.{facts_at, with_fewer, with_more, with_uses};

use crate::places::find;
use kin_graph::{Delta, Pair, UseRow};
use kin_ids::{Memory, Use, User};
use kin_rules::{Facts, Side};
use std::alloc::Global;

// Marks a user, where it is one of these.
fn mark(users: &[User], marks: &mut Vec<bool>, u: User)
    requires ascend { IsStrictlySortedBy user_cmp users.now }
    requires long { length marks.old.items ≡ length users.now }
    ensures long { length marks.new.items ≡ length users.now }
    ensures marks { (x : User) → has_user users.now x ≡ true → marked users.now marks.new.items x
        ≡ (marked users.now marks.old.items x || same_user x u) }
{
    if let Some(i) = find(users, u) {
        marks[i] = true;
    }
}

// Marks the users of these pairs.
fn mark_pairs(users: &[User], marks: &mut Vec<bool>, pairs: &[Pair])
    requires ascend { IsStrictlySortedBy user_cmp users.now }
    requires long { length marks.old.items ≡ length users.now }
    ensures long { length marks.new.items ≡ length users.now }
    ensures marks { (x : User) → has_user users.now x ≡ true → marked users.now marks.new.items x
        ≡ (marked users.now marks.old.items x || list_any (is_of x) pairs.now) }
{
    for pair in pairs {
        mark(users, marks, pair.user);
    }
}

// Marks the users of these first uses.
fn mark_uses(users: &[User], marks: &mut Vec<bool>, rows: &[UseRow])
    requires ascend { IsStrictlySortedBy user_cmp users.now }
    requires long { length marks.old.items ≡ length users.now }
    ensures long { length marks.new.items ≡ length users.now }
    ensures marks { (x : User) → has_user users.now x ≡ true → marked users.now marks.new.items x
        ≡ (marked users.now marks.old.items x || list_any (λ row. same_user x row.user) rows.now) }
{
    for row in rows {
        mark(users, marks, row.user);
    }
}

// The pairs on a side that came to be present, and those that ceased to be.
fn now_on(delta: &Delta, side: Side) -> &[Pair]
    ensures { result.now ≡ now_pairs side delta.now }
{
    match side {
        Side::In => delta.now_in(),
        Side::Out => delta.now_out(),
    }
}

fn gone_on(delta: &Delta, side: Side) -> &[Pair]
    ensures { result.now ≡ gone_pairs side delta.now }
{
    match side {
        Side::In => delta.gone_in(),
        Side::Out => delta.gone_out(),
    }
}

// Marks those whose edges on a side this tells of.
fn mark_edges(users: &[User], marks: &mut Vec<bool>, side: Side, delta: &Delta)
    requires ascend { IsStrictlySortedBy user_cmp users.now }
    requires long { length marks.old.items ≡ length users.now }
    ensures long { length marks.new.items ≡ length users.now }
    ensures marks { (x : User) → has_user users.now x ≡ true → marked users.now marks.new.items x
        ≡ (marked users.now marks.old.items x || (list_any (is_of x) (now_pairs side delta.now) || list_any (is_of x)
        (gone_pairs side delta.now))) }
{
    mark_pairs(users, marks, now_on(delta, side));
    mark_pairs(users, marks, gone_on(delta, side));
}

// Marks those whose edges on a side these tell of.
fn mark_rewired(users: &[User], marks: &mut Vec<bool>, side: Side, deltas: &[Delta])
    requires ascend { IsStrictlySortedBy user_cmp users.now }
    requires long { length marks.old.items ≡ length users.now }
    ensures long { length marks.new.items ≡ length users.now }
    ensures marks { (x : User) → has_user users.now x ≡ true → marked users.now marks.new.items x
        ≡ (marked users.now marks.old.items x || is_rewired side deltas.now x) }
{
    for delta in deltas {
        mark_edges(users, marks, side, delta);
    }
}

// Marks those whose facts this changes.
fn mark_facts(users: &[User], marks: &mut Vec<bool>, delta: &Delta)
    requires ascend { IsStrictlySortedBy user_cmp users.now }
    requires long { length marks.old.items ≡ length users.now }
    ensures long { length marks.new.items ≡ length users.now }
    ensures marks { (x : User) → has_user users.now x ≡ true → marked users.now marks.new.items x
        ≡ (marked users.now marks.old.items x || touches delta.now x) }
{
    mark_edges(users, marks, Side::Out, delta);
    mark_uses(users, marks, delta.uses());
}

// Marks those whose facts these change.
fn mark_touched(users: &[User], marks: &mut Vec<bool>, deltas: &[Delta])
    requires ascend { IsStrictlySortedBy user_cmp users.now }
    requires long { length marks.old.items ≡ length users.now }
    ensures long { length marks.new.items ≡ length users.now }
    ensures marks { (x : User) → has_user users.now x ≡ true → marked users.now marks.new.items x
        ≡ (marked users.now marks.old.items x || is_touched deltas.now x) }
{
    for delta in deltas {
        mark_facts(users, marks, delta);
    }
}

// One user more is followed.
fn count_up(facts: &mut Facts) -> Result<(), Memory>
    ensures { OnOk result (facts.new ≡ with_more 1 facts.old) }
{
    facts.following = facts.following.checked_add(1).ok_or(Memory)?;
    Ok(())
}

// One user less is followed.
fn count_down(facts: &mut Facts)
    ensures { facts.new ≡ with_fewer 1 facts.old }
{
    facts.following = facts.following.saturating_sub(1);
}

// The user follows one more, where it is one of these.
fn add_one(users: &[User], facts: &mut Vec<Facts>, u: User) -> Result<(), Memory>
    requires ascend { IsStrictlySortedBy user_cmp users.now }
    requires long { length facts.old.items ≡ length users.now }
    ensures long { length facts.new.items ≡ length users.now }
    ensures facts { OnOk result ((x : User) → has_user users.now x ≡ true → facts_at users.now facts.new.items x
        ≡ with_more (if same_user x u then 1 else 0) (facts_at users.now facts.old.items x)) }
{
    if let Some(i) = find(users, u) {
        count_up(&mut facts[i])?;
    }
    Ok(())
}

// The user follows one less, where it is one of these.
fn drop_one(users: &[User], facts: &mut Vec<Facts>, u: User)
    requires ascend { IsStrictlySortedBy user_cmp users.now }
    requires long { length facts.old.items ≡ length users.now }
    ensures long { length facts.new.items ≡ length users.now }
    ensures facts { (x : User) → has_user users.now x ≡ true → facts_at users.now facts.new.items x
        ≡ with_fewer (if same_user x u then 1 else 0) (facts_at users.now facts.old.items x) }
{
    if let Some(i) = find(users, u) {
        count_down(&mut facts[i]);
    }
}

// The user has a use beside, where it is one of these.
fn put_use(users: &[User], facts: &mut Vec<Facts>, u: User, item: Use) -> Result<(), Memory>
    requires ascend { IsStrictlySortedBy user_cmp users.now }
    requires long { length facts.old.items ≡ length users.now }
    ensures long { length facts.new.items ≡ length users.now }
    ensures facts { OnOk result ((x : User) → has_user users.now x ≡ true → facts_at users.now facts.new.items x
        ≡ with_uses (if same_user x u then item ∷ [] else []) (facts_at users.now facts.old.items x)) }
{
    if let Some(i) = find(users, u) {
        facts[i].uses.push(item)?;
    }
    Ok(())
}

fn add_pairs(users: &[User], facts: &mut Vec<Facts>, pairs: &[Pair]) -> Result<(), Memory>
    requires ascend { IsStrictlySortedBy user_cmp users.now }
    requires long { length facts.old.items ≡ length users.now }
    ensures long { length facts.new.items ≡ length users.now }
    ensures facts { OnOk result ((x : User) → has_user users.now x ≡ true → facts_at users.now facts.new.items x
        ≡ with_more (count_by (is_of x) pairs.now) (facts_at users.now facts.old.items x)) }
{
    for pair in pairs {
        add_one(users, facts, pair.user)?;
    }
    Ok(())
}

fn drop_pairs(users: &[User], facts: &mut Vec<Facts>, pairs: &[Pair])
    requires ascend { IsStrictlySortedBy user_cmp users.now }
    requires long { length facts.old.items ≡ length users.now }
    ensures long { length facts.new.items ≡ length users.now }
    ensures facts { (x : User) → has_user users.now x ≡ true → facts_at users.now facts.new.items x
        ≡ with_fewer (count_by (is_of x) pairs.now) (facts_at users.now facts.old.items x) }
{
    for pair in pairs {
        drop_one(users, facts, pair.user);
    }
}

fn put_rows(users: &[User], facts: &mut Vec<Facts>, rows: &[UseRow]) -> Result<(), Memory>
    requires ascend { IsStrictlySortedBy user_cmp users.now }
    requires long { length facts.old.items ≡ length users.now }
    ensures long { length facts.new.items ≡ length users.now }
    ensures facts { OnOk result ((x : User) → has_user users.now x ≡ true → facts_at users.now facts.new.items x
        ≡ with_uses (map (λ row. row.entry) (filter (λ row. same_user x row.user) rows.now))
        (facts_at users.now facts.old.items x)) }
{
    for row in rows {
        put_use(users, facts, row.user, row.entry)?;
    }
    Ok(())
}

fn add_all(users: &[User], facts: &mut Vec<Facts>, deltas: &[Delta]) -> Result<(), Memory>
    requires ascend { IsStrictlySortedBy user_cmp users.now }
    requires long { length facts.old.items ≡ length users.now }
    ensures long { length facts.new.items ≡ length users.now }
    ensures facts { OnOk result ((x : User) → has_user users.now x ≡ true → facts_at users.now facts.new.items x
        ≡ with_more (pairs_of (λ d. d.now_out) deltas.now x) (facts_at users.now facts.old.items x)) }
{
    for delta in deltas {
        add_pairs(users, facts, delta.now_out())?;
    }
    Ok(())
}

fn drop_all(users: &[User], facts: &mut Vec<Facts>, deltas: &[Delta])
    requires ascend { IsStrictlySortedBy user_cmp users.now }
    requires long { length facts.old.items ≡ length users.now }
    ensures long { length facts.new.items ≡ length users.now }
    ensures facts { (x : User) → has_user users.now x ≡ true → facts_at users.now facts.new.items x
        ≡ with_fewer (pairs_of (λ d. d.gone_out) deltas.now x) (facts_at users.now facts.old.items x) }
{
    for delta in deltas {
        drop_pairs(users, facts, delta.gone_out());
    }
}

fn put_all(users: &[User], facts: &mut Vec<Facts>, deltas: &[Delta]) -> Result<(), Memory>
    requires ascend { IsStrictlySortedBy user_cmp users.now }
    requires long { length facts.old.items ≡ length users.now }
    ensures long { length facts.new.items ≡ length users.now }
    ensures facts { OnOk result ((x : User) → has_user users.now x ≡ true → facts_at users.now facts.new.items x
        ≡ with_uses (uses_told deltas.now x) (facts_at users.now facts.old.items x)) }
{
    for delta in deltas {
        put_rows(users, facts, delta.uses())?;
    }
    Ok(())
}

/// The facts of users after such deltas. What came to be present is counted first, so that nothing falls below 0.
pub(crate) fn change_facts(
    users: &[User],
    facts: &mut Vec<Facts>,
    deltas: &[Delta],
) -> Result<(), Memory>
    requires ascend { IsStrictlySortedBy user_cmp users.now }
    requires long { length facts.old.items ≡ length users.now }
    ensures long { length facts.new.items ≡ length users.now }
    ensures facts { OnOk result ((x : User) → has_user users.now x ≡ true → facts_at users.now facts.new.items x
        ≡ facts_after deltas.now x (facts_at users.now facts.old.items x)) }
{
    add_all(users, facts, deltas)?;
    drop_all(users, facts, deltas);
    put_all(users, facts, deltas)
}

// No mark of any of these users.
fn no_marks(alloc: Global, users: &[User]) -> Result<Vec<bool>, Memory>
    ensures long { IfOk result (λ marks. length marks.items ≡ length users.now) }
    ensures none { IfOk result (λ marks. (x : User) → marked users.now marks.items x ≡ false) }
{
    let marks = vec![in alloc; false; users.len()]?;
    Ok(marks)
}

/// Whose facts these change.
pub(crate) fn touched_marks(
    alloc: Global,
    users: &[User],
    deltas: &[Delta],
) -> Result<Vec<bool>, Memory>
    requires { IsStrictlySortedBy user_cmp users.now }
    ensures long { IfOk result (λ marks. length marks.items ≡ length users.now) }
    ensures marks { IfOk result (λ marks. (x : User) → has_user users.now x ≡ true
        → marked users.now marks.items x ≡ is_touched deltas.now x) }
{
    let mut marks = no_marks(alloc, users)?;
    mark_touched(users, &mut marks, deltas);
    Ok(marks)
}

/// Whose edges on a side these tell of.
pub(crate) fn wired_marks(
    alloc: Global,
    users: &[User],
    side: Side,
    deltas: &[Delta],
) -> Result<Vec<bool>, Memory>
    requires { IsStrictlySortedBy user_cmp users.now }
    ensures long { IfOk result (λ marks. length marks.items ≡ length users.now) }
    ensures marks { IfOk result (λ marks. (x : User) → has_user users.now x ≡ true
        → marked users.now marks.items x ≡ is_rewired side deltas.now x) }
{
    let mut marks = no_marks(alloc, users)?;
    mark_rewired(users, &mut marks, side, deltas);
    Ok(marks)
}
