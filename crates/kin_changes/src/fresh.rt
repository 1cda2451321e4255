//! Users and tags that deltas tell of and that weren't known.

ghost use Rattle.std.specs.Prelude.{[], IfOk, OnOk};
ghost use Rattle.std.specs.List.{list_any};
ghost use Rattle.std.specs.List.Sorted.{IsStrictlySortedBy};
ghost use Rattle.kin_ids.specs.Users.{same_tag, same_user, tag_cmp, user_cmp};
ghost use Rattle.kin_changes.specs.Fresh.{Gains};
ghost use Rattle.kin_changes.specs.Told.{are_told, is_of, is_told, tells_tag};

use crate::keys::push_fresh;
use kin_graph::{Delta, Pair, TagUser, UseRow};
use kin_ids::{Memory, Tag, User};
use std::alloc::Global;

// Appends the users of pairs who weren't known.
fn push_pairs(known: &[User], pairs: &[Pair], fresh: &mut Vec<User>) -> Result<(), Memory>
    requires { IsStrictlySortedBy user_cmp known.now }
    ensures { OnOk result (Gains same_user known.now (λ u. list_any (is_of u) pairs.now) fresh.old.items fresh.new.items) }
{
    for pair in pairs {
        push_fresh(known, pair.user, fresh)?;
    }
    Ok(())
}

// Appends the users of uses who weren't known.
fn push_uses(known: &[User], uses: &[UseRow], fresh: &mut Vec<User>) -> Result<(), Memory>
    requires { IsStrictlySortedBy user_cmp known.now }
    ensures { OnOk result (Gains same_user known.now (λ u. list_any (λ x. same_user u x.user) uses.now) fresh.old.items fresh.new.items) }
{
    for row in uses {
        push_fresh(known, row.user, fresh)?;
    }
    Ok(())
}

// Appends the users of whom a delta tells something new and who weren't known.
fn push_told(known: &[User], delta: &Delta, fresh: &mut Vec<User>) -> Result<(), Memory>
    requires { IsStrictlySortedBy user_cmp known.now }
    ensures { OnOk result (Gains same_user known.now (is_told delta.now) fresh.old.items fresh.new.items) }
{
    push_pairs(known, delta.new_out(), fresh)?;
    push_pairs(known, delta.new_in(), fresh)?;
    push_pairs(known, delta.mention_out(), fresh)?;
    push_pairs(known, delta.mention_in(), fresh)?;
    push_uses(known, delta.uses(), fresh)
}

/// The users of whom the deltas tell something new and who aren't known, as often as it is told.
pub(crate) fn fresh_users(
    alloc: Global,
    known: &[User],
    deltas: &[Delta],
) -> Result<Vec<User>, Memory>
    requires { IsStrictlySortedBy user_cmp known.now }
    ensures { IfOk result (λ us. Gains same_user known.now (are_told deltas.now) [] us.items) }
{
    let mut fresh = Vec::new(alloc);
    for delta in deltas {
        push_told(known, delta, &mut fresh)?;
    }
    Ok(fresh)
}

// Appends the tags with users that weren't known.
fn push_tags(known: &[Tag], rows: &[TagUser], fresh: &mut Vec<Tag>) -> Result<(), Memory>
    requires { IsStrictlySortedBy tag_cmp known.now }
    ensures { OnOk result (Gains same_tag known.now (λ t. list_any (λ x. same_tag t x.tag) rows.now) fresh.old.items fresh.new.items) }
{
    for row in rows {
        push_fresh(known, row.tag, fresh)?;
    }
    Ok(())
}

/// The tags with a new user that aren't known, as often as it is told.
pub(crate) fn fresh_tags(alloc: Global, known: &[Tag], deltas: &[Delta]) -> Result<Vec<Tag>, Memory>
    requires { IsStrictlySortedBy tag_cmp known.now }
    ensures { IfOk result (λ ts. Gains same_tag known.now (tells_tag deltas.now) [] ts.items) }
{
    let mut fresh = Vec::new(alloc);
    for delta in deltas {
        push_tags(known, delta.tag_users(), &mut fresh)?;
    }
    Ok(fresh)
}
