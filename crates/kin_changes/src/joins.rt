//! The users and the tags of the next epoch.

ghost use Rattle.std.specs.Prelude.{◌≡◌, ◌||◌, ℕ, true, List, None, IfOk, IfSome};
ghost use Rattle.std.specs.List.{list_any};
ghost use Rattle.std.specs.List.Sorted.{IsStrictlySortedBy};
ghost use Rattle.kin_ids.specs.declared.ids.User.{User};
ghost use Rattle.kin_ids.specs.Users.{has_user, same_tag, tag_cmp, user_cmp};
ghost use Rattle.kin_changes.specs.Told.{are_told, tells_tag};

use crate::fresh::{fresh_tags, fresh_users};
use crate::keys::joined;
use kin_graph::Delta;
use kin_ids::{Memory, Tag, User};
use std::alloc::Global;

/// These users and those who stand in something new, ascending. None where all of the latter are among the former. It
/// costs a look-up in the users for each item that the deltas tell, and where some are new O(n) in the users and
/// O(d log d) in these items.
pub fn next_users(
    alloc: Global,
    users: &[User],
    deltas: &[Delta],
) -> Result<Option<Vec<User>>, Memory>
    requires { IsStrictlySortedBy user_cmp users.now }
    ensures ascend { IfOk result (λ o. IfSome o (λ us. IsStrictlySortedBy user_cmp us.items)) }
    ensures all { IfOk result (λ o. IfSome o (λ us. (u : User) → has_user us.items u ≡ (has_user users.now u || are_told deltas.now u))) }
    ensures none { IfOk result (λ o. o ≡ None → (u : User) → are_told deltas.now u ≡ true → has_user users.now u ≡ true) }
{
    let fresh = fresh_users(alloc, users, deltas)?;
    if fresh.is_empty() {
        return Ok(None);
    }
    Ok(Some(joined(users, fresh)?))
}

/// These tags and those with a new user, ascending. None where all of the latter are among the former. It costs as
/// `next_users`.
pub fn next_tags(alloc: Global, tags: &[Tag], deltas: &[Delta]) -> Result<Option<Vec<Tag>>, Memory>
    requires { IsStrictlySortedBy tag_cmp tags.now }
    ensures ascend { IfOk result (λ o. IfSome o (λ ts. IsStrictlySortedBy tag_cmp ts.items)) }
    ensures all { IfOk result (λ o. IfSome o (λ ts. (t : List ℕ) → list_any (same_tag t) ts.items
        ≡ (list_any (same_tag t) tags.now || tells_tag deltas.now t))) }
    ensures none { IfOk result (λ o. o ≡ None → (t : List ℕ) → tells_tag deltas.now t ≡ true → list_any (same_tag t) tags.now ≡ true) }
{
    let fresh = fresh_tags(alloc, tags, deltas)?;
    if fresh.is_empty() {
        return Ok(None);
    }
    Ok(Some(joined(tags, fresh)?))
}
