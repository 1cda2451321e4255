//! Where users stand among users that ascend, and what is kept for them there.

ghost use Rattle.std.specs.Prelude.{◌≡◌, ◌<◌, ℕ, Bool, true, false, List, Option, None, IfSome, length};
ghost use Rattle.std.specs.List.Sorted.{IsStrictlySortedBy};
ghost use Rattle.kin_ids.specs.Users.{has_user, user_cmp};
ghost use Rattle.kin_rules.specs.Places.{place};
ghost use Rattle.kin_push.specs.States.{is_active, state, value_in};

use crate::ActiveSet;
use kin_ids::User;

/// The place of a user, where it is one of these. O(log n).
pub(crate) fn find(users: &[User], u: User) -> Option<usize>
    requires { IsStrictlySortedBy user_cmp users.now }
    ensures some { IfSome result (λ i. (i ≡ place users.now u) × (i < length users.now) × (has_user users.now u ≡ true)) }
    ensures none { result ≡ None → has_user users.now u ≡ false }
{
    users.binary_search(&u).ok()
}

/// The place of one of these users. O(log n).
pub(crate) fn place_of(users: &[User], u: User) -> usize
    requires ascend { IsStrictlySortedBy user_cmp users.now }
    requires there { has_user users.now u ≡ true }
    ensures place { result ≡ place users.now u }
    ensures within { result < length users.now }
{
    match find(users, u) {
        Some(at) => at,
        None => unreachable!(),
    }
}

/// The value of a user. O(log n).
pub(crate) fn value_of(users: &[User], values: &[Option<u32>], u: User) -> Option<u32>
    requires ascend { IsStrictlySortedBy user_cmp users.now }
    requires valued { length values.now ≡ length users.now }
    ensures { (marks : List Bool) → result ≡ value_in (state users.now values.now marks) u }
{
    match find(users, u) {
        Some(at) => values[at],
        None => None,
    }
}

/// Whether a user is active. O(log n).
pub(crate) fn is_active(users: &[User], active: &ActiveSet, u: User) -> bool
    requires ascend { IsStrictlySortedBy user_cmp users.now }
    requires marked { length active.now ≡ length users.now }
    ensures { (values : List (Option ℕ)) → result ≡ is_active (state users.now values active.now) u }
{
    match find(users, u) {
        Some(at) => active.is_on(at),
        None => false,
    }
}
