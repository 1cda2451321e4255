//! Where users stand among users that ascend.

ghost use Rattle.std.specs.Prelude.{◌≡◌, ◌+◌, ◌<◌, IfOk, IfSome, OnOk, ◌++◌, ◌∷◌, [], true, length, map};
ghost use Rattle.std.specs.List.Sorted.{IsStrictlySortedBy};
ghost use Rattle.kin_ids.specs.Users.{has_user, user_cmp};
ghost use Rattle.kin_rules.specs.Edges.{places_of};
ghost use Rattle.kin_rules.specs.LayerTables.{halves_on, present_ends};
ghost use Rattle.kin_rules.specs.Places.{found, place};
ghost use Rattle.kin_pull.specs.Settles.{reads_on};
ghost use Rattle.kin_pull.specs.States.{opposite};

use kin_graph::{Halves, Steps, View};
use kin_ids::{Half, Memory, User};
use kin_rules::Side;
use std::alloc::Global;
use std::sync::ledger::Ledger;

/// The place of a user, where it is one of these. O(log n).
pub(crate) fn find(users: &[User], u: User) -> Option<usize>
    requires { IsStrictlySortedBy user_cmp users.now }
    ensures found { result ≡ found users.now u }
    ensures within { IfSome result (λ i. i < length users.now) }
{
    users.binary_search(&u).ok()
}

/// The same, for whoever looks users up in their order: the place after that of the last one is looked at first, and
/// remembered. O(1) where the user stands there, or else O(log n).
pub(crate) fn find_next(users: &[User], next: &mut usize, u: User) -> Option<usize>
    requires { IsStrictlySortedBy user_cmp users.now }
    ensures found { result ≡ found users.now u }
    ensures within { IfSome result (λ i. i < length users.now) }
{
    let place = find_from(users, *next, u);
    if let Some(i) = place {
        *next = i + 1;
    }
    place
}

// The place of a user, where it is one of these. This place is looked at first.
fn find_from(users: &[User], first: usize, u: User) -> Option<usize>
    requires { IsStrictlySortedBy user_cmp users.now }
    ensures found { result ≡ found users.now u }
    ensures within { IfSome result (λ i. i < length users.now) }
{
    match users.get(first) {
        Some(user) if user.0 == u.0 => Some(first),
        _ => find(users, u),
    }
}

/// The place of a user, or else the number of users: see `find_next`.
pub(crate) fn next_place(users: &[User], next: &mut usize, u: User) -> usize
    requires { IsStrictlySortedBy user_cmp users.now }
    ensures { result ≡ place users.now u }
{
    match find_next(users, next, u) {
        Some(i) => i,
        None => users.len(),
    }
}

// The place of the other end after what stands there, where the half is present and the end is one of the users.
fn put_end(row: &mut Vec<usize>, users: &[User], half: Half) -> Result<(), Memory>
    requires { IsStrictlySortedBy user_cmp users.now }
    ensures { OnOk result (row.new.items ≡ row.old.items ++ places_of users.now (present_ends (half ∷ []))) }
{
    if !half.present {
        return Ok(());
    }
    if let Some(place) = find(users, half.other) {
        row.push(place)?;
    }
    Ok(())
}

/// The places of the present ends of halves. O(log n) for each.
pub(crate) fn ends(alloc: Global, users: &[User], halves: &Halves) -> Result<Vec<usize>, Memory>
    requires { IsStrictlySortedBy user_cmp users.now }
    ensures { IfOk result (λ row. row.items ≡ places_of users.now (present_ends halves.now)) }
{
    let mut row = Vec::with_capacity(alloc, halves.len())?;
    for half in halves.iter() {
        put_end(&mut row, users, *half)?;
    }
    Ok(row)
}

/// The halves of a user on a side.
pub(crate) fn halves_on<'a, V: View, L: Ledger>(
    view: &'a V,
    side: Side,
    user: User,
    steps: &mut Steps<L>,
) -> &'a Halves
    ensures halves { result.now ≡ halves_on side (V.seen view.now) user }
    ensures reads { steps.new ≡ steps.old + reads_on side (V.seen view.now) user }
{
    match side {
        Side::In => view.inn(user, steps),
        Side::Out => view.out(user, steps),
    }
}

/// The other side.
pub(crate) fn opposite(side: Side) -> Side
    ensures { result ≡ opposite side }
{
    match side {
        Side::In => Side::Out,
        Side::Out => Side::In,
    }
}
