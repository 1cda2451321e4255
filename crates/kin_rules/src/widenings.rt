//! Columns over more users and over other tags.

ghost use Rattle.std.specs.Prelude.{◌≡◌, List, [], IfOk, length, map, slice_index, slice_index_or};
ghost use Rattle.std.specs.List.Sorted.{IsStrictlySortedBy};
ghost use Rattle.kin_ids.specs.Users.{tag_cmp, user_cmp};
ghost use Rattle.kin_rules.specs.Columns.{AreOf, column_of, columns_of, over_users};
ghost use Rattle.kin_rules.specs.Places.{place};
ghost use Rattle.kin_rules.specs.Results.{tag_place, value_of};

use crate::columns::{Column, spot_of_user};
use crate::numbers::KCount;
use crate::results::spot_of_tag;
use kin_ids::{ListOf, Memory, Tag, User};
use std::alloc::Global;
use std::collections::BTreeMap;

// The place of a user, or the number of users where it is none of them. O(log n).
fn place_of(users: &[User], u: User) -> usize
    requires { IsStrictlySortedBy user_cmp users.now }
    ensures { result ≡ place users.now u }
{
    match spot_of_user(users, u) {
        Ok(at) => at,
        Err(_) => users.len(),
    }
}

// The same, without a look-up where the user stands at the place that is guessed.
fn place_from(users: &[User], guess: usize, u: User) -> usize
    requires { IsStrictlySortedBy user_cmp users.now }
    ensures { result ≡ place users.now u }
{
    if guess < users.len() && users[guess] == u {
        guess
    } else {
        place_of(users, u)
    }
}

/// The places of these users among the old ones. O(n), and a look-up of each that is new or stands past one that isn't
/// among these.
pub(crate) fn places_of(alloc: Global, old: &[User], users: &[User]) -> Result<Vec<usize>, Memory>
    requires { IsStrictlySortedBy user_cmp old.now }
    ensures { IfOk result (λ v. v.items ≡ map (place old.now) users.now) }
{
    let mut places = Vec::with_capacity(alloc, users.len())?;
    let mut next = 0;
    for user in users {
        let at = place_from(old, next, *user);
        places.push(at)?;
        if at < old.len() {
            next = at + 1;
        }
    }
    Ok(places)
}

/// The numbers at these places, 0 past the last. O(n).
pub(crate) fn numbers_by(
    alloc: Global,
    numbers: &[u64],
    places: &[usize],
) -> Result<Vec<u64>, Memory>
    ensures { IfOk result (λ v. v.items ≡ map (slice_index numbers.now) places.now) }
{
    let mut moved = Vec::with_capacity(alloc, places.len())?;
    for at in places {
        moved.push(numbers.get(*at).copied().unwrap_or(0))?;
    }
    Ok(moved)
}

// The value of a user with this place among the old ones.
fn value_by(column: &Column, old: &[User], at: usize, u: User) -> Option<u32>
    requires users { length column.now.values.items ≡ length old.now }
    requires place { at ≡ place old.now u }
    ensures { result ≡ value_of old.now (column_of column.now) u }
{
    let _ = old;
    if at < column.values.len() {
        column.values[at]
    } else {
        column.others.get(&u).copied()
    }
}

// The values of these users in a column of the old ones.
fn values_by(
    alloc: Global,
    column: &Column,
    old: &[User],
    users: &[User],
    places: &[usize],
) -> Result<Vec<Option<u32>>, Memory>
    requires users { length column.now.values.items ≡ length old.now }
    requires places { places.now ≡ map (place old.now) users.now }
    ensures { IfOk result (λ v. v.items ≡ map (value_of old.now (column_of column.now)) users.now) }
{
    let mut values = Vec::with_capacity(alloc, users.len())?;
    for (i, user) in users.iter().enumerate() {
        values.push(value_by(column, old, places[i], *user))?;
    }
    Ok(values)
}

fn copied(others: &BTreeMap<User, u32>) -> Result<BTreeMap<User, u32>, Memory>
    ensures { IfOk result (λ m. m.entries ≡ others.now.entries) }
{
    let others = others.clone()?;
    Ok(others)
}

// A column over these users, where the value of each user stays.
fn column_by(
    alloc: Global,
    column: &Column,
    old: &[User],
    users: &[User],
    places: &[usize],
) -> Result<Column, Memory>
    requires users { length column.now.values.items ≡ length old.now }
    requires places { places.now ≡ map (place old.now) users.now }
    ensures { IfOk result (λ c. column_of c ≡ over_users old.now users.now (column_of column.now)) }
{
    Ok(Column {
        values: values_by(alloc, column, old, users, places)?,
        others: copied(&column.others)?,
    })
}

/// Columns over these users, where the value of each user stays. O(n) for each column.
pub(crate) fn columns_by(
    alloc: Global,
    columns: &[Column],
    old: &[User],
    users: &[User],
    places: &[usize],
) -> Result<Vec<Column>, Memory>
    requires users { AreOf (length old.now) (columns_of columns.now) }
    requires places { places.now ≡ map (place old.now) users.now }
    ensures { IfOk result (λ v. columns_of v.items ≡ map (over_users old.now users.now) (columns_of columns.now)) }
{
    let mut wide = Vec::with_capacity(alloc, columns.len())?;
    for column in columns {
        wide.push(column_by(alloc, column, old, users, places)?)?;
    }
    Ok(wide)
}

// A copy of the exposures of a tag, none where it is none of the tags.
fn list_of(
    alloc: Global,
    tags: &[Tag],
    expos: &[ListOf<KCount>],
    t: Tag,
) -> Result<ListOf<KCount>, Memory>
    requires ascend { IsStrictlySortedBy tag_cmp tags.now }
    requires long { length expos.now ≡ length tags.now }
    ensures { IfOk result (λ l. l ≡ slice_index_or expos.now (tag_place tags.now t) []) }
{
    match spot_of_tag(tags, t) {
        Ok(at) => Ok(ListOf::of(Vec::from_slice(alloc, expos[at].as_slice())?)),
        Err(_) => Ok(ListOf::new(alloc)),
    }
}

/// Copies of the exposures of these tags, none for one that isn't among the old ones. A look-up of each, and its list.
pub(crate) fn lists_of(
    alloc: Global,
    old: &[Tag],
    expos: &[ListOf<KCount>],
    tags: &[Tag],
) -> Result<Vec<ListOf<KCount>>, Memory>
    requires ascend { IsStrictlySortedBy tag_cmp old.now }
    requires long { length expos.now ≡ length old.now }
    ensures { IfOk result (λ v. v.items ≡ map (λ t. slice_index_or expos.now (tag_place old.now t) []) tags.now) }
{
    let mut lists = Vec::with_capacity(alloc, tags.len())?;
    for tag in tags {
        lists.push(list_of(alloc, old, expos, *tag)?)?;
    }
    Ok(lists)
}
