//! Columns of numbers and of values over the users, ascending.

ghost use Rattle.std.specs.Prelude.{◌≡◌, ◌<◌, ◌≤◌, None, All, IfOk, OnErr, OnOk};
ghost use Rattle.std.specs.Prelude.{length, map, replicate, slice_index, vec_capacity, vec_len};
ghost use Rattle.std.specs.List.Sorted.{IsStrictlySortedBy};
ghost use Rattle.kin_ids.specs.Users.{user_cmp};
ghost use Rattle.kin_rules.specs.Places.{place};
ghost use Rattle.kin_rules.specs.Results.{no_column, value_in, value_of};
ghost use Rattle.kin_rules.specs.Columns.{AreOf, HasRoom, SetsValue, SetsValueIn, column_of, columns_of, widened};
ghost use Rattle.kin_rules.specs.Spots.{IsSpot};

use crate::spots::{put_at, spot_of};
use kin_ids::{Memory, User};
use std::alloc::Global;
use std::collections::BTreeMap;

/// A column of a rule of walks from one landmark: a value or none for each of the users, in their order, and the values
/// of those that are none of the users.
#[derive(Drop)]
pub struct Column {
    pub values: Vec<Option<u32>>,
    pub others: BTreeMap<User, u32>,
}

/// The columns of both rules of walks, one of each landmark.
#[derive(Drop)]
pub struct Walks {
    pub hops: Vec<Column>,
    pub close: Vec<Column>,
}

impl Column {
    // The value of a user.
    fn value(&self, users: &[User], u: User) -> Option<u32>
        requires ascend { IsStrictlySortedBy user_cmp users.now }
        requires users { length self.now.values.items ≡ length users.now }
        ensures { result ≡ value_of users.now (column_of self.now) u }
    {
        match spot_of_user(users, u) {
            Ok(at) => self.values[at],
            Err(_) => self.others.get(&u).copied(),
        }
    }

    // The value of the user with that spot is this.
    fn set(
        &mut self,
        users: &[User],
        spot: Result<usize, usize>,
        u: User,
        value: Option<u32>,
    ) -> Result<(), Memory>
        requires spot { IsSpot user_cmp users.now u spot }
        requires users { length self.old.values.items ≡ length users.now }
        ensures set { OnOk result (SetsValue users.now (column_of self.old) u value (column_of self.new)) }
        ensures users { length self.new.values.items ≡ length users.now }
        ensures err { OnErr result (column_of self.new ≡ column_of self.old) }
    {
        let _ = users;
        match (spot, value) {
            (Ok(at), _) => self.values[at] = value,
            (Err(_), Some(value)) => {
                self.others.insert(u, value)?;
            }
            (Err(_), None) => {
                self.others.remove(&u);
            }
        }
        Ok(())
    }

    // One more user, at a place, whose value stays. Of a user of the users the others aren't read. It takes no memory.
    fn widen(&mut self, at: usize, u: User)
        requires room { vec_len self.old.values < vec_capacity self.old.values }
        requires within { at ≤ length self.old.values.items }
        ensures { column_of self.new ≡ widened at u (column_of self.old) }
    {
        let value = self.others.get(&u).copied();
        put_at(&mut self.values, at, value);
    }
}

/// So many columns of nobody.
pub(crate) fn empty_columns(alloc: Global, n: usize) -> Result<Vec<Column>, Memory>
    ensures { IfOk result (λ v. columns_of v.items ≡ replicate n no_column) }
{
    let mut columns = Vec::with_capacity(alloc, n)?;
    for _column in 0..n {
        columns.push(Column {
            values: Vec::new(alloc),
            others: BTreeMap::new(alloc),
        })?;
    }
    Ok(columns)
}

/// A user's spot among the users. O(log n).
pub(crate) fn spot_of_user(users: &[User], u: User) -> Result<usize, usize>
    requires { IsStrictlySortedBy user_cmp users.now }
    ensures { IsSpot user_cmp users.now u result }
{
    spot_of(users, &u)
}

/// The number of a user, 0 where it is none of the users. O(log n).
pub(crate) fn number_at(users: &[User], numbers: &[u64], u: User) -> u64
    requires ascend { IsStrictlySortedBy user_cmp users.now }
    requires length { length numbers.now ≡ length users.now }
    ensures { result ≡ slice_index numbers.now (place users.now u) }
{
    match spot_of_user(users, u) {
        Ok(at) => numbers[at],
        Err(_) => 0,
    }
}

/// The value of a user in the column of that number. O(log n).
pub(crate) fn value_at(users: &[User], columns: &[Column], i: usize, u: User) -> Option<u32>
    requires ascend { IsStrictlySortedBy user_cmp users.now }
    requires users { AreOf (length users.now) (columns_of columns.now) }
    ensures { result ≡ value_in users.now (columns_of columns.now) i u }
{
    if i < columns.len() {
        columns[i].value(users, u)
    } else {
        None
    }
}

/// Sets the value of a user in the column of that number. O(log n).
pub(crate) fn set_value(
    users: &[User],
    columns: &mut [Column],
    i: usize,
    u: User,
    value: Option<u32>,
) -> Result<(), Memory>
    requires ascend { IsStrictlySortedBy user_cmp users.now }
    requires users { AreOf (length users.now) (columns_of columns.old) }
    requires column { i < length columns.old }
    ensures set { OnOk result (SetsValueIn users.now (columns_of columns.old) i u value (columns_of columns.new)) }
    ensures users { AreOf (length users.now) (columns_of columns.new) }
    ensures err { OnErr result (columns_of columns.new ≡ columns_of columns.old) }
{
    let spot = spot_of_user(users, u);
    columns[i].set(users, spot, u, value)?;
    Ok(())
}

// Makes room for one more user in each column.
fn reserve_user(columns: &mut [Column]) -> Result<(), Memory>
    ensures same { columns_of columns.new ≡ columns_of columns.old }
    ensures room { OnOk result (HasRoom columns.new) }
{
    for column in columns.iter_mut() {
        column.values.reserve(1)?;
    }
    Ok(())
}

// One more user in each column, at a place. It takes no memory.
fn widen_all(columns: &mut [Column], at: usize, u: User)
    requires room { HasRoom columns.old }
    requires within { All (λ c. at ≤ length c.values.items) columns.old }
    ensures { columns_of columns.new ≡ map (widened at u) (columns_of columns.old) }
{
    for column in columns.iter_mut() {
        column.widen(at, u);
    }
}

/// Makes room for one more user in each column.
pub(crate) fn reserve_in(columns: &mut Vec<Column>) -> Result<(), Memory>
    ensures same { columns_of columns.new.items ≡ columns_of columns.old.items }
    ensures room { OnOk result (HasRoom columns.new.items) }
{
    reserve_user(columns.as_mut_slice())?;
    Ok(())
}

/// One more user in each column, at a place. It takes no memory.
pub(crate) fn widen_in(columns: &mut Vec<Column>, at: usize, u: User)
    requires room { HasRoom columns.old.items }
    requires within { All (λ c. at ≤ length c.values.items) columns.old.items }
    ensures { columns_of columns.new.items ≡ map (widened at u) (columns_of columns.old.items) }
{
    widen_all(columns.as_mut_slice(), at, u);
}
