//! Numbers by key, in tables with room for more keys, that fall and rise by what deltas tell.

ghost use Rattle.std.specs.Prelude.{◌≡◌, ◌≤◌, ◌<◌, ◌+◌, ℕ, List, count_by, length, unwrap_or, if◌then◌else◌};
ghost use Rattle.std.specs.List.{sum_by};
ghost use Rattle.std.specs.HashMap.{get, spare};
ghost use Rattle.kin_ids.specs.declared.ids.User.{User};
ghost use Rattle.kin_ids.specs.Users.{same_tag, same_user};
ghost use Rattle.kin_changes.specs.Told.{is_of, pairs_of, said_more, tag_more};
ghost use Rattle.kin_counts.specs.Changes.{lowered, raised};
ghost use Rattle.kin_counts.specs.Tallies.{gone_on, kept, kept_tag, listed, now_on};

use crate::sides::{Side, gone, now};
use kin_graph::{Delta, Pair, SaidRow, TagUser};
use kin_ids::{Tag, User};
use std::collections::HashMap;
use std::hash::Hash;

// The number of a key, 0 where it has none.
pub(crate) fn number_at<K: Copy + Eq + Hash>(numbers: &HashMap<K, u64>, key: K) -> u64
    ensures { result ≡ unwrap_or (get K.eq numbers.now key) 0 }
{
    numbers.get(&key).copied().unwrap_or(0)
}

// A key has this number.
fn put<K: Copy + Eq + Hash>(numbers: &mut HashMap<K, u64>, key: K, n: u64)
    requires { 0 < spare numbers.old }
    ensures numbers { (k : _) → unwrap_or (get K.eq numbers.new k) 0 ≡ (if K.eq key k then n else unwrap_or (get K.eq numbers.old k) 0) }
    ensures spare { spare numbers.old ≤ spare numbers.new + 1 }
{
    let Ok(_) = numbers.insert(key, n) else {
        unreachable!();
    };
}

// The number of a user is one less.
fn lower(numbers: &mut HashMap<u32, u64>, u: User)
    requires { 0 < spare numbers.old }
    ensures numbers { (x : User) → kept numbers.new.entries x ≡ lowered (if same_user x u then 1 else 0) (kept numbers.old.entries x) }
    ensures spare { spare numbers.old ≤ spare numbers.new + 1 }
{
    let n = number_at(numbers, u.0);
    put(numbers, u.0, n.saturating_sub(1));
}

// The number of a user is so much more.
fn raise(numbers: &mut HashMap<u32, u64>, u: User, by: u64)
    requires { 0 < spare numbers.old }
    ensures numbers { (x : User) → kept numbers.new.entries x ≡ raised (if same_user x u then by else 0) (kept numbers.old.entries x) }
    ensures spare { spare numbers.old ≤ spare numbers.new + 1 }
{
    let n = number_at(numbers, u.0);
    put(numbers, u.0, n.saturating_add(by));
}

// A tag has one user more.
fn raise_tag(numbers: &mut HashMap<Tag, u64>, t: Tag)
    requires { 0 < spare numbers.old }
    ensures numbers { (x : List ℕ) → kept_tag numbers.new.entries x
        ≡ raised (if same_tag x t then 1 else 0) (kept_tag numbers.old.entries x) }
    ensures spare { spare numbers.old ≤ spare numbers.new + 1 }
{
    let n = number_at(numbers, t);
    put(numbers, t, n.saturating_add(1));
}

// The numbers of the users of pairs are one less for each.
fn lower_pairs(numbers: &mut HashMap<u32, u64>, pairs: &[Pair])
    requires { length pairs.now ≤ spare numbers.old }
    ensures numbers { (x : User) → kept numbers.new.entries x ≡ lowered (count_by (is_of x) pairs.now) (kept numbers.old.entries x) }
    ensures spare { spare numbers.old ≤ spare numbers.new + length pairs.now }
{
    for pair in pairs {
        lower(numbers, pair.user);
    }
}

// The numbers of the users of pairs are one more for each.
fn raise_pairs(numbers: &mut HashMap<u32, u64>, pairs: &[Pair])
    requires { length pairs.now ≤ spare numbers.old }
    ensures numbers { (x : User) → kept numbers.new.entries x ≡ raised (count_by (is_of x) pairs.now) (kept numbers.old.entries x) }
    ensures spare { spare numbers.old ≤ spare numbers.new + length pairs.now }
{
    for pair in pairs {
        raise(numbers, pair.user, 1);
    }
}

// More items mention these users.
fn raise_said(numbers: &mut HashMap<u32, u64>, rows: &[SaidRow])
    requires { length rows.now ≤ spare numbers.old }
    ensures numbers { (x : User) → kept numbers.new.entries x
        ≡ raised (sum_by (λ r. if same_user x r.user then r.number else 0) rows.now) (kept numbers.old.entries x) }
    ensures spare { spare numbers.old ≤ spare numbers.new + length rows.now }
{
    for row in rows {
        raise(numbers, row.user, row.number);
    }
}

// These tags have one user more for each.
fn raise_tags(numbers: &mut HashMap<Tag, u64>, rows: &[TagUser])
    requires { length rows.now ≤ spare numbers.old }
    ensures numbers { (x : List ℕ) → kept_tag numbers.new.entries x
        ≡ raised (count_by (λ r. same_tag x r.tag) rows.now) (kept_tag numbers.old.entries x) }
    ensures spare { spare numbers.old ≤ spare numbers.new + length rows.now }
{
    for row in rows {
        raise_tag(numbers, row.tag);
    }
}

/// Takes off the halves on a side that went. A look-up for each.
pub(crate) fn lower_all(numbers: &mut HashMap<u32, u64>, side: Side, deltas: &[Delta])
    requires { listed (gone_on side) deltas.now ≤ spare numbers.old }
    ensures numbers { (x : User) → kept numbers.new.entries x ≡ lowered (pairs_of (gone_on side) deltas.now x) (kept numbers.old.entries x) }
    ensures spare { spare numbers.old ≤ spare numbers.new + listed (gone_on side) deltas.now }
{
    for delta in deltas {
        lower_pairs(numbers, gone(delta, side));
    }
}

/// Adds the halves on a side that came. A look-up for each.
pub(crate) fn raise_all(numbers: &mut HashMap<u32, u64>, side: Side, deltas: &[Delta])
    requires { listed (now_on side) deltas.now ≤ spare numbers.old }
    ensures { (x : User) → kept numbers.new.entries x ≡ raised (pairs_of (now_on side) deltas.now x) (kept numbers.old.entries x) }
{
    for delta in deltas {
        raise_pairs(numbers, now(delta, side));
    }
}

/// Adds the items that mention users. A look-up for each user.
pub(crate) fn raise_all_said(numbers: &mut HashMap<u32, u64>, deltas: &[Delta])
    requires { listed (λ d. d.said) deltas.now ≤ spare numbers.old }
    ensures { (x : User) → kept numbers.new.entries x ≡ raised (said_more deltas.now x) (kept numbers.old.entries x) }
{
    for delta in deltas {
        raise_said(numbers, delta.said());
    }
}

/// Adds the new users of tags. A look-up for each.
pub(crate) fn raise_all_tags(numbers: &mut HashMap<Tag, u64>, deltas: &[Delta])
    requires { listed (λ d. d.tag_users) deltas.now ≤ spare numbers.old }
    ensures { (x : List ℕ) → kept_tag numbers.new.entries x ≡ raised (tag_more deltas.now x) (kept_tag numbers.old.entries x) }
{
    for delta in deltas {
        raise_tags(numbers, delta.tag_users());
    }
}
