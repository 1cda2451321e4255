//! The difference between two stores of one partition: what was touched is looked up in both.

ghost use Rattle.std.specs.Prelude.{◌≡◌, ◌++◌, ◌&&◌, not, IfOk, OnOk};
ghost use Rattle.std.specs.List.Sorted.{IsStrictlySortedBy};
ghost use Rattle.kin_ids.specs.Users.{has_user, user_cmp};
ghost use Rattle.kin_store.specs.Pairs.{pair_cmp, tag_user_cmp};
ghost use Rattle.kin_store.specs.State.{row_of, users_of, view_of};
ghost use Rattle.kin_store.specs.Changes.{kept};
ghost use Rattle.kin_store.specs.Hints.{IsIndexed, Precedes};
ghost use Rattle.kin_graph.specs.Deltas.{is_met, is_present, new_use, one_if, pair_in, use_of, HasAll, IsDelta};
ghost use Rattle.kin_graph.specs.Gathered.{also_told, changes_on, mentions_on, IsFilled, IsNoted};
ghost use Rattle.kin_graph.specs.Gathered.{halves_on, new_tag_users, new_uses, said_more, users_on};
ghost use Rattle.kin_graph.specs.Touches.{IsTouched};

use crate::deltas::{Delta, HalfChanges, Lists, Pairs, SaidRow, UseRow};
use crate::part_graphs::PartGraph;
use crate::touched::Touched;
use kin_ids::{Half, ListOf, Memory, Use, User};
use kin_store::{Index, Pair, PartSnap, TagUser};
use std::collections::BTreeSet;

impl PartGraph {
    /// What differs between an earlier store of the partition and this one, where only what is noted was touched since.
    /// O(t log n) for the t notes. What tells nothing keeps no memory.
    pub fn difference(&self, old: &PartSnap, touched: &Touched) -> Result<Delta, Memory>
        requires touched { IsTouched touched.now (view_of old.now) (view_of self.now) }
        requires stays { Precedes (kept old.now) (kept self.now) }
        ensures { IfOk result (λ d. IsDelta (view_of old.now) (view_of self.now) d) }
    {
        let is = &self.current;
        let lists = told(old, &self.index, is, &self.index, touched)?;
        Delta::of(is.alloc(), lists)
    }
}

/// What differs between two versions of one partition's part, where the later one has all that the earlier one has,
/// whether or not one was made of the other. O(n log n) for the n items of the later one; `difference` looks only at
/// what was touched.
pub fn delta(old: &PartGraph, new: &PartGraph) -> Result<Delta, Memory>
    requires { HasAll (view_of old.now) (view_of new.now) }
    ensures { IfOk result (λ d. IsDelta (view_of old.now) (view_of new.now) d) }
{
    let was = &old.current;
    let is = &new.current;
    let mut all = Touched::new(is.alloc());
    all.note_all(is)?;
    let lists = told(was, &old.index, is, &new.index, &all)?;
    Delta::of(is.alloc(), lists)
}

// A side of a user's row: whom it follows and mentions, or who follows and mentions it.
#[derive(Clone, Copy)]
enum Side {
    Out,
    In,
}

impl Side {
    // The half of a pair on this side.
    fn half(self, snap: &PartSnap, index: &Index, pair: Pair) -> Option<Half>
        requires { IsIndexed (kept snap.now) index.now }
        ensures { result ≡ pair_in (halves_on self (view_of snap.now)) pair }
    {
        match self {
            Side::Out => snap.out_half(index, pair),
            Side::In => snap.in_half(index, pair),
        }
    }

    // Whether the pair's other user is mentioned on this side.
    fn mentions(self, snap: &PartSnap, index: &Index, pair: Pair) -> bool
        requires { IsIndexed (kept snap.now) index.now }
        ensures { result ≡ has_user (users_on self (view_of snap.now) pair.user) pair.other }
    {
        match self {
            Side::Out => snap.mentions_user(index, pair),
            Side::In => snap.mentioned_by(index, pair),
        }
    }
}

// What is told of everything that was touched.
fn told(
    was: &PartSnap,
    was_index: &Index,
    is: &PartSnap,
    index: &Index,
    touched: &Touched,
) -> Result<Lists, Memory>
    requires was { IsIndexed (kept was.now) was_index.now }
    requires is { IsIndexed (kept is.now) index.now }
    ensures noted { OnOk result (IsNoted touched.now) }
    ensures filled { IfOk result (λ d. IsFilled touched.now (view_of was.now) (view_of is.now) d) }
{
    Ok(Lists {
        out: half_changes(Side::Out, was, was_index, is, index, &touched.out)?,
        inn: half_changes(Side::In, was, was_index, is, index, &touched.inn)?,
        mention_out: new_mentions(Side::Out, was, was_index, is, index, &touched.mentions)?,
        mention_in: new_mentions(Side::In, was, was_index, is, index, &touched.mentioners)?,
        said: said_more(was, is, &touched.said)?,
        uses: new_uses(was, was_index, is, index, &touched.uses)?,
        tag_users: new_tag_users(was, was_index, is, index, &touched.tag_users)?,
    })
}

// What changed of the follow halves on a side of users.
fn half_changes(
    side: Side,
    was: &PartSnap,
    was_index: &Index,
    is: &PartSnap,
    index: &Index,
    touched: &BTreeSet<Pair>,
) -> Result<HalfChanges, Memory>
    requires was { IsIndexed (kept was.now) was_index.now }
    requires is { IsIndexed (kept is.now) index.now }
    ensures ordered { IsStrictlySortedBy pair_cmp touched.now.keys }
    ensures told { IfOk result (λ c. c ≡ changes_on side (view_of was.now) (view_of is.now) touched.now.keys) }
{
    let mut changes = HalfChanges::none(is.alloc());
    for pair in touched.iter() {
        let before = side.half(was, was_index, *pair);
        let after = side.half(is, index, *pair);
        changes.tell(*pair, before, after)?;
    }
    Ok(changes)
}

// The users who mention somebody whom they didn't, or whom somebody mentions who didn't.
fn new_mentions(
    side: Side,
    was: &PartSnap,
    was_index: &Index,
    is: &PartSnap,
    index: &Index,
    touched: &BTreeSet<Pair>,
) -> Result<Pairs, Memory>
    requires was { IsIndexed (kept was.now) was_index.now }
    requires is { IsIndexed (kept is.now) index.now }
    ensures ordered { IsStrictlySortedBy pair_cmp touched.now.keys }
    ensures told { IfOk result (λ ps. ps ≡ mentions_on side (view_of was.now) (view_of is.now) touched.now.keys) }
{
    let mut pairs = ListOf::new(is.alloc());
    for pair in touched.iter() {
        let before = side.mentions(was, was_index, *pair);
        let after = side.mentions(is, index, *pair);
        put_if(&mut pairs, came(before, after), *pair)?;
    }
    Ok(pairs)
}

// By how much the numbers of items that mention users grew.
fn said_more(
    was: &PartSnap,
    is: &PartSnap,
    touched: &BTreeSet<User>,
) -> Result<ListOf<SaidRow>, Memory>
    ensures ordered { IsStrictlySortedBy user_cmp touched.now.keys }
    ensures told { IfOk result (λ rs. rs ≡ said_more (view_of was.now) (view_of is.now) touched.now.keys) }
{
    let mut rows = ListOf::new(is.alloc());
    for user in touched.iter() {
        let before = was.row(*user).said();
        let after = is.row(*user).said();
        let row = SaidRow {
            user: *user,
            number: after.saturating_sub(before),
        };
        put_if(&mut rows, before < after, row)?;
    }
    Ok(rows)
}

// The tags that users have used and hadn't.
fn new_uses(
    was: &PartSnap,
    was_index: &Index,
    is: &PartSnap,
    index: &Index,
    touched: &BTreeSet<TagUser>,
) -> Result<ListOf<UseRow>, Memory>
    requires was { IsIndexed (kept was.now) was_index.now }
    requires is { IsIndexed (kept is.now) index.now }
    ensures ordered { IsStrictlySortedBy tag_user_cmp touched.now.keys }
    ensures told { IfOk result (λ rs. rs ≡ new_uses (view_of was.now) (view_of is.now) touched.now.keys) }
{
    let mut rows = ListOf::new(is.alloc());
    for used in touched.iter() {
        let before = was.first_use(was_index, used.user, used.tag);
        let after = is.first_use(index, used.user, used.tag);
        put_use(&mut rows, used.user, before, after)?;
    }
    Ok(rows)
}

// The users who have used a tag and hadn't.
fn new_tag_users(
    was: &PartSnap,
    was_index: &Index,
    is: &PartSnap,
    index: &Index,
    touched: &BTreeSet<TagUser>,
) -> Result<ListOf<TagUser>, Memory>
    requires was { IsIndexed (kept was.now) was_index.now }
    requires is { IsIndexed (kept is.now) index.now }
    ensures ordered { IsStrictlySortedBy tag_user_cmp touched.now.keys }
    ensures told { IfOk result (λ rs. rs ≡ new_tag_users (view_of was.now) (view_of is.now) touched.now.keys) }
{
    let mut rows = ListOf::new(is.alloc());
    for used in touched.iter() {
        let before = was.has_tag_user(was_index, used.tag, used.user);
        let after = is.has_tag_user(index, used.tag, used.user);
        put_if(&mut rows, came(before, after), *used)?;
    }
    Ok(rows)
}

impl HalfChanges {
    // One more pair, whose half was and is so.
    fn tell(&mut self, pair: Pair, was: Option<Half>, is: Option<Half>) -> Result<(), Memory>
        ensures { OnOk result (self.new ≡ also_told pair was is self.old) }
    {
        let (was_here, is_here) = (is_present(was), is_present(is));
        put_if(&mut self.added, came(was.is_some(), is.is_some()), pair)?;
        put_if(&mut self.present, came(was_here, is_here), pair)?;
        put_if(&mut self.gone, came(is_here, was_here), pair)
    }
}

// Whether a half was ever added and is there now.
fn is_present(half: Option<Half>) -> bool
    ensures { result ≡ is_present half }
{
    match half {
        Some(half) => half.present,
        None => false,
    }
}

// Whether it is so and wasn't.
fn came(was: bool, is: bool) -> bool
    ensures { result ≡ (is && not was) }
{
    is && !was
}

// Appends an item that passes.
fn put_if<T: Drop>(list: &mut ListOf<T>, passes: bool, item: T) -> Result<(), Memory>
    ensures { OnOk result (list.new ≡ list.old ++ one_if passes item) }
{
    if passes {
        list.push(item)?;
    }
    Ok(())
}

// Appends the use that there is, where there was none.
fn put_use(
    rows: &mut ListOf<UseRow>,
    user: User,
    was: Option<Use>,
    is: Option<Use>,
) -> Result<(), Memory>
    ensures { OnOk result (rows.new ≡ rows.old ++ new_use user was is) }
{
    match (was, is) {
        (None, Some(entry)) => rows.push(UseRow { user, entry }),
        _ => Ok(()),
    }
}
