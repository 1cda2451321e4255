//! Notes of all that a store has.

ghost use Rattle.std.specs.Prelude.{◌≡◌, ℕ, true, false, List, None, OnOk};
ghost use Rattle.std.specs.List.{list_any};
ghost use Rattle.kin_ids.specs.declared.ids.User.{User};
ghost use Rattle.kin_ids.specs.Users.{has_user, same_tag};
ghost use Rattle.kin_store.specs.declared.pairs.Pair.{Pair};
ghost use Rattle.kin_store.specs.declared.pairs.TagUser.{TagUser};
ghost use Rattle.kin_graph.specs.Deltas.{half_to, use_of};
ghost use Rattle.kin_graph.specs.State.{row_of, users_of, view_of};
ghost use Rattle.kin_graph.specs.Touches.{KeepsNotes, NotesAll, NotesRow, NotesUsers};
ghost use Rattle.kin_graph.specs.Touches.{has_pair, has_tag_user, pair, tag_user};

use crate::touched::{Touched, put_pair, put_tag_user, put_user};
use kin_ids::{Memory, Tag, User};
use kin_store::{Halves, Pair, PartSnap, Row, TagUser, UseList, Users};
use std::collections::BTreeSet;

impl Touched {
    /// Notes all that a store has. At `Err` it may have noted some of it. O(n log n) for the n items of the store.
    pub(crate) fn note_all(&mut self, snap: &PartSnap) -> Result<(), Memory>
        ensures { OnOk result (NotesAll (view_of snap.now) self.new) }
    {
        let owners = snap.owners()?;
        self.note_rows(snap, owners.as_slice())?;
        let tags = snap.tags()?;
        self.note_tags(snap, tags.as_slice())?;
        Ok(())
    }

    // Notes what the rows of these users have.
    fn note_rows(&mut self, snap: &PartSnap, users: &[User]) -> Result<(), Memory>
        ensures { OnOk result ((u : User) → has_user users.now u ≡ true → NotesRow u (row_of snap.now u) self.new) }
    {
        for user in users {
            self.note_row(*user, snap.row(*user))?;
        }
        Ok(())
    }

    // Notes what a row has.
    fn note_row(&mut self, user: User, row: &Row) -> Result<(), Memory>
        ensures kept { OnOk result (KeepsNotes self.old self.new) }
        ensures ok { OnOk result (NotesRow user row.now self.new) }
    {
        put_halves(&mut self.out, user, row.out())?;
        put_halves(&mut self.inn, user, row.inn())?;
        put_users(&mut self.mentions, user, row.mentions())?;
        put_users(&mut self.mentioners, user, row.mentioners())?;
        put_uses(&mut self.uses, user, row.uses())?;
        put_user(&mut self.said, user)?;
        Ok(())
    }

    // Notes the users of these tags.
    fn note_tags(&mut self, snap: &PartSnap, tags: &[Tag]) -> Result<(), Memory>
        ensures kept { OnOk result (KeepsNotes self.old self.new) }
        ensures ok { OnOk result ((t : List ℕ) → list_any (same_tag t) tags.now ≡ true →
            NotesUsers t (users_of snap.now t) self.new.tag_users) }
    {
        put_tags(&mut self.tag_users, snap, tags)?;
        Ok(())
    }
}

// Notes the users of these tags.
fn put_tags(pairs: &mut BTreeSet<TagUser>, snap: &PartSnap, tags: &[Tag]) -> Result<(), Memory>
    ensures kept { OnOk result ((p : TagUser) → has_tag_user pairs.new.keys p ≡ false → has_tag_user pairs.old.keys p ≡ false) }
    ensures ok { OnOk result ((t : List ℕ) → list_any (same_tag t) tags.now ≡ true →
        NotesUsers t (users_of snap.now t) pairs.new.keys) }
{
    for tag in tags {
        put_tag_users(pairs, *tag, snap.users_of(*tag))?;
    }
    Ok(())
}

// Notes a user's halves.
fn put_halves(pairs: &mut BTreeSet<Pair>, user: User, halves: &Halves) -> Result<(), Memory>
    ensures kept { OnOk result ((p : Pair) → has_pair pairs.new.keys p ≡ false → has_pair pairs.old.keys p ≡ false) }
    ensures ok { OnOk result ((w : User) → has_pair pairs.new.keys (pair user w) ≡ false → half_to halves.now w ≡ None) }
{
    for half in halves.iter() {
        put_pair(pairs, user, half.other)?;
    }
    Ok(())
}

// Notes a user with these others.
fn put_users(pairs: &mut BTreeSet<Pair>, user: User, others: &Users) -> Result<(), Memory>
    ensures kept { OnOk result ((p : Pair) → has_pair pairs.new.keys p ≡ false → has_pair pairs.old.keys p ≡ false) }
    ensures ok { OnOk result ((w : User) → has_pair pairs.new.keys (pair user w) ≡ false → has_user others.now w ≡ false) }
{
    for other in others.iter() {
        put_pair(pairs, user, *other)?;
    }
    Ok(())
}

// Notes a user's uses.
fn put_uses(pairs: &mut BTreeSet<TagUser>, user: User, uses: &UseList) -> Result<(), Memory>
    ensures kept { OnOk result ((p : TagUser) → has_tag_user pairs.new.keys p ≡ false → has_tag_user pairs.old.keys p ≡ false) }
    ensures ok { OnOk result ((t : List ℕ) → has_tag_user pairs.new.keys (tag_user t user) ≡ false → use_of uses.now t ≡ None) }
{
    for used in uses.iter() {
        put_tag_user(pairs, used.tag, user)?;
    }
    Ok(())
}

// Notes a tag's users.
fn put_tag_users(pairs: &mut BTreeSet<TagUser>, tag: Tag, users: &Users) -> Result<(), Memory>
    ensures kept { OnOk result ((p : TagUser) → has_tag_user pairs.new.keys p ≡ false → has_tag_user pairs.old.keys p ≡ false) }
    ensures ok { OnOk result ((u : User) → has_tag_user pairs.new.keys (tag_user tag u) ≡ false → has_user users.now u ≡ false) }
{
    for user in users.iter() {
        put_tag_user(pairs, tag, *user)?;
    }
    Ok(())
}
