//! The store of one partition in blocks.

ghost use Rattle.std.specs.Prelude.{◌≡◌, ◌<◌, ◌^◌, ◌++◌, ℕ, List, IfOk, OnOk, OnErr, false, filter, length, not, true};
ghost use Rattle.std.specs.Map.{keys_of};
ghost use Rattle.std.specs.List.{list_any};
ghost use Rattle.std.specs.List.Sorted.{IsStrictlySortedBy};
ghost use Rattle.kin_ids.specs.declared.ids.User.{User};
ghost use Rattle.kin_ids.specs.declared.stamps.Place.{Place};
ghost use Rattle.kin_ids.specs.Parting.{user_part, tag_part};
ghost use Rattle.kin_ids.specs.Operations.{op_part};
ghost use Rattle.kin_ids.specs.Parts.{with_member};
ghost use Rattle.kin_ids.specs.Users.{has_user, same_tag, tag_cmp, user_cmp};
ghost use Rattle.kin_store.specs.Rows.{is_apart, is_none, no_row, row_applied};
ghost use Rattle.kin_store.specs.Lists.{user_key, user_place};
ghost use Rattle.kin_store.specs.Changes.{with_op, with_user, done, kept};
ghost use Rattle.kin_store.specs.Hints.{op_count, op_place, row_count, row_place, IsHint, IsOpHint, IsRowHint};
ghost use Rattle.kin_store.specs.State.{block_at, empty_part, row_of, tag_slot, user_slot, users_of, LivesHere};

use crate::blocks::Block;
use crate::lists::{Users, is_member, place_in};
use crate::rows::{Blank, Row};
use crate::spine::Spine;
use kin_ids::{Memory, Op, PartId, Place, Tag, User, part_of_tag};
use std::alloc::{AllocError, Global};
use std::collections::BTreeSet;
use std::marker::Model;

/// One partition's part of the graph in blocks, which versions share.
#[derive(Drop)]
pub(crate) struct Store {
    alloc: Global,
    part: PartId,
    parts: u16,
    spine: Spine,
    blank: Blank,
}

impl Model for Store {
    ghost use Rattle.kin_store.specs.State.{PartState, IsPartStore};

    ghost Value = { PartState };

    ghost view = { λ a. record { part = a.part.0; parts = a.parts; blocks = a.spine } };

    ghost invariant = { λ a. IsPartStore (record { part = a.part.0; parts = a.parts; blocks = a.spine }) };
}

// So many classes of tags are spread over the blocks.
const CLASSES: u16 = 65521;

impl Store {
    /// An empty store. Its partition is one of `parts` many.
    pub(crate) fn new(alloc: Global, part: PartId, parts: u16) -> Result<Store, Memory>
        requires { part.0 < parts }
        ensures { IfOk result (λ s. s ≡ empty_part part.0 parts) }
    {
        Ok(Store {
            alloc,
            part,
            parts,
            spine: Spine::new(alloc)?,
            blank: Blank::new(alloc),
        })
    }

    /// Its allocator.
    pub(crate) fn alloc(&self) -> Global {
        self.alloc
    }

    /// Which partition it is. It takes no memory.
    pub(crate) fn part(&self) -> PartId
        ensures number { result.0 ≡ self.now.part }
        ensures home { LivesHere self.now }
    {
        self.part
    }

    // The block of a user.
    fn user_slot(&self, u: User) -> usize
        ensures slot { result ≡ user_slot self.now u }
        ensures within { result < length self.now.blocks }
    {
        (u.0 / u32::from(self.parts)) as usize % self.spine.len()
    }

    // The block of a tag.
    fn tag_slot(&self, t: Tag) -> usize
        ensures slot { result ≡ tag_slot self.now t }
        ensures within { result < length self.now.blocks }
    {
        usize::from(part_of_tag(t, CLASSES).0) % self.spine.len()
    }

    /// The row of a user. O(log n).
    pub(crate) fn row(&self, user: User) -> &Row
        ensures { result.now ≡ row_of self.now user }
    {
        match self.spine.block(self.user_slot(user)).row(user) {
            Some(row) => row,
            None => self.blank.row(),
        }
    }

    /// The users of a tag. O(log n).
    pub(crate) fn users(&self, tag: Tag) -> &Users
        ensures { result.now ≡ users_of self.now tag }
    {
        match self.spine.block(self.tag_slot(tag)).users(tag) {
            Some(users) => users,
            None => self.blank.users(),
        }
    }

    /// The users that aren't apart, ascending. O(n log n).
    pub(crate) fn vertices(&self) -> Result<Vec<User>, Memory>
        ensures ascend { IfOk result (λ us. IsStrictlySortedBy user_cmp us.items) }
        ensures all { IfOk result (λ us. (u : User) → has_user us.items u ≡ not (is_apart (row_of self.now u))) }
    {
        let mut users = BTreeSet::new(self.alloc);
        for slot in 0..self.spine.len() {
            users.extend(self.vertices_in(slot)?)?;
        }
        let users = users.into_iter().collect(self.alloc)?;
        Ok(users)
    }

    /// The users of all rows, in no stated order. O(n).
    pub(crate) fn owners(&self) -> Result<Vec<User>, Memory>
        ensures { IfOk result (λ us. (u : User) → has_user us.items u ≡ false → row_of self.now u ≡ no_row) }
    {
        let mut users = Vec::new(self.alloc);
        for slot in 0..self.spine.len() {
            put_owners(&mut users, self.spine.block(slot))?;
        }
        Ok(users)
    }

    // The users of a block's rows that aren't apart.
    fn vertices_in(&self, slot: usize) -> Result<Vec<User>, Memory>
        requires { slot < length self.now.blocks }
        ensures { IfOk result (λ us. us.items
            ≡ filter (λ u. not (is_apart (row_of self.now u))) (keys_of (block_at self.now slot).rows)) }
    {
        let mut users = Vec::new(self.alloc);
        for user in self.spine.block(slot).rows().keys() {
            if self.row(*user).is_vertex() {
                users.push(*user)?;
            }
        }
        Ok(users)
    }

    /// The tags that somebody has used, ascending. O(n log n).
    pub(crate) fn tags(&self) -> Result<Vec<Tag>, Memory>
        ensures ascend { IfOk result (λ ts. IsStrictlySortedBy tag_cmp ts.items) }
        ensures in_use { IfOk result (λ ts. (t : List ℕ)
            → list_any (same_tag t) ts.items ≡ not (is_none (users_of self.now t))) }
    {
        let mut tags = BTreeSet::new(self.alloc);
        for slot in 0..self.spine.len() {
            tags.extend(self.tags_in(slot)?)?;
        }
        let tags = tags.into_iter().collect(self.alloc)?;
        Ok(tags)
    }

    // The tags of a block that somebody has used.
    fn tags_in(&self, slot: usize) -> Result<Vec<Tag>, Memory>
        requires { slot < length self.now.blocks }
        ensures { IfOk result (λ ts. ts.items
            ≡ filter (λ t. not (is_none (users_of self.now t))) (keys_of (block_at self.now slot).tags)) }
    {
        let mut tags = Vec::new(self.alloc);
        for tag in self.spine.block(slot).tags().keys() {
            if !self.users(*tag).is_empty() {
                tags.push(*tag)?;
            }
        }
        Ok(tags)
    }

    // Where the item stands in a user's row that an operation is about.
    fn row_place(&self, user: User, op: &Op, hint: Option<usize>) -> Option<usize>
        requires { IsRowHint (row_of self.now user) op.now hint }
        ensures { result ≡ row_place (row_of self.now user) op.now }
    {
        self.row(user).place(op, hint)
    }

    // Where the user stands among a tag's users.
    fn tag_place(&self, tag: Tag, user: User, hint: Option<usize>) -> Option<usize>
        requires { IsHint user_cmp user_key user (users_of self.now tag) hint }
        ensures { result ≡ user_place (users_of self.now tag) user }
    {
        place_in(self.users(tag), user, hint)
    }

    // How many items are in the list of a user's row that an operation is about.
    fn row_count(&self, user: User, op: &Op) -> usize
        ensures { result ≡ row_count (row_of self.now user) op.now }
    {
        self.row(user).count(op)
    }

    // How many users a tag has.
    fn tag_count(&self, tag: Tag) -> usize
        ensures { result ≡ length (users_of self.now tag) }
    {
        self.users(tag).len()
    }

    /// Where the item stands that an operation is about. O(log n), with the right hint.
    pub(crate) fn place(&self, op: &Op, hint: Option<usize>) -> Option<usize>
        requires { IsOpHint (kept self.now) op.now hint }
        ensures { result ≡ op_place (kept self.now) op.now }
    {
        match op {
            Op::TagUse(tag, user) => self.tag_place(*tag, *user, hint),
            Op::AddOut(user, _)
            | Op::AddIn(user, _)
            | Op::DropOut(user, _)
            | Op::DropIn(user, _)
            | Op::MentionOut(user, _)
            | Op::MentionIn(user, _)
            | Op::Said(user)
            | Op::Use(user, _) => self.row_place(*user, op, hint),
        }
    }

    /// How many items are in the list that an operation is about.
    pub(crate) fn count(&self, op: &Op) -> usize
        ensures { result ≡ op_count (kept self.now) op.now }
    {
        match op {
            Op::TagUse(tag, _) => self.tag_count(*tag),
            Op::AddOut(user, _)
            | Op::AddIn(user, _)
            | Op::DropOut(user, _)
            | Op::DropIn(user, _)
            | Op::MentionOut(user, _)
            | Op::MentionIn(user, _)
            | Op::Said(user)
            | Op::Use(user, _) => self.row_count(*user, op),
        }
    }

    // Whether an operation on a user's row is known to change nothing.
    fn is_done_by_user(&self, user: User, op: &Op, at: Option<usize>) -> bool
        requires { at ≡ row_place (row_of self.now user) op.now }
        ensures { result ≡ true → (place : Place)
            → row_applied place (row_of self.now user) op.now ≡ row_of self.now user }
    {
        self.row(user).is_done(op, at)
    }

    // Whether the user is known to have used the tag.
    fn is_done_by_tag(&self, tag: Tag, user: User, at: Option<usize>) -> bool
        requires { at ≡ user_place (users_of self.now tag) user }
        ensures { result ≡ true → with_member user (users_of self.now tag) ≡ users_of self.now tag }
    {
        is_member(self.users(tag), user, at)
    }

    /// Whether an operation, whose item stands there, is known to change nothing. O(log n).
    pub(crate) fn is_done(&self, op: &Op, at: Option<usize>) -> bool
        requires { at ≡ op_place (kept self.now) op.now }
        ensures { result ≡ true → (place : Place) → done place (kept self.now) op.now ≡ kept self.now }
    {
        match op {
            Op::TagUse(tag, user) => self.is_done_by_tag(*tag, *user, at),
            Op::AddOut(user, _)
            | Op::AddIn(user, _)
            | Op::DropOut(user, _)
            | Op::DropIn(user, _)
            | Op::MentionOut(user, _)
            | Op::MentionIn(user, _)
            | Op::Said(user)
            | Op::Use(user, _) => self.is_done_by_user(*user, op, at),
        }
    }

    // Does in a user's row what an operation says.
    fn apply_to_user(
        &mut self,
        user: User,
        place: Place,
        op: &Op,
        at: Option<usize>,
    ) -> Result<(), Memory>
        requires at { at ≡ row_place (row_of self.old user) op.now }
        requires home { user_part self.old.parts user ≡ self.old.part }
        requires said { (row_applied place (row_of self.old user) op.now).said < 2 ^ 64 }
        ensures ok { OnOk result (kept self.new ≡ with_op (kept self.old) user place op.now) }
        ensures err { OnErr result (self.new ≡ self.old) }
        ensures same { (self.new.part ≡ self.old.part) × (self.new.parts ≡ self.old.parts) }
    {
        let slot = self.user_slot(user);
        self.spine.apply_to_user(slot, user, place, op, at)
    }

    // The user has used the tag.
    fn add_tag_user(&mut self, tag: Tag, user: User, at: Option<usize>) -> Result<(), Memory>
        requires at { at ≡ user_place (users_of self.old tag) user }
        requires home { tag_part self.old.parts tag ≡ self.old.part }
        ensures ok { OnOk result (kept self.new ≡ with_user (kept self.old) tag user) }
        ensures err { OnErr result (self.new ≡ self.old) }
        ensures same { (self.new.part ≡ self.old.part) × (self.new.parts ≡ self.old.parts) }
    {
        let slot = self.tag_slot(tag);
        self.spine.add_tag_user(slot, tag, user, at)
    }

    /// Does what an operation of this partition says, whose item stands there.
    pub(crate) fn apply_op(
        &mut self,
        place: Place,
        op: &Op,
        at: Option<usize>,
    ) -> Result<(), Memory>
        requires at { at ≡ op_place (kept self.old) op.now }
        requires home { op_part self.old.parts op.now ≡ self.old.part }
        requires said { (u : User) → ((done place (kept self.old) op.now).row u).said < 2 ^ 64 }
        ensures ok { OnOk result (kept self.new ≡ done place (kept self.old) op.now) }
        ensures err { OnErr result (self.new ≡ self.old) }
        ensures same { (self.new.part ≡ self.old.part) × (self.new.parts ≡ self.old.parts) }
    {
        match op {
            Op::TagUse(tag, user) => self.add_tag_user(*tag, *user, at),
            Op::AddOut(user, _)
            | Op::AddIn(user, _)
            | Op::DropOut(user, _)
            | Op::DropIn(user, _)
            | Op::MentionOut(user, _)
            | Op::MentionIn(user, _)
            | Op::Said(user)
            | Op::Use(user, _) => self.apply_to_user(*user, place, op, at),
        }
    }
}

// Appends the users of a block's rows.
fn put_owners(users: &mut Vec<User>, block: &Block) -> Result<(), Memory>
    ensures { OnOk result (users.new.items ≡ users.old.items ++ keys_of block.now.rows) }
{
    for user in block.rows().keys() {
        users.push(*user)?;
    }
    Ok(())
}

/// A clone shares each block. O(n) in the blocks.
impl Clone for Store {
    ghost is_clone = { λ store result. result ≡ store };

    fn clone(&self) -> Result<Store, AllocError> {
        Ok(Store {
            alloc: self.alloc,
            part: self.part,
            parts: self.parts,
            spine: self.spine.clone()?,
            blank: Blank::new(self.alloc),
        })
    }
}
