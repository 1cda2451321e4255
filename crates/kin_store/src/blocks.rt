//! Some of a partition's users and tags.

ghost use Rattle.std.specs.Prelude.{◌≡◌, ◌<◌, ◌^◌, IfOk, OnOk, OnErr, [], unwrap_or};
ghost use Rattle.std.specs.Option.{option_copied};
ghost use Rattle.kin_store.specs.Rows.{row_applied, no_row};
ghost use Rattle.kin_store.specs.Changes.{kept_in, with_op, with_user};
ghost use Rattle.kin_store.specs.Lists.{user_place};
ghost use Rattle.kin_store.specs.Hints.{row_place};
ghost use Rattle.kin_store.specs.Blocks.{empty_block, row_in, users_in};

use crate::lists::{Users, put_user};
use crate::rows::Row;
use crate::vertices::{TagUsers, Vertex};
use kin_ids::{Memory, Op, Place, Tag, User};
use std::alloc::{AllocError, Global};
use std::collections::BTreeMap;
use std::marker::Model;

/// The rows of some users and the users of some tags, each shared by versions.
#[derive(Drop)]
pub(crate) struct Block {
    alloc: Global,
    rows: BTreeMap<User, Vertex>,
    tags: BTreeMap<Tag, TagUsers>,
}

impl Model for Block {
    ghost use Rattle.kin_store.specs.Blocks.{BlockState};

    ghost Value = { BlockState };

    ghost view = { λ a. record { rows = a.rows.entries; tags = a.tags.entries } };
}

impl Block {
    /// Nothing yet. It takes no memory.
    pub(crate) fn new(alloc: Global) -> Block
        ensures { result ≡ empty_block }
    {
        Block {
            alloc,
            rows: BTreeMap::new(alloc),
            tags: BTreeMap::new(alloc),
        }
    }

    /// The rows.
    pub(crate) fn rows(&self) -> &BTreeMap<User, Vertex>
        ensures { result.now.entries ≡ self.now.rows }
    {
        &self.rows
    }

    /// The users of tags.
    pub(crate) fn tags(&self) -> &BTreeMap<Tag, TagUsers>
        ensures { result.now.entries ≡ self.now.tags }
    {
        &self.tags
    }

    /// The row of a user, where there is one.
    pub(crate) fn row(&self, user: User) -> Option<&Row>
        ensures { unwrap_or (option_copied result) no_row ≡ row_in self.now user }
    {
        match self.rows.get(&user) {
            Some(vertex) => Some(vertex.row()),
            None => None,
        }
    }

    /// The users of a tag, where there are any.
    pub(crate) fn users(&self, tag: Tag) -> Option<&Users>
        ensures { unwrap_or (option_copied result) [] ≡ users_in self.now tag }
    {
        match self.tags.get(&tag) {
            Some(users) => Some(users.users()),
            None => None,
        }
    }

    /// Does in a user's row what an operation says. O(log n), and a copy of the row where it is shared.
    pub(crate) fn apply_to_user(
        &mut self,
        user: User,
        place: Place,
        op: &Op,
        at: Option<usize>,
    ) -> Result<(), Memory>
        requires at { at ≡ row_place (row_in self.old user) op.now }
        requires said { (row_applied place (row_in self.old user) op.now).said < 2 ^ 64 }
        ensures err { OnErr result (self.new ≡ self.old) }
        ensures ok { OnOk result (kept_in self.new ≡ with_op (kept_in self.old) user place op.now) }
    {
        if let Some(vertex) = self.rows.get_mut(&user) {
            return vertex.apply(place, op, at);
        }
        let mut row = Row::new(self.alloc);
        row.apply(place, op, at)?;
        self.rows.insert(user, Vertex::new(self.alloc, row)?)?;
        Ok(())
    }

    /// The user has used the tag.
    pub(crate) fn add_tag_user(
        &mut self,
        tag: Tag,
        user: User,
        at: Option<usize>,
    ) -> Result<(), Memory>
        requires { at ≡ user_place (users_in self.old tag) user }
        ensures err { OnErr result (self.new ≡ self.old) }
        ensures ok { OnOk result (kept_in self.new ≡ with_user (kept_in self.old) tag user) }
    {
        if let Some(users) = self.tags.get_mut(&tag) {
            return users.put(user, at);
        }
        let mut users = Users::new(self.alloc);
        put_user(&mut users, user, at)?;
        self.tags.insert(tag, TagUsers::new(self.alloc, users)?)?;
        Ok(())
    }
}

/// A clone shares each row. O(n) in the rows and tags.
impl Clone for Block {
    ghost is_clone = { λ block result. result ≡ block };

    fn clone(&self) -> Result<Block, AllocError> {
        Ok(Block {
            alloc: self.alloc,
            rows: self.rows.clone()?,
            tags: self.tags.clone()?,
        })
    }
}
