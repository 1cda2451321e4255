//! What versions share of one user.

ghost use Rattle.std.specs.Prelude.{◌≡◌, ◌<◌, ◌^◌, IfOk, OnOk, OnErr};
ghost use Rattle.kin_store.specs.Rows.{row_applied};
ghost use Rattle.kin_ids.specs.Parts.{with_member};
ghost use Rattle.kin_store.specs.Lists.{user_place};
ghost use Rattle.kin_store.specs.Hints.{row_place};

use crate::lists::{Users, put_user};
use crate::rows::Row;
use kin_ids::{Memory, Op, Place, User};
use std::alloc::{AllocError, Global};
use std::marker::Model;
use std::sync::Arc;

/// A user's row. Versions share it, and it is copied when it is written while it is shared.
#[derive(Drop)]
pub(crate) struct Vertex {
    row: Arc<Row, Global>,
}

impl Model for Vertex {
    ghost use Rattle.std.specs.Arc.{arc_value};
    ghost use Rattle.kin_store.specs.Rows.{UserRow};

    ghost Value = { UserRow };

    ghost view = { λ a. arc_value a.row };
}

impl Vertex {
    /// This row, not shared yet.
    pub(crate) fn new(alloc: Global, row: Row) -> Result<Vertex, Memory>
        ensures { IfOk result (λ v. v ≡ row) }
    {
        Ok(Vertex {
            row: Arc::new(alloc, row)?,
        })
    }

    /// The row.
    pub(crate) fn row(&self) -> &Row
        ensures { result.now ≡ self.now }
    {
        &self.row
    }

    /// Does what an operation says of its user.
    pub(crate) fn apply(&mut self, place: Place, op: &Op, at: Option<usize>) -> Result<(), Memory>
        requires at { at ≡ row_place self.old op.now }
        requires said { (row_applied place self.old op.now).said < 2 ^ 64 }
        ensures ok { OnOk result (self.new ≡ row_applied place self.old op.now) }
        ensures err { OnErr result (self.new ≡ self.old) }
    {
        let row = Arc::make_mut(&mut self.row)?;
        row.apply(place, op, at)
    }
}

/// A clone shares the row. O(1).
impl Clone for Vertex {
    ghost is_clone = { λ vertex result. result ≡ vertex };

    fn clone(&self) -> Result<Vertex, AllocError> {
        Ok(Vertex {
            row: self.row.clone()?,
        })
    }
}

/// The users of a tag. Versions share them.
#[derive(Drop)]
pub(crate) struct TagUsers {
    users: Arc<Users, Global>,
}

impl Model for TagUsers {
    ghost use Rattle.std.specs.Arc.{arc_value};
    ghost use Rattle.std.specs.Prelude.{List};
    ghost use Rattle.kin_ids.specs.declared.ids.User.{User};

    ghost Value = { List User };

    ghost view = { λ a. arc_value a.users };
}

impl TagUsers {
    /// These users, not shared yet.
    pub(crate) fn new(alloc: Global, users: Users) -> Result<TagUsers, Memory>
        ensures { IfOk result (λ v. v ≡ users) }
    {
        Ok(TagUsers {
            users: Arc::new(alloc, users)?,
        })
    }

    /// The users.
    pub(crate) fn users(&self) -> &Users
        ensures { result.now ≡ self.now }
    {
        &self.users
    }

    /// One more user, where it isn't there yet.
    pub(crate) fn put(&mut self, user: User, at: Option<usize>) -> Result<(), Memory>
        requires { at ≡ user_place self.old user }
        ensures ok { OnOk result (self.new ≡ with_member user self.old) }
        ensures err { OnErr result (self.new ≡ self.old) }
    {
        let users = Arc::make_mut(&mut self.users)?;
        put_user(users, user, at)
    }
}

/// A clone shares the users. O(1).
impl Clone for TagUsers {
    ghost is_clone = { λ users result. result ≡ users };

    fn clone(&self) -> Result<TagUsers, AllocError> {
        Ok(TagUsers {
            users: self.users.clone()?,
        })
    }
}
