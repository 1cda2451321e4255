//! What a partition keeps of one user, in lists that versions share.

ghost use Rattle.std.specs.Prelude.{◌≡◌, ◌<◌, ◌^◌, [], true, OnOk, OnErr, not};
ghost use Rattle.kin_ids.specs.declared.stamps.Place.{Place};
ghost use Rattle.kin_store.specs.Rows.{is_apart, no_row, row_applied};
ghost use Rattle.kin_store.specs.Hints.{row_count, row_place, IsRowHint};

use crate::lists::{
    Halves, UseList, Users, add_half, drop_half, is_added, is_dropped, is_member, is_used,
    place_in, put_use, put_user,
};
use kin_ids::{Memory, Op, Place};
use std::alloc::{AllocError, Global};
use std::marker::Model;

/// The follow halves out of a user and into it, whom it mentions and who mentions it, its first uses of tags, and how
/// many items mention it.
#[derive(Drop)]
pub struct Row {
    out: Halves,
    inn: Halves,
    mentions: Users,
    mentioners: Users,
    uses: UseList,
    said: u64,
}

impl Model for Row {
    ghost use Rattle.kin_store.specs.Rows.{UserRow};

    ghost Value = { UserRow };

    ghost view = { λ a. record {
      out = a.out;
      inn = a.inn;
      mentions = a.mentions;
      mentioners = a.mentioners;
      uses = a.uses;
      said = a.said;
    } };
}

impl Row {
    /// Nothing yet. It takes no memory.
    pub(crate) fn new(alloc: Global) -> Row
        ensures { result ≡ no_row }
    {
        Row {
            out: Halves::new(alloc),
            inn: Halves::new(alloc),
            mentions: Users::new(alloc),
            mentioners: Users::new(alloc),
            uses: UseList::new(alloc),
            said: 0,
        }
    }

    /// The follow halves out of its user.
    pub fn out(&self) -> &Halves
        ensures { result.now ≡ self.now.out }
    {
        &self.out
    }

    /// The follow halves into its user.
    pub fn inn(&self) -> &Halves
        ensures { result.now ≡ self.now.inn }
    {
        &self.inn
    }

    /// The users whom its user mentions.
    pub fn mentions(&self) -> &Users
        ensures { result.now ≡ self.now.mentions }
    {
        &self.mentions
    }

    /// The users who mention its user.
    pub fn mentioners(&self) -> &Users
        ensures { result.now ≡ self.now.mentioners }
    {
        &self.mentioners
    }

    /// The first uses of tags by its user.
    pub fn uses(&self) -> &UseList
        ensures { result.now ≡ self.now.uses }
    {
        &self.uses
    }

    /// How many items mention its user, repeats included.
    pub fn said(&self) -> u64
        ensures { result ≡ self.now.said }
    {
        self.said
    }

    /// Whether its user stands in a follow edge ever added, in a mention edge or in a use.
    pub fn is_vertex(&self) -> bool
        ensures { result ≡ not (is_apart self.now) }
    {
        !(self.out.is_empty()
            && self.inn.is_empty()
            && self.mentions.is_empty()
            && self.mentioners.is_empty()
            && self.uses.is_empty())
    }

    /// Where the item stands that an operation is about. O(1), with the right hint.
    pub(crate) fn place(&self, op: &Op, hint: Option<usize>) -> Option<usize>
        requires { IsRowHint self.now op.now hint }
        ensures { result ≡ row_place self.now op.now }
    {
        match op {
            Op::AddOut(_, other) => place_in(&self.out, *other, hint),
            Op::AddIn(_, other) => place_in(&self.inn, *other, hint),
            Op::DropOut(_, other) => place_in(&self.out, *other, hint),
            Op::DropIn(_, other) => place_in(&self.inn, *other, hint),
            Op::MentionOut(_, other) => place_in(&self.mentions, *other, hint),
            Op::MentionIn(_, other) => place_in(&self.mentioners, *other, hint),
            Op::Use(_, tag) => place_in(&self.uses, *tag, hint),
            Op::Said(_) | Op::TagUse(..) => None,
        }
    }

    /// How many items are in the list that an operation is about.
    pub(crate) fn count(&self, op: &Op) -> usize
        ensures { result ≡ row_count self.now op.now }
    {
        match op {
            Op::AddOut(..) | Op::DropOut(..) => self.out.len(),
            Op::AddIn(..) | Op::DropIn(..) => self.inn.len(),
            Op::MentionOut(..) => self.mentions.len(),
            Op::MentionIn(..) => self.mentioners.len(),
            Op::Use(..) => self.uses.len(),
            Op::Said(_) | Op::TagUse(..) => 0,
        }
    }

    /// Whether an operation, whose item stands there, is known to change nothing. O(1).
    pub(crate) fn is_done(&self, op: &Op, at: Option<usize>) -> bool
        requires { at ≡ row_place self.now op.now }
        ensures { result ≡ true → (place : Place) → row_applied place self.now op.now ≡ self.now }
    {
        match op {
            Op::AddOut(_, other) => is_added(&self.out, *other, at),
            Op::AddIn(_, other) => is_added(&self.inn, *other, at),
            Op::DropOut(_, other) => is_dropped(&self.out, *other, at),
            Op::DropIn(_, other) => is_dropped(&self.inn, *other, at),
            Op::MentionOut(_, other) => is_member(&self.mentions, *other, at),
            Op::MentionIn(_, other) => is_member(&self.mentioners, *other, at),
            Op::Use(_, tag) => is_used(&self.uses, *tag, at),
            Op::Said(_) | Op::TagUse(..) => false,
        }
    }

    /// Does what an operation says of its user, whose item stands there. O(1), and a copy of what is shared and
    /// written.
    pub(crate) fn apply(&mut self, place: Place, op: &Op, at: Option<usize>) -> Result<(), Memory>
        requires at { at ≡ row_place self.old op.now }
        requires said { (row_applied place self.old op.now).said < 2 ^ 64 }
        ensures ok { OnOk result (self.new ≡ row_applied place self.old op.now) }
        ensures err { OnErr result (self.new ≡ self.old) }
    {
        match op {
            Op::AddOut(_, other) => add_half(&mut self.out, *other, place, at),
            Op::AddIn(_, other) => add_half(&mut self.inn, *other, place, at),
            Op::DropOut(_, other) => drop_half(&mut self.out, *other, at),
            Op::DropIn(_, other) => drop_half(&mut self.inn, *other, at),
            Op::MentionOut(_, other) => put_user(&mut self.mentions, *other, at),
            Op::MentionIn(_, other) => put_user(&mut self.mentioners, *other, at),
            Op::Use(_, tag) => put_use(&mut self.uses, *tag, place, at),
            Op::Said(_) => {
                self.said += 1;
                Ok(())
            }
            Op::TagUse(..) => Ok(()),
        }
    }
}

/// A clone is an equal row, which shares the lists' full chunks.
impl Clone for Row {
    ghost is_clone = { λ row result. result ≡ row };

    fn clone(&self) -> Result<Row, AllocError> {
        Ok(Row {
            out: self.out.clone()?,
            inn: self.inn.clone()?,
            mentions: self.mentions.clone()?,
            mentioners: self.mentioners.clone()?,
            uses: self.uses.clone()?,
            said: self.said,
        })
    }
}

/// A row in which nothing is, for users who have none.
#[derive(Drop)]
pub(crate) struct Blank {
    row: Row,
}

impl Model for Blank {
    ghost use Rattle.std.specs.Prelude.{◌≡◌};
    ghost use Rattle.kin_store.specs.Rows.{no_row};

    ghost Value = { Unit {0} };

    ghost view = { λ _. tt };

    ghost invariant = { λ a. a.row ≡ no_row };
}

impl Blank {
    /// One that takes no memory.
    pub(crate) fn new(alloc: Global) -> Blank {
        Blank {
            row: Row::new(alloc),
        }
    }

    /// The row.
    pub(crate) fn row(&self) -> &Row
        ensures { result.now ≡ no_row }
    {
        &self.row
    }

    /// No users.
    pub(crate) fn users(&self) -> &Users
        ensures { result.now ≡ [] }
    {
        self.row.mentions()
    }
}
