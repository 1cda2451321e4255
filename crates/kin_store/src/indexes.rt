//! Where items stand in long lists, for whoever writes a store or compares two. Versions share none of this.

ghost use Rattle.std.specs.Prelude.{◌≡◌, OnOk, OnErr};
ghost use Rattle.kin_store.specs.Pairs.{noted, pair, tag_noted, tag_user};
ghost use Rattle.kin_store.specs.Hints.{empty_index, index_hint, Covers, CoversTag, NotesOp};

use crate::pairs::{Pair, TagUser};
use kin_ids::{Memory, Op, Tag, User};
use std::alloc::{AllocError, Global};
use std::collections::BTreeMap;
use std::marker::Model;

/// The places of items past the first few of each list.
#[derive(Drop)]
pub struct Index {
    out: BTreeMap<Pair, usize>,
    inn: BTreeMap<Pair, usize>,
    mentions: BTreeMap<Pair, usize>,
    mentioners: BTreeMap<Pair, usize>,
    uses: BTreeMap<TagUser, usize>,
    users: BTreeMap<TagUser, usize>,
}

impl Model for Index {
    ghost use Rattle.kin_store.specs.Hints.{IndexView};

    ghost Value = { IndexView };

    ghost view = { λ a. record {
      out = a.out.entries;
      inn = a.inn.entries;
      mentions = a.mentions.entries;
      mentioners = a.mentioners.entries;
      uses = a.uses.entries;
      users = a.users.entries;
    } };
}

// So many items are scanned, and not noted.
const FEW: usize = 16;

impl Index {
    /// An index that knows nothing. It takes no memory.
    pub fn new(alloc: Global) -> Index
        ensures { result ≡ empty_index }
    {
        Index {
            out: BTreeMap::new(alloc),
            inn: BTreeMap::new(alloc),
            mentions: BTreeMap::new(alloc),
            mentioners: BTreeMap::new(alloc),
            uses: BTreeMap::new(alloc),
            users: BTreeMap::new(alloc),
        }
    }

    /// What is noted of the half out of a user to another one. O(log n).
    pub(crate) fn out(&self, pair: Pair) -> Option<usize>
        ensures { result ≡ noted self.now.out pair }
    {
        self.out.get(&pair).copied()
    }

    /// What is noted of the half into a user from another one. O(log n).
    pub(crate) fn inn(&self, pair: Pair) -> Option<usize>
        ensures { result ≡ noted self.now.inn pair }
    {
        self.inn.get(&pair).copied()
    }

    /// What is noted of a user whom another one mentions. O(log n).
    pub(crate) fn mentions(&self, pair: Pair) -> Option<usize>
        ensures { result ≡ noted self.now.mentions pair }
    {
        self.mentions.get(&pair).copied()
    }

    /// What is noted of a user who mentions another one. O(log n).
    pub(crate) fn mentioners(&self, pair: Pair) -> Option<usize>
        ensures { result ≡ noted self.now.mentioners pair }
    {
        self.mentioners.get(&pair).copied()
    }

    /// What is noted of a user's first use of a tag. O(log n).
    pub(crate) fn uses(&self, tag: Tag, user: User) -> Option<usize>
        ensures { result ≡ tag_noted self.now.uses (tag_user tag user) }
    {
        self.uses.get(&TagUser { tag, user }).copied()
    }

    /// What is noted of a user of a tag. O(log n).
    pub(crate) fn users(&self, tag: Tag, user: User) -> Option<usize>
        ensures { result ≡ tag_noted self.now.users (tag_user tag user) }
    {
        self.users.get(&TagUser { tag, user }).copied()
    }

    /// What is noted of the item that an operation is about. O(log n).
    pub(crate) fn hint(&self, op: &Op) -> Option<usize>
        ensures { result ≡ index_hint self.now op.now }
    {
        match op {
            Op::AddOut(user, other) => self.out(pair(*user, *other)),
            Op::AddIn(user, other) => self.inn(pair(*user, *other)),
            Op::DropOut(user, other) => self.out(pair(*user, *other)),
            Op::DropIn(user, other) => self.inn(pair(*user, *other)),
            Op::MentionOut(user, other) => self.mentions(pair(*user, *other)),
            Op::MentionIn(user, other) => self.mentioners(pair(*user, *other)),
            Op::Use(user, tag) => self.uses(*tag, *user),
            Op::TagUse(tag, user) => self.users(*tag, *user),
            Op::Said(_) => None,
        }
    }

    /// Notes the place at which an operation puts its item. O(log n).
    pub(crate) fn note(&mut self, op: &Op, place: usize) -> Result<(), Memory>
        ensures ok { OnOk result (NotesOp self.old op.now place self.new) }
        ensures err { OnErr result (self.new ≡ self.old) }
    {
        match op {
            Op::AddOut(user, other) => note_pair(&mut self.out, *user, *other, place),
            Op::AddIn(user, other) => note_pair(&mut self.inn, *user, *other, place),
            Op::MentionOut(user, other) => note_pair(&mut self.mentions, *user, *other, place),
            Op::MentionIn(user, other) => note_pair(&mut self.mentioners, *user, *other, place),
            Op::Use(user, tag) => note_tag(&mut self.uses, *tag, *user, place),
            Op::TagUse(tag, user) => note_tag(&mut self.users, *tag, *user, place),
            Op::DropOut(..) | Op::DropIn(..) | Op::Said(_) => Ok(()),
        }
    }
}

// A user with another one.
fn pair(user: User, other: User) -> Pair
    ensures { result ≡ pair user other }
{
    Pair { user, other }
}

// Notes a pair's place, past the first few.
fn note_pair(
    places: &mut BTreeMap<Pair, usize>,
    user: User,
    other: User,
    place: usize,
) -> Result<(), Memory>
    ensures ok { OnOk result (Covers places.old.entries (pair user other) place places.new.entries) }
    ensures err { OnErr result (places.new.entries ≡ places.old.entries) }
{
    if place < FEW {
        return Ok(());
    }
    places.insert(Pair { user, other }, place)?;
    Ok(())
}

// The same for a tag and a user.
fn note_tag(
    places: &mut BTreeMap<TagUser, usize>,
    tag: Tag,
    user: User,
    place: usize,
) -> Result<(), Memory>
    ensures ok { OnOk result (CoversTag places.old.entries (tag_user tag user) place places.new.entries) }
    ensures err { OnErr result (places.new.entries ≡ places.old.entries) }
{
    if place < FEW {
        return Ok(());
    }
    places.insert(TagUser { tag, user }, place)?;
    Ok(())
}

/// A clone is an equal index. O(n).
impl Clone for Index {
    ghost is_clone = { λ index result. result ≡ index };

    fn clone(&self) -> Result<Index, AllocError> {
        Ok(Index {
            out: self.out.clone()?,
            inn: self.inn.clone()?,
            mentions: self.mentions.clone()?,
            mentioners: self.mentioners.clone()?,
            uses: self.uses.clone()?,
            users: self.users.clone()?,
        })
    }
}
