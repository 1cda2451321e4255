//! What operations touched.

ghost use Rattle.std.specs.Prelude.{◌≡◌, false, IfOk, OnOk};
ghost use Rattle.kin_ids.specs.declared.ids.User.{User};
ghost use Rattle.kin_ids.specs.Users.{has_user, same_user};
ghost use Rattle.kin_store.specs.declared.pairs.Pair.{Pair};
ghost use Rattle.kin_store.specs.declared.pairs.TagUser.{TagUser};
ghost use Rattle.kin_graph.specs.Deltas.{same_pair};
ghost use Rattle.kin_graph.specs.Touches.{has_pair, has_tag_user, pair, same_tag_user, tag_user, untouched};
ghost use Rattle.kin_graph.specs.Touches.{HasNoted, KeepsNotes, NotesOp};

use kin_ids::{Memory, Numbered, Op, Tag, User};
use kin_store::{Pair, TagUser};
use std::alloc::Global;
use std::collections::BTreeSet;
use std::marker::Model;

/// Of which halves, mentions, numbers, uses and users of tags operations were, so that only those are looked at again.
#[derive(Drop)]
pub struct Touched {
    pub(crate) out: BTreeSet<Pair>,
    pub(crate) inn: BTreeSet<Pair>,
    pub(crate) mentions: BTreeSet<Pair>,
    pub(crate) mentioners: BTreeSet<Pair>,
    pub(crate) said: BTreeSet<User>,
    pub(crate) uses: BTreeSet<TagUser>,
    pub(crate) tag_users: BTreeSet<TagUser>,
}

impl Model for Touched {
    ghost use Rattle.kin_graph.specs.Touches.{TouchedLists};

    ghost Value = { TouchedLists };

    ghost view = { λ a. record {
      out = a.out.keys;
      inn = a.inn.keys;
      mentions = a.mentions.keys;
      mentioners = a.mentioners.keys;
      said = a.said.keys;
      uses = a.uses.keys;
      tag_users = a.tag_users.keys;
    } };
}

impl Touched {
    /// Nothing was touched. It takes no memory.
    pub fn new(alloc: Global) -> Touched
        ensures { result ≡ untouched }
    {
        Touched {
            out: BTreeSet::new(alloc),
            inn: BTreeSet::new(alloc),
            mentions: BTreeSet::new(alloc),
            mentioners: BTreeSet::new(alloc),
            said: BTreeSet::new(alloc),
            uses: BTreeSet::new(alloc),
            tag_users: BTreeSet::new(alloc),
        }
    }

    /// Notes what the operations are of. At `Err` it may have noted some of it. O(log n) for each operation.
    pub fn note(&mut self, ops: &[Numbered]) -> Result<(), Memory>
        ensures kept { KeepsNotes self.old self.new }
        ensures ok { OnOk result (HasNoted ops.now self.new) }
    {
        for numbered in ops {
            self.note_op(&numbered.op)?;
        }
        Ok(())
    }

    // Notes what an operation is of.
    fn note_op(&mut self, op: &Op) -> Result<(), Memory>
        ensures kept { KeepsNotes self.old self.new }
        ensures ok { OnOk result (NotesOp op.now self.new) }
    {
        match op {
            Op::AddOut(user, other) | Op::DropOut(user, other) => {
                put_pair(&mut self.out, *user, *other)
            }
            Op::AddIn(user, other) | Op::DropIn(user, other) => {
                put_pair(&mut self.inn, *user, *other)
            }
            Op::MentionOut(user, other) => put_pair(&mut self.mentions, *user, *other),
            Op::MentionIn(user, other) => put_pair(&mut self.mentioners, *user, *other),
            Op::Said(user) => put_user(&mut self.said, *user),
            Op::Use(user, tag) => put_tag_user(&mut self.uses, *tag, *user),
            Op::TagUse(tag, user) => put_tag_user(&mut self.tag_users, *tag, *user),
        }
    }

    /// Forgets all notes.
    pub fn clear(&mut self)
        ensures { self.new ≡ untouched }
    {
        self.out.clear();
        self.inn.clear();
        self.mentions.clear();
        self.mentioners.clear();
        self.said.clear();
        self.uses.clear();
        self.tag_users.clear();
    }

    /// The same notes. O(n) for the n of them.
    pub fn copy(&self) -> Result<Touched, Memory>
        ensures { IfOk result (λ t. t ≡ self.now) }
    {
        Ok(Touched {
            out: copied_pairs(&self.out)?,
            inn: copied_pairs(&self.inn)?,
            mentions: copied_pairs(&self.mentions)?,
            mentioners: copied_pairs(&self.mentioners)?,
            said: copied_users(&self.said)?,
            uses: copied_tag_users(&self.uses)?,
            tag_users: copied_tag_users(&self.tag_users)?,
        })
    }
}

/// Notes one more.
pub(crate) fn put_pair(pairs: &mut BTreeSet<Pair>, user: User, other: User) -> Result<(), Memory>
    ensures kept { (p : Pair) → has_pair pairs.new.keys p ≡ false → has_pair pairs.old.keys p ≡ false }
    ensures ok { OnOk result ((p : Pair) → has_pair pairs.new.keys p ≡ false → same_pair (pair user other) p ≡ false) }
{
    pairs.insert(Pair { user, other })?;
    Ok(())
}

/// Notes one more.
pub(crate) fn put_user(users: &mut BTreeSet<User>, user: User) -> Result<(), Memory>
    ensures kept { (u : User) → has_user users.new.keys u ≡ false → has_user users.old.keys u ≡ false }
    ensures ok { OnOk result ((u : User) → has_user users.new.keys u ≡ false → same_user user u ≡ false) }
{
    users.insert(user)?;
    Ok(())
}

/// Notes one more.
pub(crate) fn put_tag_user(
    pairs: &mut BTreeSet<TagUser>,
    tag: Tag,
    user: User,
) -> Result<(), Memory>
    ensures kept { (p : TagUser) → has_tag_user pairs.new.keys p ≡ false → has_tag_user pairs.old.keys p ≡ false }
    ensures ok { OnOk result ((p : TagUser) → has_tag_user pairs.new.keys p ≡ false →
        same_tag_user (tag_user tag user) p ≡ false) }
{
    pairs.insert(TagUser { tag, user })?;
    Ok(())
}

fn copied_pairs(pairs: &BTreeSet<Pair>) -> Result<BTreeSet<Pair>, Memory>
    ensures { IfOk result (λ ps. ps.keys ≡ pairs.now.keys) }
{
    let pairs = pairs.clone()?;
    Ok(pairs)
}

fn copied_users(users: &BTreeSet<User>) -> Result<BTreeSet<User>, Memory>
    ensures { IfOk result (λ us. us.keys ≡ users.now.keys) }
{
    let users = users.clone()?;
    Ok(users)
}

fn copied_tag_users(tag_users: &BTreeSet<TagUser>) -> Result<BTreeSet<TagUser>, Memory>
    ensures { IfOk result (λ ps. ps.keys ≡ tag_users.now.keys) }
{
    let tag_users = tag_users.clone()?;
    Ok(tag_users)
}
