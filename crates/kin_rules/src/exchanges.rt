//! Columns of an epoch that are handed out, made wider beforehand, and taken over from another result.

ghost use Rattle.std.specs.Prelude.{◌≡◌, ◌<◌, ℕ, true, List, [], All, IfOk, length, if◌then◌else◌};
ghost use Rattle.std.specs.List.Sorted.{IsStrictlySortedBy};
ghost use Rattle.kin_ids.specs.declared.ids.User.{User};
ghost use Rattle.kin_ids.specs.Users.{has_user, tag_cmp, user_cmp};
ghost use Rattle.kin_rules.specs.Columns.{AreOf, columns_of};
ghost use Rattle.kin_rules.specs.Results.{expo_in, has_tag};
ghost use Rattle.kin_rules.specs.ResultChanges.{IsWider};
ghost use Rattle.kin_rules.specs.Scratches.{AreLists};

use crate::columns::Walks;
use crate::numbers::KCount;
use crate::results::EpochResult;
use crate::widenings::{columns_by, lists_of, numbers_by, places_of};
use kin_ids::{ListOf, Memory, Tag, User};
use std::mem::replace;

impl EpochResult {
    /// Hands out the columns of walks, and is without landmarks from here on. It takes no memory.
    pub fn take_walks(&mut self) -> Walks
        ensures hops { columns_of result.hops.items ≡ self.old.hops }
        ensures close { columns_of result.close.items ≡ self.old.close }
        ensures rest { self.new ≡ record self.old { hops = []; close = [] } }
        ensures fit { AreOf (length self.old.users) self.old.hops × AreOf (length self.old.users) self.old.close }
        ensures landmarks { length self.old.close ≡ length self.old.hops }
    {
        Walks {
            hops: replace(&mut self.hops, Vec::new(self.alloc)),
            close: replace(&mut self.close, Vec::new(self.alloc)),
        }
    }

    /// Takes columns of walks in place of its own. It takes no memory.
    pub fn put_walks(&mut self, walks: Walks)
        requires hops { AreOf (length self.old.users) (columns_of walks.hops.items) }
        requires close { AreOf (length self.old.users) (columns_of walks.close.items) }
        requires landmarks { length walks.close.items ≡ length walks.hops.items }
        ensures { self.new ≡ record self.old { hops = columns_of walks.hops.items; close = columns_of walks.close.items } }
    {
        self.hops = walks.hops;
        self.close = walks.close;
    }

    /// The user columns over more users, where new ones have the number 0 and what the others had: room for `widen`.
    /// O(n) for each column, and a look-up of each new user.
    pub fn wider(&self, users: Vec<User>) -> Result<EpochResult, Memory>
        requires ascend { IsStrictlySortedBy user_cmp users.items }
        requires all { (u : User) → has_user self.now.users u ≡ true → has_user users.items u ≡ true }
        ensures { IfOk result (IsWider self.now users.items) }
    {
        let old = self.users.as_slice();
        let new = users.as_slice();
        let places = places_of(self.alloc, old, new)?;
        let at = places.as_slice();
        Ok(EpochResult {
            alloc: self.alloc,
            epoch: self.epoch,
            ins: numbers_by(self.alloc, self.ins.as_slice(), at)?,
            outs: numbers_by(self.alloc, self.outs.as_slice(), at)?,
            said: numbers_by(self.alloc, self.said.as_slice(), at)?,
            ranks: numbers_by(self.alloc, self.ranks.as_slice(), at)?,
            tags: Vec::new(self.alloc),
            tag_users: Vec::new(self.alloc),
            expos: Vec::new(self.alloc),
            hops: columns_by(self.alloc, self.hops.as_slice(), old, new, at)?,
            close: columns_by(self.alloc, self.close.as_slice(), old, new, at)?,
            users,
        })
    }

    /// Takes the user columns of another result. No value of a tag changes. It takes no memory.
    pub fn widen(&mut self, wide: EpochResult)
        ensures { self.new ≡ record self.old {
          users = wide.users;
          ins = wide.ins;
          outs = wide.outs;
          said = wide.said;
          ranks = wide.ranks;
          hops = wide.hops;
          close = wide.close;
        } }
    {
        self.users = wide.users;
        self.ins = wide.ins;
        self.outs = wide.outs;
        self.said = wide.said;
        self.ranks = wide.ranks;
        self.hops = wide.hops;
        self.close = wide.close;
    }

    /// The tag columns over these tags with these numbers of users; exposures are copied, a new tag has none: room for
    /// `retag`. A look-up of each tag, and a copy of its exposures.
    pub fn tagged(&self, tags: Vec<Tag>, numbers: Vec<u64>) -> Result<EpochResult, Memory>
        requires ascend { IsStrictlySortedBy tag_cmp tags.items }
        requires numbers { length numbers.items ≡ length tags.items }
        requires some { All (λ n. 0 < n) numbers.items }
        ensures tags { IfOk result (λ r. (r.tags ≡ tags.items) × (r.tag_users ≡ numbers.items)) }
        ensures expos { IfOk result (λ r. (t : List ℕ) → expo_in r t ≡ (if has_tag tags.items t then expo_in self.now t else [])) }
    {
        let expos = lists_of(
            self.alloc,
            self.tags.as_slice(),
            self.expos.as_slice(),
            tags.as_slice(),
        )?;
        Ok(EpochResult {
            alloc: self.alloc,
            epoch: self.epoch,
            users: Vec::new(self.alloc),
            ins: Vec::new(self.alloc),
            outs: Vec::new(self.alloc),
            said: Vec::new(self.alloc),
            ranks: Vec::new(self.alloc),
            tags,
            tag_users: numbers,
            expos,
            hops: Vec::new(self.alloc),
            close: Vec::new(self.alloc),
        })
    }

    /// Takes the tag columns of another result. It takes no memory.
    pub fn retag(&mut self, other: EpochResult)
        ensures { self.new ≡ record self.old { tags = other.tags; tag_users = other.tag_users; expos = other.expos } }
    {
        self.tags = other.tags;
        self.tag_users = other.tag_users;
        self.expos = other.expos;
    }

    /// Takes these ranks of the users, in their order. It takes no memory, and costs O(n).
    pub fn put_ranks(&mut self, ranks: &[u64])
        requires { length ranks.now ≡ length self.old.users }
        ensures { self.new ≡ record self.old { ranks = ranks.now } }
    {
        self.ranks.copy_from_slice(ranks);
    }

    /// Takes these exposures of the tags in use, in their order. It takes no memory.
    pub fn put_exposures(&mut self, lists: Vec<ListOf<KCount>>)
        requires { AreLists self.old.tags lists.items }
        ensures { self.new ≡ record self.old { expos = lists.items } }
    {
        self.expos = lists;
    }
}
