//! All values of one epoch.

ghost use Rattle.std.specs.Prelude.{◌≡◌, ◌<◌, ℕ, true, nat_lt, List, IfOk, OnOk, OnErr, length};
ghost use Rattle.std.specs.List.Sorted.{IsStrictlySortedBy};
ghost use Rattle.kin_ids.specs.declared.ids.User.{User};
ghost use Rattle.kin_ids.specs.Users.{has_user, tag_cmp, user_cmp};
ghost use Rattle.kin_ids.specs.Graph.{empty_graph};
ghost use Rattle.kin_rules.specs.declared.numbers.Num.TheVariants as num;
ghost use Rattle.kin_rules.specs.Results.{AreExposures, IsResult, close_in, expo_in, first_result, has_tag};
ghost use Rattle.kin_rules.specs.Results.{hops_in, landmarks_in, number_in, tag_users_in};
ghost use Rattle.kin_rules.specs.Spots.{IsSpot, StandsAt, WouldStandAt};
ghost use Rattle.kin_rules.specs.ResultChanges.{AddsUser, SetsClose, SetsExpo, SetsHops, SetsNumber, SetsTag};

use crate::columns::{
    Column, empty_columns, number_at, reserve_in, set_value, spot_of_user, value_at, widen_in,
};
use crate::numbers::{KCount, Num};
use crate::spots::{put_at, spot_of};
use kin_ids::{Epoch, ListOf, Memory, Tag, User};
use std::alloc::Global;
use std::marker::Model;

/// All values of one epoch, in columns over the users and over the tags.
#[derive(Drop)]
pub struct EpochResult {
    pub(crate) alloc: Global,
    pub(crate) epoch: Epoch,
    pub(crate) users: Vec<User>,
    pub(crate) ins: Vec<u64>,
    pub(crate) outs: Vec<u64>,
    pub(crate) said: Vec<u64>,
    pub(crate) ranks: Vec<u64>,
    pub(crate) tags: Vec<Tag>,
    pub(crate) tag_users: Vec<u64>,
    pub(crate) expos: Vec<ListOf<KCount>>,
    pub(crate) hops: Vec<Column>,
    pub(crate) close: Vec<Column>,
}

impl Model for EpochResult {
    ghost use Rattle.kin_rules.specs.Results.{ResultView, IsTabular};

    ghost Value = { ResultView };

    ghost use Rattle.kin_rules.specs.ResultTables.{shown};

    ghost view = { shown };

    ghost invariant = { λ a. IsTabular (shown a) };
}

/// A tag's spot among the tags. O(log n).
pub(crate) fn spot_of_tag(tags: &[Tag], t: Tag) -> Result<usize, usize>
    requires { IsStrictlySortedBy tag_cmp tags.now }
    ensures { IsSpot tag_cmp tags.now t result }
{
    spot_of(tags, &t)
}

impl EpochResult {
    /// That of the empty graph at epoch 0, with so many landmarks. It costs O(n) in the landmarks.
    pub fn new(alloc: Global, landmarks: usize) -> Result<EpochResult, Memory>
        ensures value { IfOk result (λ r. r ≡ first_result landmarks) }
        ensures empty { IfOk result (λ r. (us : List User) → length us ≡ landmarks → IsResult empty_graph us r) }
    {
        Ok(EpochResult {
            alloc,
            epoch: Epoch(0),
            users: Vec::new(alloc),
            ins: Vec::new(alloc),
            outs: Vec::new(alloc),
            said: Vec::new(alloc),
            ranks: Vec::new(alloc),
            tags: Vec::new(alloc),
            tag_users: Vec::new(alloc),
            expos: Vec::new(alloc),
            hops: empty_columns(alloc, landmarks)?,
            close: empty_columns(alloc, landmarks)?,
        })
    }

    /// The epoch.
    pub fn epoch(&self) -> Epoch
        ensures { result.0 ≡ self.now.epoch }
    {
        self.epoch
    }

    /// The users, ascending: in the result of an epoch its vertices.
    pub fn users(&self) -> &[User]
        ensures users { result.now ≡ self.now.users }
        ensures ascend { IsStrictlySortedBy user_cmp result.now }
    {
        self.users.as_slice()
    }

    /// The tags in use, ascending.
    pub fn tags(&self) -> &[Tag]
        ensures tags { result.now ≡ self.now.tags }
        ensures ascend { IsStrictlySortedBy tag_cmp result.now }
        ensures in_use { (t : List ℕ) → has_tag result.now t ≡ nat_lt 0 (tag_users_in self.now t) }
    {
        self.tags.as_slice()
    }

    /// How many follow the user: 0 where it is none of the users. Each look-up of a user or a tag costs O(log n).
    pub fn in_of(&self, u: User) -> u64
        ensures { result ≡ number_in self.now num.In u }
    {
        number_at(&self.users, &self.ins, u)
    }

    /// How many the user follows.
    pub fn out_of(&self, u: User) -> u64
        ensures { result ≡ number_in self.now num.Out u }
    {
        number_at(&self.users, &self.outs, u)
    }

    /// How many items of tweets mention the user.
    pub fn said_of(&self, u: User) -> u64
        ensures { result ≡ number_in self.now num.Said u }
    {
        number_at(&self.users, &self.said, u)
    }

    /// The user's rank.
    pub fn rank_of(&self, u: User) -> u64
        ensures { result ≡ number_in self.now num.Rank u }
    {
        number_at(&self.users, &self.ranks, u)
    }

    /// How many users have used the tag.
    pub fn users_of(&self, t: Tag) -> u64
        ensures { result ≡ tag_users_in self.now t }
    {
        match spot_of_tag(&self.tags, t) {
            Ok(at) => self.tag_users[at],
            Err(_) => 0,
        }
    }

    /// How many of the tag's users have which exposure, ascending, and none without users.
    pub fn expo_of(&self, t: Tag) -> &[KCount]
        ensures list { result.now ≡ expo_in self.now t }
        ensures ascend { AreExposures result.now }
    {
        match spot_of_tag(&self.tags, t) {
            Ok(at) => self.expos[at].as_slice(),
            Err(_) => &[],
        }
    }

    /// The hops of the user from the landmark of that number. None where there is no such landmark.
    pub fn hops_of(&self, landmark: usize, u: User) -> Option<u32>
        ensures { result ≡ hops_in self.now landmark u }
    {
        value_at(&self.users, &self.hops, landmark, u)
    }

    /// The closeness of the user from the landmark of that number. None where there is no such landmark.
    pub fn close_of(&self, landmark: usize, u: User) -> Option<u32>
        ensures { result ≡ close_in self.now landmark u }
    {
        value_at(&self.users, &self.close, landmark, u)
    }

    /// Sets the epoch, and leaves all values. It takes no memory.
    pub fn set_epoch(&mut self, k: Epoch)
        ensures { self.new ≡ record self.old { epoch = k.0 } }
    {
        self.epoch = k;
    }

    /// Makes u one of the users. It costs O(n) in the users for each landmark where u is new, else a look-up.
    pub fn add_user(&mut self, u: User) -> Result<(), Memory>
        ensures added { OnOk result (AddsUser self.old u self.new) }
        ensures err { OnErr result (self.new ≡ self.old) }
    {
        let Err(at) = spot_of_user(&self.users, u) else {
            return Ok(());
        };
        self.users.reserve(1)?;
        self.ins.reserve(1)?;
        self.outs.reserve(1)?;
        self.said.reserve(1)?;
        self.ranks.reserve(1)?;
        reserve_in(&mut self.hops)?;
        reserve_in(&mut self.close)?;
        put_at(&mut self.users, at, u);
        put_at(&mut self.ins, at, 0);
        put_at(&mut self.outs, at, 0);
        put_at(&mut self.said, at, 0);
        put_at(&mut self.ranks, at, 0);
        widen_in(&mut self.hops, at, u);
        widen_in(&mut self.close, at, u);
        Ok(())
    }

    /// Sets a number of one of the users. It costs a look-up.
    pub fn set_number(&mut self, which: Num, u: User, n: u64) -> Result<(), Memory>
        requires { has_user self.old.users u ≡ true }
        ensures set { OnOk result (SetsNumber self.old which u n self.new) }
        ensures err { OnErr result (self.new ≡ self.old) }
    {
        self.put_number(which, u, n);
        Ok(())
    }

    /// As `set_number`, without memory.
    pub fn put_number(&mut self, which: Num, u: User, n: u64)
        requires { has_user self.old.users u ≡ true }
        ensures { SetsNumber self.old which u n self.new }
    {
        let Ok(at) = spot_of_user(&self.users, u) else {
            unreachable!();
        };
        match which {
            Num::In => self.ins[at] = n,
            Num::Out => self.outs[at] = n,
            Num::Said => self.said[at] = n,
            Num::Rank => self.ranks[at] = n,
        }
    }

    /// Sets how many users a tag has. Where it has none, it is in use no longer, and its exposures go with it. It costs
    /// O(n) in the tags where the tag comes or goes, else a look-up.
    pub fn set_tag(&mut self, t: Tag, n: u64) -> Result<(), Memory>
        ensures set { OnOk result (SetsTag self.old t n self.new) }
        ensures err { OnErr result (self.new ≡ self.old) }
    {
        match spot_of_tag(&self.tags, t) {
            Ok(at) => {
                if n == 0 {
                    self.drop_tag(at, t);
                } else {
                    self.tag_users[at] = n;
                }
                Ok(())
            }
            Err(at) => {
                if n == 0 {
                    Ok(())
                } else {
                    self.add_tag(at, t, n)
                }
            }
        }
    }

    /// Sets how many users a tag in use has, without memory. It costs a look-up.
    pub fn put_tag(&mut self, t: Tag, n: u64)
        requires in_use { has_tag self.old.tags t ≡ true }
        requires some { 0 < n }
        ensures { SetsTag self.old t n self.new }
    {
        let Ok(at) = spot_of_tag(&self.tags, t) else {
            unreachable!();
        };
        self.tag_users[at] = n;
    }

    /// Sets the exposures of a tag in use. It costs a look-up and a copy of the list.
    pub fn set_expo(&mut self, t: Tag, list: &[KCount]) -> Result<(), Memory>
        requires in_use { has_tag self.old.tags t ≡ true }
        requires list { AreExposures list.now }
        ensures set { OnOk result (SetsExpo self.old t list.now self.new) }
        ensures err { OnErr result (self.new ≡ self.old) }
    {
        let Ok(at) = spot_of_tag(&self.tags, t) else {
            unreachable!();
        };
        self.expos[at] = ListOf::of(Vec::from_slice(self.alloc, list)?);
        Ok(())
    }

    /// Sets a user's hops from a landmark. It costs a look-up.
    pub fn set_hops(&mut self, landmark: usize, u: User, value: Option<u32>) -> Result<(), Memory>
        requires { landmark < landmarks_in self.old }
        ensures set { OnOk result (SetsHops self.old landmark u value self.new) }
        ensures err { OnErr result (self.new ≡ self.old) }
    {
        set_value(&self.users, &mut self.hops, landmark, u, value)?;
        Ok(())
    }

    /// Sets a user's closeness from a landmark. It costs a look-up.
    pub fn set_close(&mut self, landmark: usize, u: User, value: Option<u32>) -> Result<(), Memory>
        requires { landmark < landmarks_in self.old }
        ensures set { OnOk result (SetsClose self.old landmark u value self.new) }
        ensures err { OnErr result (self.new ≡ self.old) }
    {
        set_value(&self.users, &mut self.close, landmark, u, value)?;
        Ok(())
    }

    // A tag at that place is in use no longer.
    fn drop_tag(&mut self, at: usize, t: Tag)
        requires { StandsAt tag_cmp self.old.tags t at }
        ensures { SetsTag self.old t 0 self.new }
    {
        let _ = t;
        self.tags.remove(at);
        self.tag_users.remove(at);
        self.expos.remove(at);
    }

    // A tag is in use from here on, at that place.
    fn add_tag(&mut self, at: usize, t: Tag, n: u64) -> Result<(), Memory>
        requires spot { WouldStandAt tag_cmp self.old.tags t at }
        requires some { 0 < n }
        ensures set { OnOk result (SetsTag self.old t n self.new) }
        ensures err { OnErr result (self.new ≡ self.old) }
    {
        self.tags.reserve(1)?;
        self.tag_users.reserve(1)?;
        self.expos.reserve(1)?;
        put_at(&mut self.tags, at, t);
        put_at(&mut self.tag_users, at, n);
        put_at(&mut self.expos, at, ListOf::new(self.alloc));
        Ok(())
    }
}
