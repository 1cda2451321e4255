//! Counts by themselves, in tables.

ghost use Rattle.std.specs.Prelude.{◌≡◌, ◌≤◌, OnErr, OnOk, IsOk};
ghost use Rattle.kin_changes.specs.Views.{empty_view};
ghost use Rattle.kin_counts.specs.Tallies.{AreTalliesOf, HasSameTallies, TalliesOn, items_in, kept, kept_tag};

use crate::items::items_of;
use crate::sides::Side;
use crate::tables::{lower_all, number_at, raise_all, raise_all_said, raise_all_tags};
use kin_graph::Delta;
use kin_ids::{Memory, Tag, User};
use std::alloc::Global;
use std::collections::HashMap;
use std::marker::Model;

/// How many follow each user and how many it follows, how many items mention it, and how many users each tag has, at
/// some epoch.
#[derive(Drop)]
pub struct Counts {
    ins: HashMap<u32, u64>,
    outs: HashMap<u32, u64>,
    said: HashMap<u32, u64>,
    tag_users: HashMap<Tag, u64>,
}

impl Model for Counts {
    ghost use Rattle.std.specs.Prelude.{min};
    ghost use Rattle.std.specs.HashMap.{spare};
    ghost use Rattle.kin_counts.specs.Tallies.{TallyView};

    ghost Value = { TallyView };

    ghost view = { λ a. record {
      ins = a.ins.entries;
      outs = a.outs.entries;
      said = a.said.entries;
      tag_users = a.tag_users.entries;
      spare = min (min (spare a.ins) (spare a.outs)) (min (spare a.said) (spare a.tag_users));
    } };
}

impl Counts {
    /// Those of a graph with nothing. It takes no memory.
    pub fn new(alloc: Global) -> Counts
        ensures { AreTalliesOf empty_view result }
    {
        Counts {
            ins: HashMap::new(alloc),
            outs: HashMap::new(alloc),
            said: HashMap::new(alloc),
            tag_users: HashMap::new(alloc),
        }
    }

    /// Counts what the deltas of an epoch tell, one of each partition. A look-up for each item. After `Memory` no count
    /// has changed.
    pub fn add(&mut self, deltas: &[Delta]) -> Result<(), Memory>
        ensures counts { OnOk result (TalliesOn deltas.now self.old self.new) }
        ensures err { OnErr result (HasSameTallies self.old self.new) }
        ensures room { items_in deltas.now ≤ self.old.spare → IsOk result }
    {
        self.reserve(deltas)?;
        lower_all(&mut self.ins, Side::In, deltas);
        lower_all(&mut self.outs, Side::Out, deltas);
        raise_all(&mut self.ins, Side::In, deltas);
        raise_all(&mut self.outs, Side::Out, deltas);
        raise_all_said(&mut self.said, deltas);
        raise_all_tags(&mut self.tag_users, deltas);
        Ok(())
    }

    /// Makes room for as many items as these deltas have, and changes no count.
    pub fn reserve(&mut self, deltas: &[Delta]) -> Result<(), Memory>
        ensures same { HasSameTallies self.old self.new }
        ensures spare { OnOk result (items_in deltas.now ≤ self.new.spare) }
        ensures room { items_in deltas.now ≤ self.old.spare → IsOk result }
    {
        let Some(items) = items_of(deltas) else {
            // No table has room for 2^64 items.
            let _ = self.ins.capacity();
            return Err(Memory);
        };
        self.ins.reserve(items)?;
        self.outs.reserve(items)?;
        self.said.reserve(items)?;
        self.tag_users.reserve(items)?;
        Ok(())
    }

    /// How many follow the user. Each call is one look-up by hash.
    pub fn in_of(&self, u: User) -> u64
        ensures { result ≡ kept self.now.ins u }
    {
        number_at(&self.ins, u.0)
    }

    /// How many the user follows.
    pub fn out_of(&self, u: User) -> u64
        ensures { result ≡ kept self.now.outs u }
    {
        number_at(&self.outs, u.0)
    }

    /// How many items mention the user.
    pub fn said_of(&self, u: User) -> u64
        ensures { result ≡ kept self.now.said u }
    {
        number_at(&self.said, u.0)
    }

    /// How many users have used the tag.
    pub fn users_of(&self, t: Tag) -> u64
        ensures { result ≡ kept_tag self.now.tag_users t }
    {
        number_at(&self.tag_users, t)
    }
}
