//! Values that are offered along edges by rounds, one a cost. Who took a value stands in the list of its cost until
//! its round comes; since an edge adds at most 3, three lists serve.

ghost use Rattle.std.specs.Prelude.{◌≡◌, ◌*◌, ◌<◌, ◌≤◌, ◌^◌, List, None, length, replicate};
ghost use Rattle.std.specs.Prelude.{IfOk, IfSome, OnOk};
ghost use Rattle.kin_ids.specs.declared.ids.User.{User};
ghost use Rattle.kin_ids.specs.Graph.{Graph};
ghost use Rattle.kin_rules.specs.Costs.{least_cost};
ghost use Rattle.kin_rules.specs.Edges.{AreEdgesOf};
ghost use Rattle.kin_rules.specs.Going.{Going, value_of};
ghost use Rattle.kin_rules.specs.Nets.{net_of, net_on};
ghost use Rattle.kin_rules.specs.Rounds.{AreAbove, blank_tally, exceeds, is_quiet, listed, offered, offered_all};
ghost use Rattle.kin_rules.specs.Rounds.{pushed, round, shifted, turned, turned_all};

use crate::edges::Edges;
use crate::{EdgeKind, PushRule};
use kin_ids::Memory;
use std::alloc::Global;
use std::marker::Model;
use std::mem;

/// What edges of each kind offer in the round of a cost. None where the rule doesn't use edges of the kind.
#[derive(Clone, Copy)]
pub(crate) struct Offers {
    pub(crate) cost: u32,
    pub(crate) follow: Option<u32>,
    pub(crate) mention: Option<u32>,
}

/// The values of users by place, and the places of those who have yet to offer theirs.
#[derive(Drop)]
pub(crate) struct Walk {
    values: Vec<Option<u32>>,
    one: Vec<usize>,
    two: Vec<usize>,
    three: Vec<usize>,
}

impl Model for Walk {
    ghost use Rattle.kin_rules.specs.Rounds.{Tally};

    ghost Value = { Tally };

    ghost view = { λ a. record {
      values = a.values.items;
      one = a.one.items;
      two = a.two.items;
      three = a.three.items;
    } };
}

// Whether an offer is below a value.
fn is_below(offer: u32, value: Option<u32>) -> bool
    ensures { result ≡ exceeds value offer }
{
    match value {
        Some(kept) => offer < kept,
        None => true,
    }
}

// So many times no value.
fn no_values(alloc: Global, n: usize) -> Result<Vec<Option<u32>>, Memory>
    ensures { IfOk result (λ values. values.items ≡ replicate n None) }
{
    let mut values = Vec::with_capacity(alloc, n)?;
    for _ in 0..n {
        values.push(None)?;
    }
    Ok(values)
}

impl Walk {
    /// Nobody has a value.
    pub(crate) fn new(alloc: Global, n: usize) -> Result<Walk, Memory>
        ensures { IfOk result (λ t. t ≡ blank_tally n) }
    {
        Ok(Walk {
            values: no_values(alloc, n)?,
            one: Vec::new(alloc),
            two: Vec::new(alloc),
            three: Vec::new(alloc),
        })
    }

    // The place is listed.
    fn list(&mut self, ahead: u32, place: usize) -> Result<(), Memory>
        ensures { OnOk result (self.new ≡ listed ahead place self.old) }
    {
        if ahead == 0 {
            self.one.push(place)?;
        } else if ahead == 1 {
            self.two.push(place)?;
        } else {
            self.three.push(place)?;
        }
        Ok(())
    }

    /// The user at a place takes the offer where its value falls by it.
    pub(crate) fn offer(&mut self, ahead: u32, value: u32, place: usize) -> Result<(), Memory>
        ensures { OnOk result (self.new ≡ offered ahead value place self.old) }
    {
        if place >= self.values.len() || !is_below(value, self.values[place]) {
            return Ok(());
        }
        self.values[place] = Some(value);
        self.list(ahead, place)
    }

    fn offer_all(&mut self, ahead: u32, value: u32, places: &[usize]) -> Result<(), Memory>
        ensures { OnOk result (self.new ≡ offered_all ahead value places.now self.old) }
    {
        for place in places {
            self.offer(ahead, value, *place)?;
        }
        Ok(())
    }

    // An offer of the round of a cost to users at places.
    fn push(&mut self, cost: u32, offer: Option<u32>, places: &[usize]) -> Result<(), Memory>
        requires { IfSome offer (λ m. cost < m) }
        ensures { OnOk result (self.new ≡ pushed cost offer places.now self.old) }
    {
        match offer {
            Some(value) => self.offer_all(value - (cost + 1), value, places),
            None => Ok(()),
        }
    }

    // Offers along all edges out of the user at a place, where its cost is still the round's.
    fn turn(
        &mut self,
        follows: &Edges,
        mentions: &Edges,
        offers: Offers,
        place: usize,
    ) -> Result<(), Memory>
        requires { AreAbove offers }
        ensures { OnOk result (self.new ≡ turned follows.now mentions.now offers place self.old) }
    {
        if place >= self.values.len() || self.values[place] != Some(offers.cost) {
            return Ok(());
        }
        self.push(offers.cost, offers.follow, follows.row(place))?;
        self.push(offers.cost, offers.mention, mentions.row(place))
    }

    // A turn of each of these.
    fn turn_all(
        &mut self,
        follows: &Edges,
        mentions: &Edges,
        offers: Offers,
        places: &[usize],
    ) -> Result<(), Memory>
        requires { AreAbove offers }
        ensures { OnOk result (self.new ≡ turned_all follows.now mentions.now offers places.now self.old) }
    {
        for place in places {
            self.turn(follows, mentions, offers, *place)?;
        }
        Ok(())
    }

    // The lists move up by one. Those of the first are handed out, in a vector that is used again.
    fn shift(&mut self, first: &mut Vec<usize>)
        ensures first { first.new.items ≡ self.old.one }
        ensures left { self.new ≡ shifted self.old }
    {
        first.clear();
        mem::swap(first, &mut self.one);
        mem::swap(&mut self.one, &mut self.two);
        mem::swap(&mut self.two, &mut self.three);
    }

    // All who have the round's cost offer it.
    fn round(
        &mut self,
        follows: &Edges,
        mentions: &Edges,
        offers: Offers,
        first: &mut Vec<usize>,
    ) -> Result<(), Memory>
        requires { AreAbove offers }
        ensures { OnOk result (self.new ≡ round follows.now mentions.now offers self.old) }
    {
        self.shift(first);
        self.turn_all(follows, mentions, offers, first.as_slice())
    }

    // Whether nobody has yet to offer.
    fn is_quiet(&self) -> bool
        ensures { result ≡ is_quiet self.now }
    {
        self.one.is_empty() && self.two.is_empty() && self.three.is_empty()
    }

    /// Rounds of the costs below the limit, while somebody has yet to offer. The edges out of each user are read
    /// once.
    pub(crate) fn run<R: PushRule>(
        &mut self,
        alloc: Global,
        follows: &Edges,
        mentions: &Edges,
        rule: &R,
        limit: u32,
    ) -> Result<(), Memory>
        requires small { limit ≤ 2 ^ 30 }
        ensures length { OnOk result (length self.new.values ≡ length self.old.values) }
        ensures least { OnOk result ((g : Graph) (us : List User) → AreEdgesOf g us follows.now mentions.now →
            limit ≡ 3 * length us → Going (net_on us (net_of (R.seen rule.now) g)) us 0 self.old →
            (u : User) → value_of us self.new u ≡ least_cost (net_on us (net_of (R.seen rule.now) g)) u) }
    {
        let mut first = Vec::new(alloc);
        for cost in 0..limit {
            if self.is_quiet() {
                return Ok(());
            }
            let offers = Offers {
                cost,
                follow: rule.along(EdgeKind::Follow, cost),
                mention: rule.along(EdgeKind::Mention, cost),
            };
            self.round(follows, mentions, offers, &mut first)?;
        }
        Ok(())
    }

    /// The values by place. It takes no memory.
    pub(crate) fn into_values(self) -> Vec<Option<u32>>
        ensures { result.items ≡ self.values }
    {
        self.values
    }
}
