//! Edges between users that are numbered densely, read once.

ghost use Rattle.std.specs.Prelude.{◌≡◌, ◌<◌, ◌≤◌, ◌++◌, ◌∷◌, [], get_or, length, map, slice_range};
ghost use Rattle.std.specs.Prelude.{IfOk, OnErr, OnOk};
ghost use Rattle.kin_rules.specs.Edges.{followed, places_of, rows_of};

use crate::Index;
use kin_graph::{Halves, Steps, Users, View};
use kin_ids::{Memory, User};
use std::alloc::Global;
use std::marker::Model;
use std::sync::ledger::Ledger;

/// Rows of places, seen as a list of them: for each user, by its place, the places of the ends of its edges. The rows
/// stand one after the other in one vector.
#[derive(Drop)]
pub struct Edges {
    // where each row stops, and the next one starts
    stops: Vec<usize>,
    ends: Vec<usize>,
}

impl Model for Edges {
    ghost use Rattle.std.specs.Prelude.{ℕ, List, length};
    ghost use Rattle.kin_rules.specs.Edges.{AreStops, rows_from};

    ghost Value = { List (List ℕ) };

    ghost view = { λ a. rows_from 0 a.stops.items a.ends.items };

    ghost invariant = { λ a. AreStops 0 a.stops.items (length a.ends.items) };
}

// The places of the users at the other ends, of those that have one, after what stands there.
fn put_followed(row: &mut Vec<usize>, index: &Index, halves: &Halves) -> Result<(), Memory>
    ensures { OnOk result (row.new.items ≡ row.old.items ++ places_of index.now (map (λ h. h.other) halves.now)) }
{
    for half in halves.iter() {
        if let Some(place) = index.find(half.other) {
            row.push(place)?;
        }
    }
    Ok(())
}

// The places of users, of those that have one, after what stands there.
fn put_places(row: &mut Vec<usize>, index: &Index, users: &Users) -> Result<(), Memory>
    ensures { OnOk result (row.new.items ≡ row.old.items ++ places_of index.now users.now) }
{
    for user in users.iter() {
        if let Some(place) = index.find(*user) {
            row.push(place)?;
        }
    }
    Ok(())
}

// Where a row starts.
fn start_of(stops: &[usize], place: usize) -> usize
    requires { place < length stops.now }
    ensures { result ≡ get_or (0 ∷ stops.now) place 0 }
{
    if place == 0 { 0 } else { stops[place - 1] }
}

// What stands between two places.
fn between(ends: &[usize], start: usize, stop: usize) -> &[usize]
    requires order { start ≤ stop }
    requires inside { stop ≤ length ends.now }
    ensures { result.now ≡ slice_range ends.now start stop }
{
    &ends[start..stop]
}

impl Edges {
    /// No rows. It takes no memory.
    pub fn new(alloc: Global) -> Edges
        ensures { result ≡ [] }
    {
        Edges {
            stops: Vec::new(alloc),
            ends: Vec::new(alloc),
        }
    }

    /// How many rows there are. O(1).
    pub fn len(&self) -> usize
        ensures { result ≡ length self.now }
    {
        self.stops.len()
    }

    /// One row more, after the others. O(1) for each place of it.
    pub fn push_row(&mut self, row: &[usize]) -> Result<(), Memory>
        ensures ok { OnOk result (self.new ≡ self.old ++ row.now ∷ []) }
        ensures err { OnErr result (self.new ≡ self.old) }
    {
        self.stops.reserve(1)?;
        self.ends.extend_from_slice(row)?;
        self.stops.push_reserved(self.ends.len());
        Ok(())
    }

    /// The row at a place, with nothing in it where there is none. O(1).
    pub fn row(&self, place: usize) -> &[usize]
        ensures { result.now ≡ get_or self.now place [] }
    {
        if place >= self.stops.len() {
            return &[];
        }
        between(
            self.ends.as_slice(),
            start_of(self.stops.as_slice(), place),
            self.stops[place],
        )
    }

    /// The follow edges ever added out of each user. One look-up by hash an edge.
    pub(crate) fn follows<V: View, L: Ledger>(
        alloc: Global,
        view: &V,
        index: &Index,
        steps: &mut Steps<L>,
    ) -> Result<Edges, Memory>
        ensures { IfOk result (λ edges. edges ≡ rows_of index.now (followed (V.seen view.now))) }
    {
        let mut edges = Edges::new(alloc);
        let mut row = Vec::new(alloc);
        for user in index.as_slice() {
            row.clear();
            put_followed(&mut row, index, view.out(*user, steps))?;
            edges.push_row(row.as_slice())?;
        }
        Ok(edges)
    }

    /// The mention edges out of each user. One look-up by hash an edge.
    pub(crate) fn mentions<V: View, L: Ledger>(
        alloc: Global,
        view: &V,
        index: &Index,
        steps: &mut Steps<L>,
    ) -> Result<Edges, Memory>
        ensures { IfOk result (λ edges. edges ≡ rows_of index.now (V.seen view.now).mentions) }
    {
        let mut edges = Edges::new(alloc);
        let mut row = Vec::new(alloc);
        for user in index.as_slice() {
            row.clear();
            put_places(&mut row, index, view.mentions(*user, steps))?;
            edges.push_row(row.as_slice())?;
        }
        Ok(edges)
    }
}
