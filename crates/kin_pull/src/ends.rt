//! The places of neighbours, each looked up once.

ghost use Rattle.std.specs.Prelude.{◌≡◌, ◌==◌, ◌+◌, ◌<◌, ◌||◌, ℕ, true, Some, None, IfOk, IfSome, OnErr, OnOk, is_some};
ghost use Rattle.std.specs.Prelude.{length, slice_index_or, slice_set};
ghost use Rattle.std.specs.List.Sorted.{IsStrictlySortedBy};
ghost use Rattle.kin_ids.specs.declared.ids.User.{User};
ghost use Rattle.kin_ids.specs.Users.{has_user, user_cmp};
ghost use Rattle.kin_rules.specs.Edges.{places_of};
ghost use Rattle.kin_rules.specs.LayerTables.{neighbours_seen};
ghost use Rattle.kin_rules.specs.Places.{place};
ghost use Rattle.kin_pull.specs.Passes.{AreRead, read_of, was_read};

use crate::places::{ends, halves_on};
use kin_graph::{Steps, View};
use kin_ids::{Memory, User};
use kin_rules::{Edges, Side};
use std::alloc::Global;
use std::marker::Model;
use std::sync::ledger::Ledger;

/// For each user at its place, the places of its neighbours on a side, where they were looked up.
#[derive(Drop)]
pub(crate) struct Ends {
    // of each user that was looked up, which of the rows is its
    numbers: Vec<Option<usize>>,
    rows: Edges,
}

impl Model for Ends {
    ghost use Rattle.std.specs.Prelude.{◌<◌, ℕ, List, [], Option, None, IfSome, length, map, slice_index_or};
    ghost use Rattle.std.specs.Option.{option_map};

    ghost Value = { List (Option (List ℕ)) };

    ghost view = { λ a. map (option_map (λ k. slice_index_or a.rows k [])) a.numbers.items };

    ghost invariant = { λ a. (p : ℕ) → IfSome (slice_index_or a.numbers.items p None) (λ k. k < length a.rows) };
}

impl Ends {
    /// None of so many users. O(n).
    pub(crate) fn none(alloc: Global, n: usize) -> Result<Ends, Memory>
        ensures long { IfOk result (λ e. length e ≡ n) }
        ensures none { IfOk result (λ e. (p : ℕ) → slice_index_or e p None ≡ None) }
    {
        Ok(Ends {
            numbers: no_cells(alloc, n)?,
            rows: Edges::new(alloc),
        })
    }

    // Whether they were looked up of the user at a place.
    fn has(&self, i: usize) -> bool
        requires { i < length self.now }
        ensures { result ≡ is_some (slice_index_or self.now i None) }
    {
        self.numbers[i].is_some()
    }

    // Keeps those of the user at a place.
    fn put(&mut self, i: usize, row: &[usize]) -> Result<(), Memory>
        requires { i < length self.old }
        ensures ok { OnOk result (self.new ≡ slice_set self.old i (Some row.now)) }
        ensures err { OnErr result (self.new ≡ self.old) }
    {
        let number = self.rows.len();
        self.rows.push_row(row)?;
        self.numbers[i] = Some(number);
        Ok(())
    }

    /// Those of the user at a place. O(1).
    pub(crate) fn row(&self, i: usize) -> &[usize]
        requires { i < length self.now }
        ensures { IfSome (slice_index_or self.now i None) (λ row. result.now ≡ row) }
    {
        match self.numbers[i] {
            Some(number) => self.rows.row(number),
            None => &[],
        }
    }

    /// Reads the edges of the user at a place and looks the places of its neighbours up, where that wasn't done before.
    pub(crate) fn read<V: View, L: Ledger>(
        &mut self,
        alloc: Global,
        users: &[User],
        view: &V,
        side: Side,
        i: usize,
        user: User,
        steps: &mut Steps<L>,
    ) -> Result<(), Memory>
        requires ascend { IsStrictlySortedBy user_cmp users.now }
        requires within { i < length users.now }
        requires at { place users.now user ≡ i }
        requires read { AreRead side (V.seen view.now) users.now self.old }
        ensures read { AreRead side (V.seen view.now) users.now self.new }
        ensures there { OnOk result (slice_index_or self.new i None
            ≡ Some (places_of users.now (neighbours_seen side (V.seen view.now) user))) }
        ensures was { OnOk result ((x : User) → has_user users.now x ≡ true
            → was_read users.now self.new x ≡ (was_read users.now self.old x || place users.now x == i)) }
        ensures reads { OnOk result (steps.new + read_of side (V.seen view.now) users.now self.old
            ≡ steps.old + read_of side (V.seen view.now) users.now self.new) }
    {
        if self.has(i) {
            return Ok(());
        }
        let halves = halves_on(view, side, user, steps);
        let row = ends(alloc, users, halves)?;
        self.put(i, row.as_slice())?;
        Ok(())
    }
}

// Nothing at any of so many places.
fn no_cells<X: Drop>(alloc: Global, n: usize) -> Result<Vec<Option<X>>, Memory>
    ensures long { IfOk result (λ cells. length cells.items ≡ n) }
    ensures none { IfOk result (λ cells. (p : ℕ) → slice_index_or cells.items p None ≡ None) }
{
    let mut cells = Vec::with_capacity(alloc, n)?;
    for i in 0..n {
        let _ = i;
        cells.push(None)?;
    }
    Ok(cells)
}
