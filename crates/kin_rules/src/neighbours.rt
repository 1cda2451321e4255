//! What rules of layers read of a view, once: what is known of each user, and the places of its neighbours.

ghost use Rattle.std.specs.Prelude.{◌≡◌, ◌++◌, ◌∷◌, [], IfOk, OnOk, count_by, map};
ghost use Rattle.kin_rules.specs.Edges.{places_of, rows_of};
ghost use Rattle.kin_rules.specs.LayerTables.{facts_seen, halves_on, neighbours_seen, present_ends};

use crate::Index;
use crate::edges::Edges;
use crate::pull_rules::{Facts, Side};
use kin_graph::{Halves, Steps, Uses, View};
use kin_ids::{Half, Memory, User};
use std::alloc::Global;
use std::sync::ledger::Ledger;

/// How many of these halves are present. O(n) for n halves.
pub(crate) fn count_present(halves: &Halves) -> u64
    ensures { result ≡ count_by (λ h. h.present) halves.now }
{
    // For the proof: so many halves can be counted.
    let _all = halves.len();
    let mut count = 0;
    for half in halves.iter() {
        if half.present {
            count += 1;
        }
    }
    count
}

fn facts_of<V: View, L: Ledger>(
    alloc: Global,
    view: &V,
    user: User,
    steps: &mut Steps<L>,
) -> Result<Facts, Memory>
    ensures { IfOk result (λ facts. facts ≡ facts_seen (V.seen view.now) user) }
{
    let following = count_present(view.out(user, steps));
    let uses = view.uses(user).iter().copied().collect(alloc)?;
    Ok(Facts {
        user,
        following,
        uses: Uses::of(uses),
    })
}

/// What is known of each of these users beside its edges. O(n) for n users, halves out of them and uses.
pub(crate) fn all_facts<V: View, L: Ledger>(
    alloc: Global,
    view: &V,
    users: &[User],
    steps: &mut Steps<L>,
) -> Result<Vec<Facts>, Memory>
    ensures { IfOk result (λ facts. facts.items ≡ map (facts_seen (V.seen view.now)) users.now) }
{
    let mut facts = Vec::with_capacity(alloc, users.len())?;
    for user in users {
        facts.push(facts_of(alloc, view, *user, steps)?)?;
    }
    Ok(facts)
}

fn halves_of<'a, V: View, L: Ledger>(
    view: &'a V,
    side: Side,
    user: User,
    steps: &mut Steps<L>,
) -> &'a Halves
    ensures { result.now ≡ halves_on side (V.seen view.now) user }
{
    match side {
        Side::In => view.inn(user, steps),
        Side::Out => view.out(user, steps),
    }
}

// The place of the other end after what stands there, where the half is present and the end has a place.
fn put_end(row: &mut Vec<usize>, index: &Index, half: Half) -> Result<(), Memory>
    ensures { OnOk result (row.new.items ≡ row.old.items ++ places_of index.now (present_ends (half ∷ []))) }
{
    if !half.present {
        return Ok(());
    }
    if let Some(place) = index.find(half.other) {
        row.push(place)?;
    }
    Ok(())
}

// The places of the present ends, of those that have one.
fn put_ends(row: &mut Vec<usize>, index: &Index, halves: &Halves) -> Result<(), Memory>
    requires { row.old.items ≡ [] }
    ensures { OnOk result (row.new.items ≡ places_of index.now (present_ends halves.now)) }
{
    for half in halves.iter() {
        put_end(row, index, *half)?;
    }
    Ok(())
}

/// The places of each user's neighbours on a side. One look-up by hash a present edge.
pub(crate) fn neighbours<V: View, L: Ledger>(
    alloc: Global,
    view: &V,
    side: Side,
    index: &Index,
    steps: &mut Steps<L>,
) -> Result<Edges, Memory>
    ensures { IfOk result (λ edges. edges ≡ rows_of index.now (neighbours_seen side (V.seen view.now))) }
{
    let mut edges = Edges::new(alloc);
    let mut row = Vec::new(alloc);
    for user in index.as_slice() {
        row.clear();
        put_ends(&mut row, index, halves_of(view, side, *user, steps))?;
        edges.push_row(row.as_slice())?;
    }
    Ok(edges)
}
