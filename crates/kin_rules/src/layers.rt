//! The layers of a rule from scratch, over users that are numbered densely.

ghost use Rattle.std.specs.Prelude.{◌≡◌, ◌+◌, ◌<◌, ◌≤◌, IfOk, IfSome, All, List, ℕ, length, map, get_or, option_copied};
ghost use Rattle.kin_ids.specs.declared.ids.User.{User};
ghost use Rattle.kin_ids.specs.Graph.{Graph};
ghost use Rattle.kin_ids.specs.Wholes.{IsViewOf};
ghost use Rattle.kin_graph.specs.Views.{AreVertices};
ghost use Rattle.kin_rules.specs.declared.pull_rules.Facts.{Facts};
ghost use Rattle.kin_rules.specs.Layers.{LayerNet, layer, lent};
ghost use Rattle.kin_rules.specs.LayerTables.{AreAllShares, ArePlaces, AreRows, IsNextAt, IsRowAbove, IsTable};
ghost use Rattle.kin_rules.specs.LayerTables.{input_at, layer_value, value_at};

use crate::Index;
use crate::edges::Edges;
use crate::neighbours::{all_facts, neighbours};
use crate::pull_rules::{Facts, Lent, PullRule};
use kin_graph::{Steps, View};
use kin_ids::{Memory, User};
use std::alloc::Global;
use std::marker::{Brand, Model};
use std::mem::replace;
use std::sync::ledger::{Blank, Ledger};

/// The values of users in all layers of a rule, from layer 0 on. Users ascend.
#[derive(Drop)]
pub struct Layers<V: Drop> {
    index: Index,
    rows: Vec<Vec<V>>,
}

impl<V: Drop> Model for Layers<V> {
    ghost use Rattle.std.specs.Prelude.{map};
    ghost use Rattle.kin_rules.specs.LayerTables.{LayersOf};

    ghost Value = { LayersOf V };

    ghost view = { λ a. record { users = a.index; rows = map (λ r. r.items) a.rows.items } };
}

impl<V: Drop> Layers<V> {
    /// The value of a user in a layer: one look-up by hash. It takes no memory.
    pub fn of(&self, user: User, layer: u32) -> Option<&V>
        ensures { option_copied result ≡ value_at self.now user layer }
    {
        let place = self.index.find(user)?;
        let row = self.rows.as_slice().get(layer as usize)?;
        row.as_slice().get(place)
    }
}

// Lends the inputs that stand at these places.
fn lend<'a, V: Drop>(
    alloc: Global,
    facts: &'a [Facts],
    row: &'a [V],
    ends: &[usize],
) -> Result<Vec<Lent<'a, V>>, Memory>
    requires facts { All (λ i. i < length facts.now) ends.now }
    requires row { All (λ i. i < length row.now) ends.now }
    ensures { IfOk result (λ v. (df : Facts) (d : V) → lent v.items ≡ map (input_at df d facts.now row.now) ends.now) }
{
    let mut inputs = Vec::with_capacity(alloc, ends.len())?;
    for end in ends {
        inputs.push(Lent {
            facts: &facts[*end],
            value: &row[*end],
        })?;
    }
    Ok(inputs)
}

// The value above of a user, by inputs that are lent.
fn lent_next<R: PullRule>(
    alloc: Global,
    rule: &R,
    facts: &[Facts],
    row: &[R::Value],
    own: &Facts,
    ends: &[usize],
) -> Result<R::Value, Memory>
    requires facts { All (λ i. i < length facts.now) ends.now }
    requires row { All (λ i. i < length row.now) ends.now }
    ensures { IfOk result (IsNextAt (R.seen rule.now) facts.now row.now own.now ends.now) }
{
    let inputs = lend(alloc, facts, row, ends)?;
    rule.next_lent(alloc, own, inputs.as_slice())
}

// Everybody's shares, where the rule has them.
fn shares_of<R: PullRule>(
    alloc: Global,
    rule: &R,
    facts: &[Facts],
    row: &[R::Value],
) -> Result<Option<Vec<u64>>, Memory>
    requires { length facts.now ≡ length row.now }
    ensures { IfOk result (λ o. IfSome o (λ v. AreAllShares (R.share rule.now) facts.now row.now v.items)) }
{
    let mut shares = Vec::with_capacity(alloc, facts.len())?;
    for k in 0..facts.len() {
        let Some(share) = rule.share(&facts[k], &row[k]) else {
            return Ok(None);
        };
        shares.push(share)?;
    }
    Ok(Some(shares))
}

// The value above of a user, by shares where the rule has them.
fn next_of<R: PullRule>(
    alloc: Global,
    rule: &R,
    facts: &[Facts],
    row: &[R::Value],
    shares: &Option<Vec<u64>>,
    own: &Facts,
    ends: &[usize],
) -> Result<R::Value, Memory>
    requires facts { All (λ i. i < length facts.now) ends.now }
    requires row { All (λ i. i < length row.now) ends.now }
    requires shares { IfSome shares.now (λ v. AreAllShares (R.share rule.now) facts.now row.now v.items) }
    ensures { IfOk result (IsNextAt (R.seen rule.now) facts.now row.now own.now ends.now) }
{
    if let Some(shares) = shares {
        if let Some(value) = rule.next_shares(alloc, own, shares.as_slice(), ends)? {
            return Ok(value);
        }
    }
    lent_next(alloc, rule, facts, row, own, ends)
}

// The row above, by these shares.
fn row_by<R: PullRule>(
    alloc: Global,
    rule: &R,
    facts: &[Facts],
    ends: &Edges,
    row: &[R::Value],
    shares: &Option<Vec<u64>>,
) -> Result<Vec<R::Value>, Memory>
    requires places { ArePlaces (length facts.now) ends.now }
    requires long { length facts.now ≡ length row.now }
    requires shares { IfSome shares.now (λ v. AreAllShares (R.share rule.now) facts.now row.now v.items) }
    ensures long { IfOk result (λ v. length v.items ≡ length facts.now) }
    ensures above { IfOk result (λ v. IsRowAbove (R.seen rule.now) facts.now ends.now row.now v.items) }
{
    let mut next = Vec::with_capacity(alloc, facts.len())?;
    for k in 0..facts.len() {
        next.push(next_of(alloc, rule, facts, row, shares, &facts[k], ends.row(k))?)?;
    }
    Ok(next)
}

// The row above.
fn row_above<R: PullRule>(
    alloc: Global,
    rule: &R,
    facts: &[Facts],
    ends: &Edges,
    row: &[R::Value],
) -> Result<Vec<R::Value>, Memory>
    requires places { ArePlaces (length facts.now) ends.now }
    requires long { length facts.now ≡ length row.now }
    ensures long { IfOk result (λ v. length v.items ≡ length facts.now) }
    ensures above { IfOk result (λ v. IsRowAbove (R.seen rule.now) facts.now ends.now row.now v.items) }
{
    let shares = shares_of(alloc, rule, facts, row)?;
    row_by(alloc, rule, facts, ends, row, &shares)
}

// Row 0.
fn first_row<R: PullRule>(alloc: Global, rule: &R, facts: &[Facts]) -> Result<Vec<R::Value>, Memory>
    ensures { IfOk result (λ v. v.items ≡ map (λ x. (R.seen rule.now).first) facts.now) }
{
    let mut row = Vec::with_capacity(alloc, facts.len())?;
    for own in facts {
        let _ = own;
        row.push(rule.first(alloc)?)?;
    }
    Ok(row)
}

/// The top row alone: O(n) for n users and edges by place, for each layer.
pub(crate) fn top_row<R: PullRule>(
    alloc: Global,
    rule: &R,
    facts: &[Facts],
    ends: &Edges,
) -> Result<Vec<R::Value>, Memory>
    requires { ArePlaces (length facts.now) ends.now }
    ensures long { IfOk result (λ v. length v.items ≡ length facts.now) }
    ensures top { IfOk result (λ v. (net : LayerNet) (users : List User) → IsTable net users facts.now ends.now
        → v.items ≡ map (layer (R.seen rule.now) net R.LAYERS) users) }
{
    let mut row = first_row(alloc, rule, facts)?;
    for level in 0..R::LAYERS {
        let _ = level;
        let next = row_above(alloc, rule, facts, ends, row.as_slice())?;
        row = next;
    }
    Ok(row)
}

// The rows of all layers.
fn all_rows<R: PullRule>(
    alloc: Global,
    rule: &R,
    facts: &[Facts],
    ends: &Edges,
) -> Result<Vec<Vec<R::Value>>, Memory>
    requires { ArePlaces (length facts.now) ends.now }
    ensures { IfOk result (λ v. (net : LayerNet) (users : List User) → IsTable net users facts.now ends.now
        → AreRows (R.seen rule.now) net users (R.LAYERS + 1) (map (λ r. r.items) v.items)) }
{
    let mut row = first_row(alloc, rule, facts)?;
    let mut rows = Vec::new(alloc);
    for level in 0..R::LAYERS {
        let _ = level;
        let next = row_above(alloc, rule, facts, ends, row.as_slice())?;
        rows.push(replace(&mut row, next))?;
    }
    rows.push(row)?;
    Ok(rows)
}

fn layers_by<V: View, R: PullRule, L: Ledger>(
    alloc: Global,
    view: &V,
    rule: &R,
    blank: Blank,
) -> Result<Layers<R::Value>, Memory>
    requires name { blank.name ≡ L.name }
    requires parts { (blank.parts ≡ L.parts) × (0 < L.parts) }
    ensures users { IfOk result (λ layers. AreVertices (V.seen view.now) layers.users) }
    ensures values { IfOk result (λ layers. (g : Graph) → IsViewOf g (V.seen view.now)
        → (u : User) (j : ℕ) → value_at layers u j ≡ layer_value (R.seen rule.now) R.LAYERS g u j) }
{
    let mut steps = Steps::<L>::new(blank);
    let users = view.users()?;
    let index = Index::of(alloc, users.as_slice())?;
    let facts = all_facts(alloc, view, index.as_slice(), &mut steps)?;
    let ends = neighbours(alloc, view, rule.side(), &index, &mut steps)?;
    let rows = all_rows(alloc, rule, facts.as_slice(), &ends)?;
    Ok(Layers { index, rows })
}

/// Every layer of every vertex. It reads each list of neighbours once, with one look-up by hash an edge; then each
/// layer takes time linear in vertices and edges where the rule has shares, and what its `next_lent` takes where it
/// has none.
pub fn layer_values<V: View, R: PullRule>(
    alloc: Global,
    view: &V,
    rule: &R,
) -> Result<Layers<R::Value>, Memory>
    ensures users { IfOk result (λ layers. AreVertices (V.seen view.now) layers.users) }
    ensures values { IfOk result (λ layers. (g : Graph) → IsViewOf g (V.seen view.now)
        → (u : User) (j : ℕ) → value_at layers u j ≡ layer_value (R.seen rule.now) R.LAYERS g u j) }
{
    layers_by::<V, R, Brand>(alloc, view, rule, Blank::new(1))
}
