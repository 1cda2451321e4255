//! The least cost of a walk from the landmark of a rule to each user.

ghost use Rattle.std.specs.Prelude.{◌≡◌, ◌≤◌, ◌<◌, ◌^◌, ℕ, Option, None, IfOk, OnOk, if◌then◌else◌, length, map};
ghost use Rattle.std.specs.Option.{option_or};
ghost use Rattle.kin_ids.specs.declared.ids.User.{User};
ghost use Rattle.kin_ids.specs.Graph.{Graph};
ghost use Rattle.kin_ids.specs.Users.{has_user, same_user};
ghost use Rattle.kin_ids.specs.Wholes.{IsViewOf};
ghost use Rattle.kin_graph.specs.Views.{IsSmall};
ghost use Rattle.kin_rules.specs.Edges.{AreEdgesOf};
ghost use Rattle.kin_rules.specs.Nets.{least_of};
ghost use Rattle.kin_rules.specs.UserCosts.{cost_of};

use crate::edges::Edges;
use crate::rounds::Walk;
use crate::{Costs, Index, PushRule};
use kin_graph::{Steps, View};
use kin_ids::{Memory, User};
use std::alloc::Global;
use std::marker::Brand;
use std::sync::ledger::{Blank, Ledger};

/// For each user, by its place, the least cost of a walk to it from the rule's landmark, None where there is none.
/// O(v + e) for v users and e edges.
pub(crate) fn walk_values<R: PushRule>(
    alloc: Global,
    index: &Index,
    follows: &Edges,
    mentions: &Edges,
    rule: &R,
) -> Result<Vec<Option<u32>>, Memory>
    requires small { length index.now ≤ 2 ^ 27 }
    ensures length { IfOk result (λ values. length values.items ≡ length index.now) }
    ensures least { IfOk result (λ values. (g : Graph) → AreEdgesOf g index.now follows.now mentions.now →
        values.items ≡ map (least_of (R.seen rule.now) g) index.now) }
{
    let mut walk = Walk::new(alloc, index.len())?;
    if let Some(place) = index.find(rule.landmark()) {
        walk.offer(0, 0, place)?;
    }
    walk.run(alloc, follows, mentions, rule, 3 * index.len() as u32)?;
    Ok(walk.into_values())
}

// The user has this cost, where it is one, else what it had.
fn put_cost(costs: &mut Costs, u: User, value: Option<u32>) -> Result<(), Memory>
    ensures { OnOk result ((x : User) → cost_of costs.new x
        ≡ (if same_user u x then option_or value (cost_of costs.old u) else cost_of costs.old x)) }
{
    match value {
        Some(cost) => costs.set(u, cost),
        None => Ok(()),
    }
}

// The values of those who have one.
fn costs_of(alloc: Global, users: &[User], values: &[Option<u32>]) -> Result<Costs, Memory>
    requires { length values.now ≡ length users.now }
    ensures { IfOk result (λ costs. (f : User → Option ℕ) → values.now ≡ map f users.now →
        (u : User) → cost_of costs u ≡ (if has_user users.now u then f u else None)) }
{
    let mut costs = Costs::new(alloc);
    for (i, user) in users.iter().enumerate() {
        put_cost(&mut costs, *user, values[i])?;
    }
    Ok(costs)
}

fn walk_by<V: View, R: PushRule, L: Ledger>(
    alloc: Global,
    view: &V,
    rule: &R,
    blank: Blank,
) -> Result<Costs, Memory>
    requires name { blank.name ≡ L.name }
    requires parts { (blank.parts ≡ L.parts) × (0 < L.parts) }
    requires small { IsSmall (V.seen view.now) }
    ensures { IfOk result (λ costs. (g : Graph) → IsViewOf g (V.seen view.now) →
        (u : User) → cost_of costs u ≡ least_of (R.seen rule.now) g u) }
{
    let mut steps = Steps::<L>::new(blank);
    let users = view.users()?;
    let index = Index::of(alloc, users.as_slice())?;
    let follows = Edges::follows(alloc, view, &index, &mut steps)?;
    let mentions = Edges::mentions(alloc, view, &index, &mut steps)?;
    let values = walk_values(alloc, &index, &follows, &mentions, rule)?;
    costs_of(alloc, users.as_slice(), values.as_slice())
}

/// The least cost of a walk from the rule's landmark to each user that has one, on the whole graph that the view
/// hands out. O(e + v log v) for v vertices and e edges, with a look-up by hash an edge; each edge is read once.
pub fn walk_costs<V: View, R: PushRule>(alloc: Global, view: &V, rule: &R) -> Result<Costs, Memory>
    requires small { IsSmall (V.seen view.now) }
    ensures { IfOk result (λ costs. (g : Graph) → IsViewOf g (V.seen view.now) →
        (u : User) → cost_of costs u ≡ least_of (R.seen rule.now) g u) }
{
    walk_by::<V, R, Brand>(alloc, view, rule, Blank::new(1))
}
