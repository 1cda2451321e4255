//! Closeness on one partition's store, settled from the landmark on, and compared with the costs of walks.

ghost use Rattle.std.specs.Prelude.{◌≡◌, ◌<◌, ◌≤◌, true, List, IfOk, length, map};
ghost use Rattle.std.specs.Bool.{OnTrue};
ghost use Rattle.std.specs.List.Sorted.{IsStrictlySortedBy};
ghost use Rattle.kin_ids.specs.declared.ids.User.{User};
ghost use Rattle.kin_ids.specs.Users.{has_user, user_cmp};
ghost use Rattle.kin_store.specs.Lists.{half_key};
ghost use Rattle.kin_graph.specs.Views.{AreVertices};
ghost use Rattle.kin_push.specs.Closed.{IsClosed, IsClosedAt};

use crate::places::find;
use crate::{ActiveSet, PushEngine, Waves, enter, settle};
use kin_graph::{Delta, Halves, PartGraph, Steps, Touched, Users, View};
use kin_ids::{Epoch, Inc, IngestId, Memory, Numbered, Op, Ops, PartId, Piece, Stamp, User};
use kin_rules::{EdgeKind, PushRule, walk_costs};
use std::alloc::Global;
use std::marker::Brand;
use std::sync::ledger::{Blank, Ledger};
use std::test::Fail;

// A follow edge costs 3, and a mention edge 1.
#[derive(Clone, Copy)]
struct Closeness {
    landmark: User,
}

impl PushRule for Closeness {
    ghost use Rattle.kin_rules.specs.Instances.{close_rule};
    ghost use Rattle.kin_rules.specs.RuleLaws.{close-laws};

    ghost seen = { λ r. close_rule r.landmark };

    fn landmark(&self) -> User {
        self.landmark
    }

    fn along(&self, kind: EdgeKind, value: u32) -> Option<u32> {
        match kind {
            EdgeKind::Follow => Some(value + 3),
            EdgeKind::Mention => Some(value + 1),
        }
    }

    ghost laws = { λ r. close-laws };
}

// Whether all others of these halves are among the users.
fn have_ends(users: &[User], halves: &Halves) -> bool
    requires { IsStrictlySortedBy user_cmp users.now }
    ensures { OnTrue result ((x : User) → has_user (map half_key halves.now) x ≡ true → has_user users.now x ≡ true) }
{
    for half in halves.iter() {
        if find(users, half.other).is_none() {
            return false;
        }
    }
    true
}

// Whether all of these are among the users.
fn have_all(users: &[User], ends: &Users) -> bool
    requires { IsStrictlySortedBy user_cmp users.now }
    ensures { OnTrue result ((x : User) → has_user ends.now x ≡ true → has_user users.now x ≡ true) }
{
    for end in ends.iter() {
        if find(users, *end).is_none() {
            return false;
        }
    }
    true
}

// Whether all edges out of a user lead to users.
fn is_closed_at<V: View, L: Ledger>(
    users: &[User],
    view: &V,
    user: User,
    steps: &mut Steps<L>,
) -> bool
    requires { IsStrictlySortedBy user_cmp users.now }
    ensures { OnTrue result (IsClosedAt (V.seen view.now) users.now user) }
{
    if !have_ends(users, view.out(user, steps)) {
        return false;
    }
    have_all(users, view.mentions(user, steps))
}

// Whether all edges lead to users.
fn is_closed<V: View, L: Ledger>(users: &[User], view: &V, steps: &mut Steps<L>) -> bool
    requires { IsStrictlySortedBy user_cmp users.now }
    ensures { OnTrue result (IsClosed (V.seen view.now) users.now) }
{
    for user in users {
        if !is_closed_at(users, view, *user, steps) {
            return false;
        }
    }
    true
}

// The values that settle from the landmark alone, where all edges lead to users.
fn settled<R: PushRule, V: View, L: Ledger>(
    alloc: Global,
    rule: &R,
    users: &[User],
    view: &V,
    blank: Blank,
) -> Result<Vec<Option<u32>>, Memory>
    requires vertices { AreVertices (V.seen view.now) users.now }
    requires name { blank.name ≡ L.name }
    requires parts { (blank.parts ≡ L.parts) × (0 < L.parts) }
    ensures { IfOk result (λ vs. length vs.items ≡ length users.now) }
{
    let mut steps = Steps::<L>::new(blank);
    if users.len() > 1000 {
        return Err(Memory);
    }
    if !is_closed(users, view, &mut steps) {
        return Err(Memory);
    }
    let mut values = vec![in alloc; None; users.len()]?;
    let mut active = ActiveSet::none(alloc, users.len())?;
    let mut waves = Waves::with_room(alloc, users.len())?;
    let slice = values.as_mut_slice();
    enter(rule, users, slice, &mut active, &[]);
    settle(
        rule,
        users,
        slice,
        &mut active,
        view,
        &mut waves,
        &mut steps,
    );
    Ok(values)
}

fn edge(u: u32, v: u32, kind: EdgeKind) -> [Op; 2] {
    let (u, v) = (User(u), User(v));
    match kind {
        EdgeKind::Follow => [Op::AddOut(u, v), Op::AddIn(v, u)],
        EdgeKind::Mention => [Op::MentionOut(u, v), Op::MentionIn(v, u)],
    }
}

// 1 follows 2 and mentions 3, which mentions 2, which follows 4. 5 follows 1. And what is new.
fn five_users(alloc: Global) -> Result<(PartGraph, Delta), Memory> {
    let mut ops = Vec::new(alloc);
    for (i, (u, v, kind)) in [
        (1, 2, EdgeKind::Follow),
        (1, 3, EdgeKind::Mention),
        (3, 2, EdgeKind::Mention),
        (2, 4, EdgeKind::Follow),
        (5, 1, EdgeKind::Follow),
    ]
    .iter()
    .enumerate()
    {
        for op in edge(*u, *v, *kind) {
            ops.push(Numbered {
                number: i as u64 + 1,
                op,
            })?;
        }
    }
    let mut store = PartGraph::new(alloc, PartId(0), 1)?;
    let before = store.snap().share()?;
    let stamp = Stamp {
        ingest: IngestId(0),
        inc: Inc(0),
        from: 0,
        to: 5,
    };
    let piece = Piece {
        stamp,
        base: 0,
        part: PartId(0),
        ops: Ops::of(ops),
    };
    let mut touched = Touched::new(alloc);
    touched.note(piece.ops.as_slice())?;
    store.apply(Epoch(1), &piece)?;
    let delta = store.difference(&before, &touched)?;
    Ok((store, delta))
}

#[test]
fn settled_values_are_costs_of_walks(rt: HostRuntime) -> Result<(), Fail> {
    let (store, _) = five_users(rt.alloc())?;
    let users = store.users()?;
    assert!(rt; users.len() == 5);
    let table = [
        (1, [Some(0), Some(2), Some(1), Some(5), None]),
        (3, [None, Some(1), Some(0), Some(4), None]),
        (5, [Some(3), Some(5), Some(4), Some(8), Some(0)]),
        (9, [None; 5]),
    ];
    for (landmark, want) in table {
        let rule = Closeness {
            landmark: User(landmark),
        };
        let found = settled::<_, _, Brand>(
            rt.alloc(),
            &rule,
            users.as_slice(),
            &store,
            Blank::new(1),
        )?;
        assert!(rt; found.as_slice() == want.as_slice());
        let costs = walk_costs(rt.alloc(), &store, &rule)?;
        for (i, user) in users.iter().enumerate() {
            assert!(rt; costs.of(*user) == found[i]);
        }
    }
    Ok(())
}

#[test]
fn an_epoch_begins_with_its_starts(rt: HostRuntime) -> Result<(), Fail> {
    let (_, delta) = five_users(rt.alloc())?;
    let deltas = vec![in rt.alloc(); delta]?;
    let landmark = User(1);
    let mut engine = PushEngine::new(rt.alloc(), Closeness { landmark })?;
    engine.begin(deltas.as_slice())?;
    let table = [
        (1, Some(0), true),
        (2, None, true),
        (3, None, true),
        (4, None, false),
        (5, None, true),
        (9, None, false),
    ];
    for (user, value, active) in table {
        let user = User(user);
        assert!(rt; engine.value_of(user) == value && engine.is_active(user) == active);
    }
    assert!(rt; engine.least_active() == Some(landmark) && engine.rule().landmark == landmark);
    Ok(())
}
