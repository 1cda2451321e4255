//! One partition's store: written, shared, copied, and gone back to.

ghost use Rattle.std.specs.Prelude.{◌≡◌, ◌+◌, ◌<◌, ◌≤◌, ◌^◌, OnOk};
ghost use Rattle.kin_ids.specs.declared.ids.User.{User};
ghost use Rattle.kin_graph.specs.State.{view_of};
ghost use Rattle.kin_graph.specs.Changes.{kept, Precedes};

use crate::{PartGraph, PartSnap, Steps, View};
use kin_ids::{Epoch, Inc, IngestId, Memory, Numbered, Op, Ops, PartId, Piece, Stamp, User};
use std::alloc::Global;
use std::marker::Brand;
use std::process::Abort;
use std::sync::ledger::{Blank, Ledger};
use std::test::Fail;

const FOLLOWED: User = User(0);

// Users 1 to n follow user 0, in the order of their numbers.
fn followers(alloc: Global, n: u32) -> Result<Vec<Numbered>, Memory> {
    let mut ops = Vec::new(alloc);
    for i in 1..=n {
        ops.push(Numbered {
            number: u64::from(i),
            op: Op::AddIn(FOLLOWED, User(i)),
        })?;
    }
    Ok(ops)
}

// Operations of node 0 on the one partition.
fn piece_of(ops: Vec<Numbered>) -> Piece
    ensures ops { result.ops ≡ ops.items }
    ensures part { result.part.0 ≡ 0 }
{
    Piece {
        stamp: Stamp {
            ingest: IngestId(0),
            inc: Inc(0),
            from: 0,
            to: 1,
        },
        base: 0,
        part: PartId(0),
        ops: Ops::of(ops),
    }
}

// Applies operations of node 0, at most 200 of them, to a store of the one partition.
fn put(store: &mut PartGraph, epoch: Epoch, ops: Vec<Numbered>) -> Result<(), Memory>
    requires one { (store.old.part ≡ 0) × (store.old.parts ≡ 1) }
    requires said { (u : User) → (view_of store.old).said u ≤ 2 ^ 32 }
    ensures one { (store.new.part ≡ 0) × (store.new.parts ≡ 1) }
    ensures said { OnOk result ((u : User) → (view_of store.new).said u ≤ (view_of store.old).said u + 200) }
    ensures stays { OnOk result (Precedes (kept store.old) (kept store.new)) }
{
    if ops.len() > 200 {
        return Err(Memory);
    }
    let piece = piece_of(ops);
    store.apply(epoch, &piece)
}

fn assert_followers<R: Abort, L: Ledger>(
    rt: &R,
    snap: &PartSnap,
    blank: Blank,
    all: usize,
    present: usize,
)
    requires name { blank.name ≡ L.name }
    requires parts { (blank.parts ≡ L.parts) × (0 < L.parts) }
{
    let mut steps = Steps::<L>::new(blank);
    let halves = snap.inn(FOLLOWED, &mut steps);
    assert_eq!(rt; halves.len(), all);
    let mut last = 0;
    let mut seen = 0;
    for half in halves.iter() {
        assert!(rt; half.other.0 > last);
        last = half.other.0;
        if half.present && seen < all {
            seen += 1;
        }
    }
    assert_eq!(rt; seen, present);
}

// So many halves into user 0, in the order of the other users, and so many of them present.
fn assert_halves<R: Abort>(rt: &R, snap: &PartSnap, all: usize, present: usize) {
    assert_followers::<_, Brand>(rt, snap, Blank::new(1), all, present);
}

#[test]
fn a_long_list_in_two_versions(rt: HostRuntime) -> Result<(), Fail> {
    let alloc = rt.alloc();
    let mut store = PartGraph::new(alloc, PartId(0), 1)?;
    put(&mut store, Epoch(1), followers(alloc, 150)?)?;
    let before = store.snap().share()?;
    let ops = vec![in alloc;
        Numbered {
            number: 1,
            op: Op::DropIn(FOLLOWED, User(70))
        },
        Numbered {
            number: 2,
            op: Op::AddIn(FOLLOWED, User(151))
        },
    ]?;
    put(&mut store, Epoch(2), ops)?;
    assert_halves(&rt, &before, 150, 150);
    assert_halves(&rt, store.snap(), 151, 150);
    let copy = store.copy()?;
    store.restore(before);
    assert_halves(&rt, store.snap(), 150, 150);
    assert_halves(&rt, copy.snap(), 151, 150);
    assert!(rt; store.users()?.len() == 1 && !store.is_vertex(User(70)));
    Ok(())
}
