//! A snapshot of two partitions: read, shared, and moved between threads. A commit.

ghost use Rattle.std.specs.Prelude.{◌≡◌, ◌<◌, [], ◌∷◌, All, IfOk, OnOk, length};
ghost use Rattle.kin_ids.specs.Operations.{op_part};
ghost use Rattle.kin_graph.specs.State.{empty_part};
ghost use Rattle.kin_blocks.specs.Blocks.{pieces_of, MayTake};
ghost use Rattle.kin_blocks.specs.Versions.{first_versions};

use crate::{PartSnap, Run, Snap, Versions};
use kin_graph::{Half, PartGraph, Steps, View};
use kin_ids::{
    Epoch, Inc, IngestId, Numbered, Op, Ops, PartId, Piece, Place, Stamp, Tag, User, part_of_tag,
};
use std::alloc::Global;
use std::marker::Brand;
use std::process::Abort;
use std::sync::ledger::{Blank, Ledger};
use std::test::Fail;
use std::thread;

const FOLLOWER: User = User(1);

const FOLLOWED: User = User(2);

// These operations, as those of record 1 of node 0.
fn piece_of(part: PartId, ops: Vec<Numbered>) -> Piece
    ensures part { result.part ≡ part }
    ensures ops { result.ops ≡ ops.items }
{
    let stamp = Stamp {
        ingest: IngestId(0),
        inc: Inc(0),
        from: 0,
        to: 1,
    };
    Piece {
        stamp,
        base: 0,
        part,
        ops: Ops::of(ops),
    }
}

// The store of one of two partitions with these operations of record 1 of node 0, in epoch 1.
fn store_of(alloc: Global, part: PartId, ops: Vec<Numbered>) -> Result<PartSnap, Fail>
    requires part { part.0 < 2 }
    requires home { All (λ x. op_part 2 x.op ≡ part.0) ops.items }
    ensures part { IfOk result (λ store. store.part ≡ part.0) }
    ensures parts { IfOk result (λ store. store.parts ≡ 2) }
{
    let mut store = PartGraph::new(alloc, part, 2)?;
    let piece = piece_of(part, ops);
    store.apply(Epoch(1), &piece)?;
    let snap = store.snap().share()?;
    Ok(snap)
}

fn at_first(op: Op) -> Numbered
    ensures { result.op ≡ op }
{
    Numbered { number: 1, op }
}

// User 1, of partition 1, follows user 2 and uses a tag, both of partition 0.
fn small_snap<R: Abort + AllocGlobal>(rt: &R, tag: Tag) -> Result<Snap, Fail> {
    let alloc = rt.alloc();
    assert_eq!(rt; part_of_tag(tag, 2).0, 0);
    let mut snap = Snap::empty(alloc, 2)?;
    let even = vec![in alloc;
        at_first(Op::AddIn(FOLLOWED, FOLLOWER)),
        at_first(Op::TagUse(tag, FOLLOWER)),
    ]?;
    snap.put(PartId(0), store_of(alloc, PartId(0), even)?);
    let odd = vec![in alloc;
        at_first(Op::AddOut(FOLLOWER, FOLLOWED)),
        at_first(Op::Use(FOLLOWER, tag)),
    ]?;
    snap.put(PartId(1), store_of(alloc, PartId(1), odd)?);
    Ok(snap)
}

fn half(other: User) -> Half {
    Half {
        other,
        present: true,
        added: Place {
            epoch: Epoch(1),
            ingest: IngestId(0),
            number: 1,
        },
    }
}

fn assert_halves<R: Abort, L: Ledger>(rt: &R, snap: &Snap, blank: Blank)
    requires name { blank.name ≡ L.name }
    requires parts { (blank.parts ≡ L.parts) × (0 < L.parts) }
{
    let mut steps = Steps::<L>::new(blank);
    assert_eq!(rt; snap.out(FOLLOWER, &mut steps).len(), 1);
    assert!(rt;
        snap.out(FOLLOWER, &mut steps)
            .iter()
            .all(|x| *x == half(FOLLOWED))
    );
    assert_eq!(rt; snap.inn(FOLLOWED, &mut steps).len(), 1);
    assert!(rt;
        snap.inn(FOLLOWED, &mut steps)
            .iter()
            .all(|x| *x == half(FOLLOWER))
    );
    assert!(rt; snap.inn(FOLLOWER, &mut steps).is_empty());
}

#[test]
fn a_follow_and_a_use_on_two_partitions(rt: HostRuntime) -> Result<(), Fail> {
    let Some(go) = Tag::read(b"go") else {
        return Ok(());
    };
    let snap = small_snap(&rt, go)?.share()?;
    assert!(rt; snap.users()?.as_slice() == [FOLLOWER, FOLLOWED].as_slice());
    assert!(rt; snap.tags()?.as_slice() == [go].as_slice());
    assert_eq!(rt; (snap.tag_users(go), snap.uses(FOLLOWER).len()), (1, 1));
    assert_halves::<_, Brand>(&rt, &snap, Blank::new(1));
    Ok(())
}

#[test]
fn read_by_two_threads(rt: HostRuntime) -> Result<(), Fail> {
    let Some(go) = Tag::read(b"go") else {
        return Ok(());
    };
    let snap = small_snap(&rt, go)?;
    let (follower, followed) = thread::join(
        &rt,
        || snap.is_vertex(FOLLOWER),
        || snap.is_vertex(FOLLOWED),
    );
    assert_eq!(rt; (follower, followed), (true, true));
    let (moved, _) = thread::join(&rt, move || snap.is_vertex(User(3)), || ());
    assert!(rt; !moved);
    Ok(())
}

// A follow within the only partition.
fn follow(alloc: Global) -> Result<Piece, Fail>
    ensures part { IfOk result (λ x. x.part.0 ≡ 0) }
    ensures count { IfOk result (λ x. length x.ops ≡ 2) }
{
    let ops = vec![in alloc;
        at_first(Op::AddOut(FOLLOWER, FOLLOWED)),
        at_first(Op::AddIn(FOLLOWED, FOLLOWER)),
    ]?;
    Ok(piece_of(PartId(0), ops))
}

// The number of follows that an epoch brought, where it is kept.
fn follows_new_at(versions: &Versions, epoch: Epoch) -> Option<usize> {
    let delta = versions.deltas(epoch)?.first()?;
    Some(delta.new_out().len())
}

// Whether the follower is a vertex at an epoch, where it is kept.
fn follows_at(versions: &Versions, epoch: Epoch) -> Option<bool> {
    Some(versions.snapshot(epoch)?.is_vertex(FOLLOWER))
}

// The only partition commits runs for the first time. Where memory runs out at that, the versions are as they were, and
// it commits then.
fn commit_first<R: Abort>(rt: &R, versions: &mut Versions, runs: &[Run]) -> Result<(), Fail>
    requires first { versions.old ≡ first_versions 1 }
    requires may { MayTake 1 (empty_part 0 1) (pieces_of runs.now) }
    ensures committed { OnOk result (versions.new.committed ≡ 1 ∷ []) }
{
    if versions.commit(PartId(0), runs).is_ok() {
        return Ok(());
    }
    assert_eq!(rt; follows_at(versions, Epoch(0)), Some(false));
    assert_eq!(rt; follows_at(versions, Epoch(1)), None);
    versions.commit(PartId(0), runs)?;
    Ok(())
}

#[test]
fn a_commit_is_kept(rt: HostRuntime) -> Result<(), Fail> {
    let alloc = rt.alloc();
    let mut versions = Versions::new(alloc, 1)?;
    let pieces = [follow(alloc)?];
    commit_first(&rt, &mut versions, &[Run::of(&pieces)])?;
    assert_eq!(rt; versions.committed(PartId(0)), 1);
    assert_eq!(rt; follows_at(&versions, Epoch(0)), Some(false));
    assert_eq!(rt; follows_at(&versions, Epoch(1)), Some(true));
    assert_eq!(rt; follows_new_at(&versions, Epoch(0)), Some(0));
    assert_eq!(rt; follows_new_at(&versions, Epoch(1)), Some(1));
    versions.release_below(Epoch(1));
    assert_eq!(rt; follows_at(&versions, Epoch(0)), None);
    assert_eq!(rt; follows_at(&versions, Epoch(1)), Some(true));
    Ok(())
}
