//! One follow on its way through a hub of two nodes and two partitions.

ghost use Rattle.std.specs.Prelude.{◌≡◌, ◌<◌, [], ◌∷◌, IfOk, OnOk};
ghost use Rattle.kin_table.specs.Tables.{first_table};
ghost use Rattle.kin_hub.specs.Hubs.{parts_in};
ghost use Rattle.kin_hub.specs.Commits.{HasSmallFeeds};

use crate::{CommitRefused, End, Hub, Raised, Taken};
use kin_graph::View;
use kin_ids::{Epoch, Inc, IngestId, Memory, Numbered, Op, Ops, PartId, Piece, Stamp, User};
use std::alloc::Global;
use std::process::Abort;
use std::test::Fail;

const NODE: IngestId = IngestId(0);

const FOLLOWER: User = User(1);

const FOLLOWED: User = User(2);

// A partition's piece of record 1 of node 0, which gives it this operation.
fn piece(alloc: Global, part: PartId, op: Op) -> Result<Piece, Memory>
    ensures { IfOk result (λ x. x ≡ record {
      stamp = record { ingest = record { 0 = 0 }; inc = record { 0 = 0 }; from = 0; to = 1 };
      base = 0;
      part = part;
      ops = record { number = 1; op = op } ∷ [];
    }) }
{
    let mut ops = Ops::new(alloc);
    ops.push(Numbered { number: 1, op })?;
    Ok(Piece {
        stamp: Stamp {
            ingest: NODE,
            inc: Inc(0),
            from: 0,
            to: 1,
        },
        base: 0,
        part,
        ops,
    })
}

// A hub that took both pieces of the follow, the only record of its feeds.
fn hub_with_follow<R: Abort + AllocGlobal>(rt: &R) -> Result<Hub, Fail>
    ensures small { IfOk result HasSmallFeeds }
    ensures parts { IfOk result (λ hub. parts_in hub ≡ 2) }
    ensures table { IfOk result (λ hub. hub.core.table ≡ first_table 2 2) }
{
    let alloc = rt.alloc();
    let mut hub = Hub::new(alloc, 2, 2)?;
    let to_followed = piece(alloc, PartId(0), Op::AddIn(FOLLOWED, FOLLOWER))?;
    assert_eq!(rt; hub.take(to_followed)?, Taken::Held(1));
    let from_follower = piece(alloc, PartId(1), Op::AddOut(FOLLOWER, FOLLOWED))?;
    assert_eq!(rt; hub.take(from_follower)?, Taken::Held(1));
    Ok(hub)
}

// The same hub after the follow is agreed, and cut in the first of two epochs.
fn hub_with_cuts<R: Abort + AllocGlobal>(rt: &R) -> Result<Hub, Fail>
    ensures small { IfOk result HasSmallFeeds }
    ensures parts { IfOk result (λ hub. parts_in hub ≡ 2) }
{
    let mut hub = hub_with_follow(rt)?;
    hub.report(PartId(0));
    hub.report(PartId(1));
    assert_eq!(rt; hub.ready(NODE), 1);
    assert_eq!(rt; hub.raise(NODE), Raised::Raised(1));
    let agreed = hub.agreed(NODE);
    assert_eq!(rt;
        (agreed, hub.agreed_since(NODE, 0)?.as_slice().len()),
        (1, 1)
    );
    hub.cut(Some(3))?;
    hub.cut(None)?;
    assert_eq!(rt; (hub.cuts(), hub.cut_of(Epoch(2)).is_some()), (2, true));
    Ok(hub)
}

// What is seen of a hub while its first two epochs are committed.
#[derive(Clone, Copy, Debug, PartialEq, Eq)]
struct Progress {
    cuts: u64,
    committed: (u64, u64),
    follows: (Option<bool>, Option<bool>),
    new: (Option<usize>, Option<usize>),
}

fn progress_of(hub: &Hub) -> Progress
    requires { parts_in hub.now ≡ 2 }
{
    Progress {
        cuts: hub.cuts(),
        committed: (hub.committed(PartId(0)), hub.committed(PartId(1))),
        follows: (follows_at(hub, Epoch(1)), follows_at(hub, Epoch(2))),
        new: (follows_new_at(hub, Epoch(1)), follows_new_at(hub, Epoch(2))),
    }
}

// A partition commits its next epoch, which is this one. Where memory runs out at that, the hub is as it was, and the
// partition commits then.
fn assert_commit<R: Abort>(rt: &R, hub: &mut Hub, part: PartId, epoch: Epoch) -> Result<(), Fail>
    requires part { part.0 < parts_in hub.old }
    requires parts { parts_in hub.old ≡ 2 }
    requires small { HasSmallFeeds hub.old }
    ensures parts { OnOk result (parts_in hub.new ≡ 2) }
    ensures small { OnOk result (HasSmallFeeds hub.new) }
{
    let before = progress_of(hub);
    if let Ok(next) = hub.commit(part) {
        assert_eq!(rt; next, epoch);
        return Ok(());
    }
    assert_eq!(rt; progress_of(hub), before);
    assert_eq!(rt; hub.commit(part)?, epoch);
    Ok(())
}

// Both partitions commit their next epoch, which is this one.
fn assert_commits<R: Abort>(rt: &R, hub: &mut Hub, epoch: Epoch) -> Result<(), Fail>
    requires parts { parts_in hub.old ≡ 2 }
    requires small { HasSmallFeeds hub.old }
    ensures parts { OnOk result (parts_in hub.new ≡ 2) }
    ensures small { OnOk result (HasSmallFeeds hub.new) }
{
    assert_commit(rt, hub, PartId(0), epoch)?;
    assert!(rt; hub.snapshot(epoch).is_none());
    assert_commit(rt, hub, PartId(1), epoch)?;
    assert!(rt; hub.snapshot(epoch).is_some());
    Ok(())
}

// Whether a user who follows is a vertex at an epoch, where it is kept.
fn follows_at(hub: &Hub, epoch: Epoch) -> Option<bool> {
    Some(hub.snapshot(epoch)?.is_vertex(FOLLOWER))
}

// To how many partitions an epoch brought a follow by one of their users, where the epoch is kept.
fn follows_new_at(hub: &Hub, epoch: Epoch) -> Option<usize> {
    let with_follows = hub
        .deltas(epoch)?
        .iter()
        .filter(|delta| !delta.now_out().is_empty());
    Some(with_follows.count())
}

#[test]
fn a_follow_is_committed(rt: HostRuntime) -> Result<(), Fail> {
    let mut hub = hub_with_cuts(&rt)?;
    assert_commits(&rt, &mut hub, Epoch(1))?;
    assert_commits(&rt, &mut hub, Epoch(2))?;
    assert_eq!(rt; hub.commit(PartId(0)), Err(CommitRefused::NothingCut));
    let (first, second) = (hub.committed(PartId(0)), hub.committed(PartId(1)));
    assert_eq!(rt; (first, second), (2, 2));
    assert_eq!(rt; follows_at(&hub, Epoch(0)), Some(false));
    assert_eq!(rt; follows_new_at(&hub, Epoch(1)), Some(1));
    assert_eq!(rt; follows_new_at(&hub, Epoch(2)), Some(0));
    hub.release_below(Epoch(1));
    assert_eq!(rt; follows_at(&hub, Epoch(0)), None);
    assert_eq!(rt; follows_new_at(&hub, Epoch(0)), None);
    assert_eq!(rt; follows_at(&hub, Epoch(1)), Some(true));
    Ok(())
}

#[test]
fn a_node_comes_back(rt: HostRuntime) -> Result<(), Fail> {
    let mut hub = hub_with_follow(&rt)?;
    let base = hub.seal(NODE)?;
    assert_eq!(rt; (base, hub.inc(NODE)), (End { inc: Inc(1), to: 0 }, Inc(1)));
    Ok(())
}
