//! What a few operations leave in a delta.

use crate::{Delta, Pair, PartGraph, Touched, delta};
use kin_ids::{Epoch, Inc, IngestId, Numbered, Op, Ops, PartId, Piece, Stamp, User};
use std::alloc::Global;
use std::test::Fail;

const FOLLOWER: User = User(1);

const FOLLOWED: User = User(2);

// What these operations of record 1 of node 0 change of an empty store, the only one: by what they touched, and by a
// comparison with another empty one.
fn deltas_of(alloc: Global, ops: Vec<Numbered>) -> Result<(Delta, Delta), Fail> {
    let mut graph = PartGraph::new(alloc, PartId(0), 1)?;
    let before = graph.snap().share()?;
    let stamp = Stamp {
        ingest: IngestId(0),
        inc: Inc(0),
        from: 0,
        to: 1,
    };
    let piece = Piece {
        stamp,
        base: 0,
        part: PartId(0),
        ops: Ops::of(ops),
    };
    let mut touched = Touched::new(alloc);
    touched.note(piece.ops.as_slice())?;
    graph.apply(Epoch(1), &piece)?;
    let difference = graph.difference(&before, &touched)?;
    let empty = PartGraph::new(alloc, PartId(0), 1)?;
    Ok((difference, delta(&empty, &graph)?))
}

fn numbered(op: Op) -> Numbered {
    Numbered { number: 1, op }
}

#[test]
fn a_follow_is_new_and_now(rt: HostRuntime) -> Result<(), Fail> {
    let ops = vec![in rt.alloc();
        numbered(Op::AddOut(FOLLOWER, FOLLOWED)),
        numbered(Op::AddIn(FOLLOWED, FOLLOWER)),
        numbered(Op::DropIn(FOLLOWED, FOLLOWER)),
        numbered(Op::Said(FOLLOWED)),
        numbered(Op::Said(FOLLOWED)),
    ]?;
    let (difference, whole) = deltas_of(rt.alloc(), ops)?;
    let pair = Pair {
        user: FOLLOWER,
        other: FOLLOWED,
    };
    for delta in [&difference, &whole] {
        assert!(rt; delta.new_out() == [pair].as_slice());
        assert!(rt; delta.now_out() == [pair].as_slice());
        assert_eq!(rt; delta.gone_out().len(), 0);
        assert_eq!(rt; delta.new_in().len(), 1);
        assert_eq!(rt; delta.now_in().len(), 0);
        assert_eq!(rt; delta.said().len(), 1);
        let shared = delta.share()?;
        assert!(rt; shared.said()[0].number == 2);
    }
    Ok(())
}
