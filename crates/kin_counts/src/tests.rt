//! What the first epoch counts.

use crate::{Counts, enter, plan};
use kin_graph::{Delta, PartGraph, Touched};
use kin_ids::{Epoch, Inc, IngestId, Numbered, Op, Ops, PartId, Piece, Stamp, Tag, User};
use kin_rules::EpochResult;
use std::alloc::Global;
use std::test::Fail;

// What these operations of record 1 of node 0 change of an empty store, the only one.
fn delta_of(alloc: Global, ops: Vec<Numbered>) -> Result<Delta, Fail> {
    let mut graph = PartGraph::new(alloc, PartId(0), 1)?;
    let before = graph.snap().share()?;
    let stamp = Stamp {
        ingest: IngestId(0),
        inc: Inc(0),
        from: 0,
        to: 1,
    };
    let piece = Piece {
        stamp,
        base: 0,
        part: PartId(0),
        ops: Ops::of(ops),
    };
    let mut touched = Touched::new(alloc);
    touched.note(piece.ops.as_slice())?;
    graph.apply(Epoch(1), &piece)?;
    let delta = graph.difference(&before, &touched)?;
    Ok(delta)
}

fn numbered(op: Op) -> Numbered {
    Numbered { number: 1, op }
}

#[test]
fn the_first_epoch_is_counted(rt: HostRuntime) -> Result<(), Fail> {
    let alloc = rt.alloc();
    let tag = Tag::read(b"storm").expect(&rt, "no tag");
    let ops = vec![in alloc;
        numbered(Op::AddOut(User(7), User(2))),
        numbered(Op::AddIn(User(2), User(7))),
        numbered(Op::MentionOut(User(7), User(9))),
        numbered(Op::MentionIn(User(9), User(7))),
        numbered(Op::Said(User(9))),
        numbered(Op::Said(User(9))),
        numbered(Op::Use(User(7), tag)),
        numbered(Op::TagUse(tag, User(7))),
    ]?;
    let deltas = vec![in alloc; delta_of(alloc, ops)?]?;
    let mut result = EpochResult::new(alloc, 0)?;
    let planned = plan(alloc, &result, &deltas)?;
    enter(&mut result, planned, &deltas);
    let mut counts = Counts::new(alloc);
    counts.reserve(&deltas)?;
    counts.add(&deltas)?;
    let table: [(u32, u64, u64, u64); 4] = [(2, 1, 0, 0), (7, 0, 1, 0), (9, 0, 0, 2), (8, 0, 0, 0)];
    for (user, ins, outs, said) in table {
        let user = User(user);
        assert_eq!(rt; result.in_of(user), ins);
        assert_eq!(rt; result.out_of(user), outs);
        assert_eq!(rt; result.said_of(user), said);
        assert_eq!(rt; counts.in_of(user), ins);
        assert_eq!(rt; counts.out_of(user), outs);
        assert_eq!(rt; counts.said_of(user), said);
    }
    assert_eq!(rt; result.users().len(), 3);
    assert_eq!(rt; result.users_of(tag), 1);
    assert_eq!(rt; counts.users_of(tag), 1);
    Ok(())
}
