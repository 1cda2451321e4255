//! Who is told of by the deltas of two partitions.

use crate::keys::joined;
use crate::next_users;
use kin_graph::{Delta, PartGraph, Touched};
use kin_ids::{Epoch, Inc, IngestId, Numbered, Op, Ops, PartId, Piece, Stamp, User};
use std::alloc::Global;
use std::test::Fail;

// What these operations of record 1 of node 0 change of an empty store, the only one.
fn delta_of(alloc: Global, ops: Vec<Numbered>) -> Result<Delta, Fail> {
    let mut graph = PartGraph::new(alloc, PartId(0), 1)?;
    let before = graph.snap().share()?;
    let stamp = Stamp {
        ingest: IngestId(0),
        inc: Inc(0),
        from: 0,
        to: 1,
    };
    let piece = Piece {
        stamp,
        base: 0,
        part: PartId(0),
        ops: Ops::of(ops),
    };
    let mut touched = Touched::new(alloc);
    touched.note(piece.ops.as_slice())?;
    graph.apply(Epoch(1), &piece)?;
    let delta = graph.difference(&before, &touched)?;
    Ok(delta)
}

fn numbered(op: Op) -> Numbered {
    Numbered { number: 1, op }
}

#[test]
fn those_told_of_join_the_known(rt: HostRuntime) -> Result<(), Fail> {
    let alloc = rt.alloc();
    let first = vec![in alloc;
        numbered(Op::AddOut(User(7), User(2))),
        numbered(Op::MentionIn(User(4), User(9))),
    ]?;
    let second = vec![in alloc; numbered(Op::AddIn(User(2), User(7)))]?;
    let deltas = vec![in alloc; delta_of(alloc, first)?, delta_of(alloc, second)?]?;
    let table: [(&[u32], Option<&[u32]>); 4] = [
        (&[], Some(&[2, 4, 7])),
        (&[2, 4, 7], None),
        (&[2, 4, 7, 8], None),
        (&[1, 4, 8], Some(&[1, 2, 4, 7, 8])),
    ];
    for (known, wanted) in table {
        let known: Vec<User> = known.iter().map(|number| User(*number)).collect(alloc)?;
        let known = joined(&[], known)?;
        let next = next_users(alloc, &known, &deltas)?;
        match (next, wanted) {
            (Some(users), Some(numbers)) => {
                assert!(rt; users.iter().map(|user| user.0).eq(numbers.iter().copied()));
            }
            (next, wanted) => assert!(rt; next.is_none() && wanted.is_none()),
        }
    }
    Ok(())
}
