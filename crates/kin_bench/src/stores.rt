//! Follows, applied to one partition's store one by one.

ghost use Rattle.std.specs.Prelude.{◌≡◌, ◌<◌, ◌+◌, IfOk, OnOk};
ghost use Rattle.kin_bench.specs.Room.{HasRoom, both_halves};

use kin_graph::PartGraph;
use kin_ids::{Epoch, Inc, IngestId, Memory, Numbered, Op, Ops, PartId, Piece, Stamp, User};
use std::alloc::Global;

// The piece of a follow of `v` by `u`, record `from` + 1, where there is one partition.
fn follow_piece(alloc: Global, from: u64, u: User, v: User) -> Result<Piece, Memory>
    requires { from < u64.MAX }
    ensures part { IfOk result (λ x. x.part.0 ≡ 0) }
    ensures ops { IfOk result (λ x. x.ops ≡ both_halves (from + 1) u v) }
{
    let mut ops = Ops::new(alloc);
    ops.push(Numbered {
        number: from + 1,
        op: Op::AddOut(u, v),
    })?;
    ops.push(Numbered {
        number: from + 1,
        op: Op::AddIn(v, u),
    })?;
    let stamp = Stamp {
        ingest: IngestId(0),
        inc: Inc(0),
        from,
        to: from + 1,
    };
    Ok(Piece {
        stamp,
        base: 0,
        part: PartId(0),
        ops,
    })
}

fn follow(alloc: Global, store: &mut PartGraph, from: u64, u: User, v: User) -> Result<(), Memory>
    requires room { HasRoom store.old }
    requires fits { from < u64.MAX }
    ensures { OnOk result (HasRoom store.new) }
{
    let piece = follow_piece(alloc, from, u, v)?;
    store.apply(Epoch(1), &piece)?;
    Ok(())
}

/// As many users follow user 0.
pub fn celebrity(alloc: Global, n: u32) -> Result<(), Memory> {
    let mut store = PartGraph::new(alloc, PartId(0), 1)?;
    for left in 0..n {
        follow(alloc, &mut store, u64::from(left), User(n - left), User(0))?;
    }
    Ok(())
}

/// As many follows, each between two users of its own.
pub fn spread(alloc: Global, n: u32) -> Result<(), Memory> {
    let mut store = PartGraph::new(alloc, PartId(0), 1)?;
    for left in 0..n {
        let u = n - left;
        follow(alloc, &mut store, u64::from(left), User(u), User(u ^ 1))?;
    }
    Ok(())
}
