//! The answers of one chain to pieces that come in another order, again, or across a restart of their node.

ghost use Rattle.std.specs.Prelude.{◌≡◌};

use crate::{Held, Taken};
use kin_ids::{Inc, IngestId, Ops, PartId, Piece, Stamp};
use std::alloc::Global;
use std::process::Abort;
use std::test::Fail;

const NODE: IngestId = IngestId(0);

// A piece of node 0 without operations.
fn piece(alloc: Global, inc: u16, from: u64, to: u64, base: u64) -> Piece
    ensures node { result.stamp.ingest.0 ≡ 0 }
    ensures from { result.stamp.from ≡ from }
    ensures to { result.stamp.to ≡ to }
    ensures base { result.base ≡ base }
{
    Piece {
        stamp: Stamp {
            ingest: NODE,
            inc: Inc(inc),
            from,
            to,
        },
        base,
        part: PartId(0),
        ops: Ops::new(alloc),
    }
}

// Delivers pieces of node 0 in turn, each given as its incarnation, its range and its base, beside
// the answer that it must get.
fn assert_answers<R: Abort + AllocGlobal>(
    rt: &R,
    deliveries: &[((u16, u64, u64, u64), Taken)],
) -> Result<(), Fail> {
    let mut held = Held::new(rt.alloc(), 1)?;
    for &((inc, from, to, base), answer) in deliveries {
        assert!(rt; base <= from && from < to && to - from <= 16);
        let taken = held.take(piece(rt.alloc(), inc, from, to, base))?;
        assert_eq!(rt; taken, answer, "incarnation {inc}, range {from} to {to}");
    }
    Ok(())
}

#[test]
fn pieces_out_of_order_and_again(rt: HostRuntime) -> Result<(), Fail> {
    assert_answers(
        &rt,
        &[
            ((0, 0, 1, 0), Taken::Held(1)),
            ((0, 0, 1, 0), Taken::Repeat),
            ((0, 0, 1, 0), Taken::Repeat),
        ],
    )?;
    assert_answers(
        &rt,
        &[
            ((0, 1, 2, 0), Taken::Early(0)),
            ((0, 0, 1, 0), Taken::Held(2)),
        ],
    )?;
    assert_answers(
        &rt,
        &[
            ((0, 4, 20, 0), Taken::Early(0)),
            ((0, 2, 4, 0), Taken::Early(0)),
            ((0, 4, 20, 0), Taken::Repeat),
            ((0, 0, 2, 0), Taken::Held(20)),
            ((0, 2, 4, 0), Taken::Repeat),
        ],
    )
}

#[test]
fn restarts_of_the_node(rt: HostRuntime) -> Result<(), Fail> {
    assert_answers(
        &rt,
        &[
            ((0, 0, 1, 0), Taken::Held(1)),
            ((0, 2, 3, 0), Taken::Early(1)),
            ((0, 1, 2, 0), Taken::Held(3)),
            ((1, 1, 3, 1), Taken::Held(3)),
            ((0, 1, 2, 0), Taken::Stale(Inc(1))),
        ],
    )?;
    assert_answers(
        &rt,
        &[
            ((0, 0, 2, 0), Taken::Held(2)),
            ((1, 0, 1, 0), Taken::Held(1)),
        ],
    )?;
    assert_answers(
        &rt,
        &[
            ((1, 0, 1, 0), Taken::Held(1)),
            ((0, 0, 2, 0), Taken::Stale(Inc(1))),
        ],
    )?;
    assert_answers(
        &rt,
        &[
            ((0, 0, 2, 0), Taken::Held(2)),
            ((1, 3, 4, 2), Taken::Early(2)),
            ((1, 2, 3, 2), Taken::Held(4)),
        ],
    )
}

#[test]
fn a_base_inside_a_piece_is_adrift(rt: HostRuntime) -> Result<(), Fail> {
    let alloc = rt.alloc();
    let mut held = Held::new(alloc, 1)?;
    assert_eq!(rt; held.take(piece(alloc, 0, 0, 2, 0))?, Taken::Held(2));
    let adrift = Taken::Adrift {
        base: 1,
        floor: 0,
        top: 2,
    };
    assert_eq!(rt; held.take(piece(alloc, 1, 1, 2, 1))?, adrift);
    assert_eq!(rt;
        (held.inc(NODE), held.floor(NODE), held.top(NODE)),
        (Inc(0), 0, 2)
    );
    assert_eq!(rt; held.chain(NODE).len(), 1);
    assert_eq!(rt;
        (held.count_upto(NODE, 1), held.count_upto(NODE, 2)),
        (0, 1)
    );
    Ok(())
}
