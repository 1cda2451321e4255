ghost use Rattle.std.specs.Prelude.{◌≡◌, length, IfOk};

use super::*;
use kin_ids::{Inc, IngestId, Items, Tag};
use std::test::Fail;

fn tweet(rt: HostRuntime) -> Result<Vec<Record>, Fail>
    ensures { IfOk result (λ records. length records.items ≡ 1) }
{
    let mut items = Items::new(rt.alloc());
    items.push(Item::At(User(7)))?;
    if let Some(tag) = Tag::read(b"go") {
        items.push(Item::Hash(tag))?;
    }
    let mut records = Vec::new(rt.alloc());
    records.push(Record::Tweet { u: User(5), items })?;
    Ok(records)
}

fn at(op: Op) -> Numbered {
    Numbered { number: 1, op }
}

#[test]
fn a_tweet_over_two_partitions(rt: HostRuntime) -> Result<(), Fail> {
    let Some(go) = Tag::read(b"go") else {
        return Ok(());
    };
    let records = tweet(rt)?;
    let stamp = Stamp {
        ingest: IngestId(0),
        inc: Inc(0),
        from: 0,
        to: 1,
    };
    let all = pieces(rt.alloc(), stamp, 0, records.as_slice(), 2)?;
    assert_eq!(rt; all.len(), 2);
    let tagged = [at(Op::TagUse(go, User(5)))];
    let rest = [
        at(Op::MentionOut(User(5), User(7))),
        at(Op::MentionIn(User(7), User(5))),
        at(Op::Said(User(7))),
        at(Op::Use(User(5), go)),
    ];
    let expected = [tagged.as_slice(), rest.as_slice()];
    for (piece, ops) in all.iter().zip(expected) {
        assert!(rt; piece.ops.as_slice() == ops);
    }
    let alone = piece_of(rt.alloc(), stamp, 0, records.as_slice(), 2, PartId(1))?;
    assert!(rt; alone.ops.as_slice() == rest.as_slice());
    Ok(())
}
