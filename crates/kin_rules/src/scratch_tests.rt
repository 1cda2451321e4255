//! Every rule on one small graph, with values computed by hand.

use crate::exposure_rules::Exposure;
use crate::push_rules::{Distance, DistanceFrom};
use crate::rank_rules::Rank;
use crate::result_tests::tag;
use crate::*;
use kin_graph::{PartGraph, View};
use kin_ids::{Epoch, Inc, IngestId, Memory, Numbered, Op, Ops, PartId, Piece, Stamp, Tag, User};
use std::alloc::Global;
use std::process::Abort;
use std::test::Fail;

fn follow(u: u32, v: u32) -> [Op; 2] {
    [Op::AddOut(User(u), User(v)), Op::AddIn(User(v), User(u))]
}

fn unfollow(u: u32, v: u32) -> [Op; 2] {
    [Op::DropOut(User(u), User(v)), Op::DropIn(User(v), User(u))]
}

fn tweet(u: u32, t: Tag) -> [Op; 2] {
    [Op::Use(User(u), t), Op::TagUse(t, User(u))]
}

fn mention(u: u32, v: u32) -> [Op; 3] {
    [
        Op::MentionOut(User(u), User(v)),
        Op::MentionIn(User(v), User(u)),
        Op::Said(User(v)),
    ]
}

fn put_record(ops: &mut Vec<Numbered>, number: u64, record: &[Op]) -> Result<(), Memory> {
    for op in record {
        ops.push(Numbered { number, op: *op })?;
    }
    Ok(())
}

// The store of the one partition, with these records of node 0, in epoch 1.
fn store_of(alloc: Global, records: &[&[Op]]) -> Result<PartGraph, Memory> {
    let mut ops = Vec::new(alloc);
    for (i, record) in records.iter().enumerate() {
        put_record(&mut ops, i as u64 + 1, record)?;
    }
    let mut store = PartGraph::new(alloc, PartId(0), 1)?;
    let stamp = Stamp {
        ingest: IngestId(0),
        inc: Inc(0),
        from: 0,
        to: records.len() as u64,
    };
    let piece = Piece {
        stamp,
        base: 0,
        part: PartId(0),
        ops: Ops::of(ops),
    };
    store.apply(Epoch(1), &piece)?;
    Ok(store)
}

// 1 and 4 follow each other, 1 follows 2, and 2 follows 3 no longer. 2 uses "go" and then 1 does, and 3 uses "a".
// 1 mentions 3.
fn four_users(alloc: Global, a: Tag, go: Tag) -> Result<PartGraph, Memory> {
    let records: [&[Op]; 9] = [
        &follow(1, 2),
        &follow(2, 3),
        &follow(4, 1),
        &tweet(2, go),
        &tweet(1, go),
        &unfollow(2, 3),
        &tweet(3, a),
        &follow(1, 4),
        &mention(1, 3),
    ];
    store_of(alloc, &records)
}

fn assert_numbers<R: Abort>(rt: &R, found: &EpochResult) {
    let table = [
        (0, 0, 0, 0, 0),
        (1, 1, 2, 0, 1428222),
        (2, 1, 0, 0, 856933),
        (3, 0, 0, 1, 0),
        (4, 1, 1, 0, 856933),
        (9, 0, 0, 0, 0),
    ];
    for (user, followers, followed, said, rank) in table {
        let user = User(user);
        assert_eq!(rt;
            (found.in_of(user), found.out_of(user)),
            (followers, followed)
        );
        assert_eq!(rt; (found.said_of(user), found.rank_of(user)), (said, rank));
    }
}

fn assert_tags<R: Abort>(rt: &R, found: &EpochResult, a: Tag, go: Tag) {
    let one = |k: u64| KCount { k, users: 1 };
    assert!(rt; found.tags() == [a, go].as_slice());
    assert_eq!(rt; (found.users_of(a), found.users_of(go)), (1, 2));
    assert!(rt; found.expo_of(a) == [one(0)].as_slice());
    assert!(rt; found.expo_of(go) == [one(0), one(1)].as_slice());
}

// From 1, from 9 that is no vertex, and from 4. There is no fourth landmark.
fn assert_walks<R: Abort>(rt: &R, found: &EpochResult) {
    let none = [None; 4];
    let table = [
        (
            0,
            [Some(0), Some(1), Some(2), Some(1)],
            [Some(0), Some(3), Some(1), Some(3)],
        ),
        (1, none, none),
        (
            2,
            [Some(1), Some(2), Some(3), Some(0)],
            [Some(3), Some(6), Some(4), Some(0)],
        ),
        (3, none, none),
    ];
    for (landmark, hops, close) in table {
        for user in 1..5 {
            let at = user as usize - 1;
            assert!(rt; found.hops_of(landmark, User(user)) == hops[at]);
            assert!(rt; found.close_of(landmark, User(user)) == close[at]);
        }
        assert!(rt; found.hops_of(landmark, User(9)) == None);
    }
}

#[test]
fn eight_rules_from_scratch(rt: HostRuntime) -> Result<(), Fail> {
    let (a, go) = (tag(&rt, b"a"), tag(&rt, b"go"));
    let store = four_users(rt.alloc(), a, go)?;
    let users = store.users()?;
    assert!(rt; users.len() == 4);
    let result = scratch(rt.alloc(), &store, Epoch(1), &[User(1), User(9), User(4)])?;
    assert_eq!(rt; result.epoch().0, 1);
    assert!(rt; result.users() == users.as_slice());
    assert_numbers(&rt, &result);
    assert_tags(&rt, &result, a, go);
    assert_walks(&rt, &result);
    Ok(())
}

#[test]
fn costs_of_walks_on_a_view(rt: HostRuntime) -> Result<(), Fail> {
    let (a, go) = (tag(&rt, b"a"), tag(&rt, b"go"));
    let store = four_users(rt.alloc(), a, go)?;
    let users = store.users()?;
    assert!(rt; users.len() == 4);
    let rule = DistanceFrom {
        landmark: User(4),
        distance: Distance::Close,
    };
    let costs = walk_costs(rt.alloc(), &store, &rule)?;
    for (user, want) in [
        (1, Some(3)),
        (2, Some(6)),
        (3, Some(4)),
        (4, Some(0)),
        (9, None),
    ] {
        assert!(rt; costs.of(User(user)) == want);
    }
    Ok(())
}

#[test]
fn each_layer_of_ranks(rt: HostRuntime) -> Result<(), Fail> {
    let (a, go) = (tag(&rt, b"a"), tag(&rt, b"go"));
    let store = four_users(rt.alloc(), a, go)?;
    let layers = layer_values(rt.alloc(), &store, &Rank)?;
    let table = [
        0, 1000000, 1250000, 1375000, 1406250, 1421875, 1425781, 1427734, 1428222,
    ];
    for (layer, want) in table.iter().enumerate() {
        assert!(rt; layers.of(User(1), layer as u32) == Some(want));
        assert!(rt; layers.of(User(3), layer as u32) == Some(&0));
    }
    assert!(rt; layers.of(User(1), 9) == None && layers.of(User(9), 8) == None);
    Ok(())
}

#[test]
fn a_layer_of_exposures(rt: HostRuntime) -> Result<(), Fail> {
    let (a, go) = (tag(&rt, b"a"), tag(&rt, b"go"));
    let store = four_users(rt.alloc(), a, go)?;
    let layers = layer_values(rt.alloc(), &store, &Exposure)?;
    let table: [(u32, &[UseK]); 4] = [
        (1, &[UseK { tag: go, k: 1 }]),
        (2, &[UseK { tag: go, k: 0 }]),
        (3, &[UseK { tag: a, k: 0 }]),
        (4, &[]),
    ];
    for (user, want) in table {
        let found = layers.of(User(user), 1).expect(&rt, "no layer");
        assert!(rt; found.as_slice() == want);
    }
    Ok(())
}
