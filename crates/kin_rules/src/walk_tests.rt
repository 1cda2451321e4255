use crate::edges::Edges;
use crate::push_rules::{Distance, DistanceFrom};
use crate::walks::walk_values;
use crate::{Costs, Index};
use kin_ids::User;
use std::test::Fail;

#[test]
fn walks_of_a_detour(rt: HostRuntime) -> Result<(), Fail> {
    // 1 follows 2 and mentions 3, which mentions 2
    let index = Index::of(rt.alloc(), &[User(1), User(2), User(3)])?;
    let follow_rows: [&[usize]; 3] = [&[1], &[], &[]];
    let mention_rows: [&[usize]; 3] = [&[2], &[], &[1]];
    let mut follows = Edges::new(rt.alloc());
    for row in follow_rows {
        follows.push_row(row)?;
    }
    let mut mentions = Edges::new(rt.alloc());
    for row in mention_rows {
        mentions.push_row(row)?;
    }
    let table = [
        (1, [Some(0), Some(1), None], [Some(0), Some(2), Some(1)]),
        (2, [None, Some(0), None], [None, Some(0), None]),
        (3, [None, None, Some(0)], [None, Some(1), Some(0)]),
        (9, [None; 3], [None; 3]),
    ];
    for (landmark, hops, close) in table {
        for (distance, want) in [(Distance::Hops, hops), (Distance::Close, close)] {
            let rule = DistanceFrom {
                landmark: User(landmark),
                distance,
            };
            let found = walk_values(rt.alloc(), &index, &follows, &mentions, &rule)?;
            assert!(rt; found.as_slice() == want.as_slice());
        }
    }
    Ok(())
}

#[test]
fn costs_are_set_and_removed(rt: HostRuntime) -> Result<(), Fail> {
    let mut costs = Costs::new(rt.alloc());
    costs.set(User(7), 3)?;
    costs.set(User(2), 0)?;
    costs.set(User(7), 1)?;
    assert!(rt;
        costs.of(User(7)) == Some(1) && costs.of(User(2)) == Some(0) && costs.of(User(1)) == None
    );
    costs.remove(User(2));
    assert!(rt; costs.of(User(2)) == None && costs.of(User(7)) == Some(1));
    Ok(())
}
