//! Each call that changes a result, and an edge of it.

use crate::{EpochResult, KCount, Num};
use kin_ids::{Epoch, Tag, User};
use std::process::Abort;
use std::test::Fail;

pub(crate) fn tag<R: Abort>(rt: &R, text: &[u8]) -> Tag {
    Tag::read(text).expect(rt, "no tag")
}

fn numbers(found: &EpochResult, u: User) -> [u64; 4] {
    [
        found.in_of(u),
        found.out_of(u),
        found.said_of(u),
        found.rank_of(u),
    ]
}

#[test]
fn an_epoch_is_set(rt: HostRuntime) -> Result<(), Fail> {
    let mut found = EpochResult::new(rt.alloc(), 0)?;
    assert_eq!(rt; found.epoch().0, 0);
    found.set_epoch(Epoch(u32::MAX));
    assert_eq!(rt; found.epoch().0, u32::MAX);
    Ok(())
}

#[test]
fn users_come_once_and_ascend(rt: HostRuntime) -> Result<(), Fail> {
    let mut found = EpochResult::new(rt.alloc(), 1)?;
    for user in [5, 9, 2, 5] {
        found.add_user(User(user))?;
    }
    assert!(rt; found.users() == [User(2), User(5), User(9)].as_slice());
    assert!(rt; numbers(&found, User(5)) == [0; 4] && found.hops_of(0, User(5)) == None);
    Ok(())
}

#[test]
fn a_number_of_one_user_under_one_rule(rt: HostRuntime) -> Result<(), Fail> {
    let table = [
        (Num::In, 3, [3, 0, 0, 0]),
        (Num::Out, 1, [0, 1, 0, 0]),
        (Num::Said, u64::MAX, [0, 0, u64::MAX, 0]),
        (Num::Rank, 0, [0; 4]),
        (Num::Rank, 8, [0, 0, 0, 8]),
    ];
    for (which, number, want) in table {
        let mut found = EpochResult::new(rt.alloc(), 0)?;
        found.add_user(User(7))?;
        found.add_user(User(5))?;
        found.set_number(which, User(5), number)?;
        assert!(rt; numbers(&found, User(5)) == want);
        assert!(rt; numbers(&found, User(7)) == [0; 4]);
    }
    Ok(())
}

#[test]
fn a_tag_comes_and_goes_with_its_users(rt: HostRuntime) -> Result<(), Fail> {
    let (a, go) = (tag(&rt, b"a"), tag(&rt, b"go"));
    let mut found = EpochResult::new(rt.alloc(), 0)?;
    let table: [(Tag, u64, &[Tag]); 6] = [
        (go, 0, &[]),
        (go, 2, &[go]),
        (a, 1, &[a, go]),
        (go, 3, &[a, go]),
        (a, 0, &[go]),
        (go, 0, &[]),
    ];
    for (tag, number, want) in table {
        found.set_tag(tag, number)?;
        assert!(rt; found.tags() == want && found.users_of(tag) == number);
    }
    Ok(())
}

#[test]
fn exposures_of_a_tag_go_with_it(rt: HostRuntime) -> Result<(), Fail> {
    let go = tag(&rt, b"go");
    let list = [KCount { k: 0, users: 2 }, KCount { k: 3, users: 1 }];
    let mut found = EpochResult::new(rt.alloc(), 0)?;
    found.set_tag(go, 3)?;
    found.set_expo(go, list.as_slice())?;
    assert!(rt; found.expo_of(go) == list.as_slice());
    assert!(rt; found.expo_of(tag(&rt, b"a")).is_empty());
    found.set_tag(go, 0)?;
    found.set_tag(go, 1)?;
    assert!(rt; found.expo_of(go).is_empty());
    Ok(())
}

#[test]
fn values_of_users_and_of_others(rt: HostRuntime) -> Result<(), Fail> {
    for (user, hops, close) in [
        (5, Some(0), None),
        (6, Some(2), Some(7)),
        (6, None, Some(0)),
    ] {
        let user = User(user);
        let mut found = EpochResult::new(rt.alloc(), 2)?;
        found.add_user(User(5))?;
        found.set_hops(1, user, hops)?;
        found.set_close(0, user, close)?;
        found.add_user(user)?;
        assert!(rt; found.hops_of(1, user) == hops && found.close_of(0, user) == close);
        for landmark in [0, 2] {
            assert!(rt; found.hops_of(landmark, user) == None);
        }
        assert!(rt; found.hops_of(1, User(4)) == None && found.close_of(1, user) == None);
    }
    Ok(())
}

#[test]
fn users_come_at_once_and_values_stay(rt: HostRuntime) -> Result<(), Fail> {
    let mut found = EpochResult::new(rt.alloc(), 1)?;
    let wide = found.wider(Vec::from_slice(rt.alloc(), &[User(5)])?)?;
    found.widen(wide);
    found.put_number(Num::Rank, User(5), 8);
    found.set_hops(0, User(5), Some(2))?;
    found.set_close(0, User(9), Some(0))?;
    let wide = found.wider(Vec::from_slice(rt.alloc(), &[User(2), User(5), User(9)])?)?;
    found.widen(wide);
    let table = [
        (2, 0, None, None),
        (5, 8, Some(2), None),
        (9, 0, None, Some(0)),
    ];
    for (user, rank, hops, close) in table {
        let user = User(user);
        assert!(rt; found.rank_of(user) == rank && found.hops_of(0, user) == hops);
        assert!(rt; found.close_of(0, user) == close);
    }
    Ok(())
}

#[test]
fn walks_go_out_and_come_back(rt: HostRuntime) -> Result<(), Fail> {
    let user = User(5);
    let mut found = EpochResult::new(rt.alloc(), 1)?;
    found.set_hops(0, user, Some(2))?;
    found.set_close(0, user, Some(7))?;
    let walks = found.take_walks();
    assert!(rt; found.hops_of(0, user) == None && found.close_of(0, user) == None);
    found.put_walks(walks);
    assert!(rt; found.hops_of(0, user) == Some(2) && found.close_of(0, user) == Some(7));
    Ok(())
}

#[test]
fn tags_come_at_once_and_exposures_stay(rt: HostRuntime) -> Result<(), Fail> {
    let (a, go) = (tag(&rt, b"a"), tag(&rt, b"go"));
    let list = [KCount { k: 0, users: 2 }, KCount { k: 3, users: 1 }];
    let table: [(Tag, &[KCount]); 2] = [(go, list.as_slice()), (a, &[])];
    for (tag, want) in table {
        let mut found = EpochResult::new(rt.alloc(), 0)?;
        found.set_tag(go, 3)?;
        found.set_expo(go, list.as_slice())?;
        let tags = Vec::from_slice(rt.alloc(), &[tag])?;
        let other = found.tagged(tags, Vec::from_slice(rt.alloc(), &[4])?)?;
        found.retag(other);
        assert!(rt; found.tags() == [tag].as_slice() && found.users_of(tag) == 4);
        assert!(rt; found.expo_of(tag) == want);
        found.put_tag(tag, 9);
        assert!(rt; found.users_of(tag) == 9 && found.expo_of(tag) == want);
    }
    Ok(())
}
