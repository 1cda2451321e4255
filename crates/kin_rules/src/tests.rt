use super::*;
use kin_ids::{Memory, Tag, User};
use std::alloc::Global;
use std::test::Fail;

fn entries(alloc: Global, list: &[(u32, u64)]) -> Result<Vec<UserNumber>, Memory> {
    Ok(
        list.iter()
            .map(|(user, number)| UserNumber {
                user: User(*user),
                number: *number,
            })
            .collect(alloc)?,
    )
}

#[test]
fn greater_numbers_first_and_ties_by_the_lesser_user(rt: HostRuntime) -> Result<(), Fail> {
    let three = [(9, 1), (2, 1), (4, 3)];
    let greatest = [(0, u64::MAX), (4294967295, u64::MAX), (7, 0)];
    let table: [(&[(u32, u64)], u64, &[(u32, u64)]); 8] = [
        (&[], 10, &[]),
        (&[(5, 0)], 10, &[]),
        (&three, 0, &[]),
        (&three, 1, &[(4, 3)]),
        (&three, 2, &[(4, 3), (2, 1)]),
        (&three, 10, &[(4, 3), (2, 1), (9, 1)]),
        (&greatest, u64::MAX, &greatest[..2]),
        (&[(1, 2), (1, 2)], 10, &[(1, 2), (1, 2)]),
    ];
    for (list, t, want) in table {
        let list = entries(rt.alloc(), list)?;
        let want = entries(rt.alloc(), want)?;
        let top = top_users(rt.alloc(), list.as_slice(), t)?;
        assert!(rt; top.as_slice() == want.as_slice());
    }
    Ok(())
}

#[test]
fn ties_of_tags_by_their_texts(rt: HostRuntime) -> Result<(), Fail> {
    let mut list = Vec::new(rt.alloc());
    for (text, number) in [("go", 2), ("none", 0), ("a", 2), ("launch", 3)] {
        let Some(tag) = Tag::read(text.as_bytes()) else {
            continue;
        };
        list.push(TagNumber { tag, number })?;
    }
    let top = top_tags(rt.alloc(), list.as_slice(), 10)?;
    let want = [
        (b"launch".as_slice(), 3),
        (b"a".as_slice(), 2),
        (b"go".as_slice(), 2),
    ];
    assert_eq!(rt; top.len(), want.len());
    for (entry, (text, number)) in top.iter().zip(want) {
        assert!(rt; entry.tag.bytes() == text && entry.number == number);
    }
    Ok(())
}
