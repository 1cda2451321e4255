use super::*;
use std::alloc::Global;
use std::process::Abort;
use std::test::Fail;

// A text, the number that it writes, and the user.
type Reading<'a> = (&'a str, Option<u64>, Option<User>);

fn read_each(rt: &impl Abort, table: &[Reading]) {
    for (text, number, user) in table {
        assert!(rt; read_decimal(text.as_bytes()) == *number, "at {text}");
        assert!(rt; User::read(text.as_bytes()) == *user, "at {text}");
    }
}

fn refuse_each(rt: &impl Abort, table: &[&[u8]]) {
    for text in table {
        assert!(rt; read_decimal(text).is_none());
        assert!(rt; User::read(text).is_none());
    }
}

#[test]
fn numbers_and_users_at_their_limits(rt: HostRuntime) {
    let table = [
        ("0", Some(0), Some(User(0))),
        ("4294967295", Some(4294967295), Some(User(4294967295))),
        ("4294967296", Some(4294967296), None),
        ("18446744073709551615", Some(18446744073709551615), None),
        ("18446744073709551616", None, None),
    ];
    read_each(&rt, &table);
    let others: [&[u8]; 9] = [
        b"999999999999999999999999999999",
        b"",
        b"00",
        b"01",
        b"+1",
        b"-1",
        b" 1",
        b"1x",
        b"1\xff",
    ];
    refuse_each(&rt, &others);
}

fn read_tags(rt: &impl Abort, table: &[(&str, bool)]) {
    for (text, is_tag) in table {
        let tag = Tag::read(text.as_bytes());
        assert!(rt; tag.is_some() == *is_tag, "at {text}");
        if let Some(tag) = tag {
            assert!(rt; tag.bytes() == text.as_bytes(), "at {text}");
        }
    }
}

#[test]
fn tags_at_their_limits(rt: HostRuntime) {
    let table = [
        ("_", true),
        ("0z9", true),
        ("abcdefghijklmnopqrstuvwx", true),
        ("abcdefghijklmnopqrstuvwxy", false),
        ("", false),
        ("A", false),
        ("a-b", false),
    ];
    read_tags(&rt, &table);
}

fn place_tags(rt: &impl Abort, table: &[(&str, u16, u16)]) {
    for (text, parts, part) in table {
        let (tag, parts) = (Tag::read(text.as_bytes()), *parts);
        if let Some(tag) = tag {
            assert!(rt; 0 < parts);
            assert!(rt; part_of_tag(tag, parts) == PartId(*part), "at {text}");
        }
    }
}

#[test]
fn parts_of_users_and_tags(rt: HostRuntime) {
    assert!(rt; part_of_user(User(7), 2) == PartId(1));
    assert!(rt; part_of_user(User(4294967295), 65535) == PartId(0));
    let table = [
        ("go", 5, 4),
        ("go", 2, 0),
        ("zzzzzzzzzzzzzzzzzzzzzzzz", 65535, 3696),
        ("abcdefghijklmnopqrstuvwx", 1000, 476),
    ];
    place_tags(&rt, &table);
}

// How many items a list has into which one was pushed, and one that was made of what it gives back.
fn pushed<T: Drop>(alloc: Global, item: T) -> Result<(usize, usize), Memory> {
    let mut list = ListOf::new(alloc);
    list.push(item)?;
    let before = list.as_slice().len();
    let again = ListOf::of(list.into_vec());
    Ok((before, again.as_slice().len()))
}

const STAMP: Stamp = Stamp {
    ingest: IngestId(0),
    inc: Inc(0),
    from: 0,
    to: 1,
};

#[test]
fn each_list_takes_an_item(rt: HostRuntime) -> Result<(), Fail> {
    let alloc = rt.alloc();
    let piece = Piece {
        stamp: STAMP,
        base: 0,
        part: PartId(0),
        ops: Ops::new(alloc),
    };
    let op = Numbered {
        number: 1,
        op: Op::Said(User(7)),
    };
    let name = Name::of(String::from_str(alloc, "feed")?);
    assert!(rt; name.as_str() == "feed");
    assert!(rt; pushed(alloc, Item::At(User(7)))? == (1, 1));
    assert!(rt; pushed(alloc, op)? == (1, 1));
    assert!(rt; pushed(alloc, End { inc: Inc(0), to: 1 })? == (1, 1));
    assert!(rt; pushed(alloc, STAMP)? == (1, 1));
    assert!(rt; pushed(alloc, piece)? == (1, 1));
    assert!(rt; pushed(alloc, name)? == (1, 1));
    assert!(rt; pushed(alloc, User(7))? == (1, 1));
    Ok(())
}

#[test]
fn faults_in_words(rt: HostRuntime) -> Result<(), Fail> {
    let alloc = rt.alloc();
    let memory = format!(in alloc; "{}", Memory)?;
    let failed = format!(in alloc; "{}", Failed)?;
    assert!(rt; memory.as_str() == "out of memory");
    assert!(rt; failed.as_str() == "a call on the outside failed");
    Ok(())
}
