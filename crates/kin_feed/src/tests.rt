use crate::FeedFault;
use crate::feeds::{Feed, read_feed};
use kin_ids::{Item, Record};
use std::alloc::Global;
use std::test::Fail;
use std::thread;

// A record as a word and its users and items.
fn told(alloc: Global, entry: &Record) -> Result<String, Fail> {
    match entry {
        Record::Follow { u, v } => Ok(format!(in alloc; "follow {} {}", u.0, v.0)?),
        Record::Unfollow { u, v } => Ok(format!(in alloc; "unfollow {} {}", u.0, v.0)?),
        Record::Tweet { u, items } => {
            let mut text = format!(in alloc; "tweet {}", u.0)?;
            for item in items.as_slice() {
                text.push_str(told_item(alloc, item)?.as_str())?;
            }
            Ok(text)
        }
        Record::Bad => Ok(String::from_str(alloc, "bad")?),
    }
}

fn told_item(alloc: Global, item: &Item) -> Result<String, Fail> {
    match item {
        Item::At(w) => Ok(format!(in alloc; " @{}", w.0)?),
        Item::Hash(tag) => {
            let mut text = String::from_str(alloc, " #")?;
            for byte in tag.bytes() {
                text.push(char::from(*byte))?;
            }
            Ok(text)
        }
    }
}

// The records of a feed, each followed by a semicolon.
fn told_all(alloc: Global, feed: &Feed) -> Result<String, Fail> {
    let mut text = String::new(alloc);
    for entry in feed.records() {
        text.push_str(told(alloc, entry)?.as_str())?;
        text.push(';')?;
    }
    Ok(text)
}

#[test]
fn rows_of_each_form(rt: HostRuntime) -> Result<(), Fail> {
    let rows: [(&[u8], &str); 16] = [
        (b"", ""),
        (b"\n\r\n\r", ""),
        (b"f,1,2\nf,3,2\n", "follow 1 2;follow 3 2;"),
        (b"f,1,2\rx,1,2", "follow 1 2;unfollow 1 2;"),
        (
            b"f,1,2\r\n\r\n\"t\",\"5\",\"#a\"\r\n",
            "follow 1 2;tweet 5 #a;",
        ),
        (b"\xEF\xBB\xBFf,1,2\n", "follow 1 2;"),
        (b"f,1,2\n\xEF\xBB\xBFf,1,2\n", "follow 1 2;bad;"),
        (b"f,3,3\nf,01,2\nt,5\nf,4294967296,1\n", "bad;bad;bad;bad;"),
        (
            b"f,4294967295,0\nx,0,4294967295",
            "follow 4294967295 0;unfollow 0 4294967295;",
        ),
        (
            b"f\nf,1\nf,1,2,3\nx,1\nf,,2\nf,+1,2\nf,-1,2",
            "bad;bad;bad;bad;bad;bad;bad;",
        ),
        (
            b"f, 1,2\n f,1,2\nF,1,2\ng,1,2\n,1,2\nff,1,2",
            "bad;bad;bad;bad;bad;bad;",
        ),
        (
            b"t,7,@7,#go,@8,#go\nt,1,#_0z",
            "tweet 7 @7 #go @8 #go;tweet 1 #_0z;",
        ),
        (
            b"t,0,#abcdefghijklmnopqrstuvwx\nt,0,#abcdefghijklmnopqrstuvwxy",
            "tweet 0 #abcdefghijklmnopqrstuvwx;bad;",
        ),
        (
            b"t,1,#\nt,1,@\nt,1,#A\nt,1,@01\nt,1,\nt,1,#a,,#b\nt,x,#a",
            "bad;bad;bad;bad;bad;bad;bad;",
        ),
        (
            b"t,1,\"#a\nb\"\nt,1,\"#a\"\"b\"\nt,1,#a\"\n\"f\",1,\"2",
            "bad;bad;bad;follow 1 2;",
        ),
        (
            b"t,1,@2,@2,@2,@2,@2,@2,@2,@2,@2,@2,@2,@2,@2,@2,@2,@2\nt,1,@2,@2,@2,@2,@2,@2,@2,@2,@2,@2,@2,@2,@2,@2,@2,@2,@2",
            "tweet 1 @2 @2 @2 @2 @2 @2 @2 @2 @2 @2 @2 @2 @2 @2 @2 @2;bad;",
        ),
    ];
    for (bytes, want) in rows {
        let feed = read_feed(rt.alloc(), bytes, 100)?;
        assert_eq!(rt; told_all(rt.alloc(), &feed)?.as_str(), want);
    }
    Ok(())
}

#[test]
fn records_up_to_the_limit(rt: HostRuntime) -> Result<(), Fail> {
    for (bytes, limit, fits) in [
        ("", 0, true),
        ("f\n", 0, false),
        ("f\nf", 2, true),
        ("f\nf\n\nf", 2, false),
    ] {
        match read_feed(rt.alloc(), bytes.as_bytes(), limit) {
            Ok(feed) => assert!(rt; fits && feed.len() <= limit, "at {limit}"),
            Err(fault) => assert!(rt; !fits && fault == FeedFault::TooManyRecords, "at {limit}"),
        }
    }
    Ok(())
}

#[test]
fn bad_ones_of_a_range(rt: HostRuntime) -> Result<(), Fail> {
    let feed = read_feed(rt.alloc(), b"f,1,2\nf\nf,2,3\nx\n", 100)?;
    assert_eq!(rt; feed.len(), 4);
    for (from, to, bad) in [
        (0, 0, 0),
        (0, 1, 0),
        (0, 2, 1),
        (1, 2, 1),
        (2, 3, 0),
        (2, 4, 1),
        (0, 4, 2),
        (4, 4, 0),
    ] {
        assert_eq!(rt; feed.bad_between(from, to), bad, "from {from} to {to}");
    }
    Ok(())
}

#[test]
fn read_by_two_threads(rt: HostRuntime) -> Result<(), Fail> {
    let feed = read_feed(rt.alloc(), b"f,1,2\nf\n", 100)?;
    let (len, all) = thread::join(&rt, || feed.len(), || feed.records().len());
    assert_eq!(rt; (len, all), (2, 2));
    let (moved, _) = thread::join(&rt, move || feed.len(), || ());
    assert_eq!(rt; moved, 2);
    Ok(())
}
