use crate::{FileShelf, LoadFault, MemShelf, MemSink, Shelf, Sink, StdSink, load, put_all};
use kin_ids::Failed;
use std::alloc::Global;
use std::test::Fail;
use std::{fs, thread};

// A shelf with a file `a` of seven bytes.
fn shelf_of_one(alloc: Global) -> Result<MemShelf, Fail> {
    let mut shelf = MemShelf::new(alloc);
    shelf.add(String::from_str(alloc, "a")?, bytes_of(alloc, b"abcdefg")?)?;
    Ok(shelf)
}

fn bytes_of(alloc: Global, text: &[u8]) -> Result<Vec<u8>, Fail> {
    let mut bytes = Vec::new(alloc);
    bytes.extend_from_slice(text)?;
    Ok(bytes)
}

#[test]
fn loads_whole_files(rt: HostRuntime) -> Result<(), Fail> {
    for step in [1, 3, 7, 100] {
        for limit in 0..9 {
            let mut shelf = shelf_of_one(rt.alloc())?;
            shelf.limit_step(step);
            match load(rt.alloc(), &mut shelf, "a", limit) {
                Ok(bytes) => assert!(rt; bytes.as_slice() == b"abcdefg".as_slice() && 7 <= limit),
                Err(fault) => assert!(rt; fault == LoadFault::Limit && limit < 7),
            }
        }
    }
    Ok(())
}

// At one byte a read, a load of seven bytes makes eight calls.
#[test]
fn a_load_fails_at_each_call(rt: HostRuntime) -> Result<(), Fail> {
    for call in 1..10 {
        let mut shelf = shelf_of_one(rt.alloc())?;
        shelf.limit_step(1);
        shelf.fail_at(call)?;
        let first = load(rt.alloc(), &mut shelf, "a", 100);
        assert_eq!(rt; first.is_err(), call <= 8, "call {call}");
        let again = load(rt.alloc(), &mut shelf, "a", 100);
        assert_eq!(rt; again.is_err(), call == 9, "call {call}");
    }
    Ok(())
}

#[test]
fn a_name_is_there_once_it_is_added(rt: HostRuntime) -> Result<(), Fail> {
    let mut shelf = shelf_of_one(rt.alloc())?;
    assert_eq!(rt;
        load(rt.alloc(), &mut shelf, "b", 100),
        Err(LoadFault::Read)
    );
    shelf.add(String::from_str(rt.alloc(), "b")?, Vec::new(rt.alloc()))?;
    assert!(rt; load(rt.alloc(), &mut shelf, "b", 0)?.is_empty());
    shelf.add(
        String::from_str(rt.alloc(), "a")?,
        bytes_of(rt.alloc(), b"xy")?,
    )?;
    assert_eq!(rt;
        load(rt.alloc(), &mut shelf, "a", 2)?.as_slice(),
        b"xy".as_slice()
    );
    let mut one = [0];
    assert_eq!(rt; shelf.read_at("a", 1, &mut one), Ok(1));
    assert_eq!(rt; one, *b"y");
    assert_eq!(rt; shelf.read_at("a", u64::MAX, &mut one), Ok(0));
    assert_eq!(rt; shelf.read_at("a", 0, &mut []), Ok(0));
    Ok(())
}

#[test]
fn a_sink_takes_what_fits(rt: HostRuntime) -> Result<(), Fail> {
    for (room, want) in [(0, ""), (3, "abc"), (7, "abcdefg"), (9, "abcdefg")] {
        let mut sink = MemSink::new(rt.alloc(), room)?;
        assert_eq!(rt;
            put_all(&mut sink, b"abcdefg").is_ok(),
            7 <= room,
            "room {room}"
        );
        assert_eq!(rt; sink.bytes(), want.as_bytes(), "room {room}");
        assert_eq!(rt; sink.put(b""), Ok(0), "room {room}");
        assert_eq!(rt; sink.flush(), Ok(()), "room {room}");
    }
    Ok(())
}

#[test]
fn a_sink_fails_where_it_is_told_to(rt: HostRuntime) -> Result<(), Fail> {
    let mut sink = MemSink::new(rt.alloc(), 100)?;
    for call in [2, 4, 5] {
        sink.fail_at(call)?;
    }
    assert_eq!(rt; sink.put(b"a"), Ok(1));
    assert_eq!(rt; sink.put(b"b"), Err(Failed));
    assert_eq!(rt; sink.flush(), Ok(()));
    assert_eq!(rt; sink.flush(), Err(Failed));
    assert_eq!(rt; sink.put(b""), Err(Failed));
    assert_eq!(rt; put_all(&mut sink, b"bc"), Ok(()));
    assert_eq!(rt; sink.bytes(), b"abc".as_slice());
    Ok(())
}

#[test]
fn files_of_the_system(rt: HostRuntime) -> Result<(), Fail> {
    let mut shelf = FileShelf::new(&rt);
    fs::write(&rt, "kin_io_test.csv", b"f,1,2\nf,3,2\n")?;
    assert_eq!(rt;
        load(rt.alloc(), &mut shelf, "kin_io_test.csv", 12)?.as_slice(),
        b"f,1,2\nf,3,2\n".as_slice()
    );
    assert_eq!(rt;
        load(rt.alloc(), &mut shelf, "kin_io_test.csv", 11),
        Err(LoadFault::Limit)
    );
    fs::remove_file(&rt, "kin_io_test.csv")?;
    assert!(rt; load(rt.alloc(), &mut shelf, "/dev/null", 0)?.is_empty());
    assert_eq!(rt;
        load(rt.alloc(), &mut shelf, "/dev/zero", 100000),
        Err(LoadFault::Limit)
    );
    for name in ["no such file", "", "/", "/dev/null/x"] {
        assert_eq!(rt;
            load(rt.alloc(), &mut shelf, name, 100),
            Err(LoadFault::Read),
            "{name}"
        );
    }
    Ok(())
}

#[test]
fn standard_output_from_a_thread(rt: HostRuntime) -> Result<(), Fail> {
    let mut out = StdSink::new(&rt);
    let mut sink = MemSink::new(rt.alloc(), 7)?;
    let (printed, kept) = thread::join(
        &rt,
        move || put_all(&mut out, b"\n").is_ok() && out.flush().is_ok(),
        move || put_all(&mut sink, b"abcdefg").is_ok() && sink.bytes() == b"abcdefg".as_slice(),
    );
    assert!(rt; printed && kept);
    Ok(())
}
