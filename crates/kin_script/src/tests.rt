use super::*;
use kin_ids::{Inc, IngestId, PartId, User};
use std::alloc::Global;
use std::process::Abort;
use std::test::Fail;

// Reads a schedule over two nodes and three partitions.
fn read(alloc: Global, text: &[u8]) -> Result<Vec<Line>, ScriptFault> {
    read_script(alloc, text, 2, 3)
}

const EVENTS: [(&str, Event); 14] = [
    (
        "stamp 1 16",
        Event::Stamp {
            ingest: IngestId(1),
            n: 16,
        },
    ),
    (
        "deliver 2 1 65535 2097152",
        Event::Deliver {
            part: PartId(2),
            ingest: IngestId(1),
            inc: Inc(65535),
            to: 2097152,
        },
    ),
    (
        "deliver 0 0 0 0",
        Event::Deliver {
            part: PartId(0),
            ingest: IngestId(0),
            inc: Inc(0),
            to: 0,
        },
    ),
    ("report 2", Event::Report { part: PartId(2) }),
    (
        "raise 1",
        Event::Raise {
            ingest: IngestId(1),
        },
    ),
    ("cut", Event::Cut { n: None }),
    ("cut 1", Event::Cut { n: Some(1) }),
    ("cut 2097152", Event::Cut { n: Some(2097152) }),
    ("commit 0", Event::Commit { part: PartId(0) }),
    ("begin", Event::Begin),
    (
        "turn 4294967295",
        Event::Turn {
            user: User(4294967295),
        },
    ),
    ("mine", Event::Mine),
    (
        "crash 0",
        Event::Crash {
            ingest: IngestId(0),
        },
    ),
    (
        "restart 1",
        Event::Restart {
            ingest: IngestId(1),
        },
    ),
];

const OTHERS: [&str; 30] = [
    "stamp 0 0",
    "stamp 0 17",
    "stamp 2 1",
    "stamp 0",
    "stamp 0 1 1",
    "stamp 0 01",
    "stamp  0 1",
    "stamp 0 1 ",
    " stamp 0 1",
    "stamp\t0 1",
    "Stamp 0 1",
    "stamp 0 +1",
    "stamp 0 1\r",
    "deliver 3 0 0 0",
    "deliver 0 2 0 0",
    "deliver 0 0 65536 0",
    "deliver 0 0 0 2097153",
    "deliver 0 0 0",
    "deliver 0 0 0 0 0",
    "report 3",
    "report",
    "raise 2",
    "cut 0",
    "cut 2097153",
    "cut x",
    "begin 0",
    "turn 4294967296",
    "mines",
    " ",
    "#\0\rcut\n#",
];

#[test]
fn each_event_has_its_line(rt: HostRuntime) {
    for (text, event) in EVENTS {
        let Ok(script) = read(rt.alloc(), text.as_bytes()) else {
            assert!(&rt; false, "at {text}");
            return;
        };
        assert!(&rt;
            script.as_slice() == [Line { number: 1, event }].as_slice(),
            "at {text}"
        );
    }
}

// The last of these lines is silent; every other one is none of a schedule.
#[test]
fn other_lines_are_refused(rt: HostRuntime) {
    for text in OTHERS {
        let silent = text.starts_with("#");
        let answer = read(rt.alloc(), text.as_bytes());
        match answer {
            Ok(script) => assert!(&rt; silent && script.len() == 0, "at {text}"),
            Err(fault) => assert!(&rt; !silent && fault == ScriptFault::Line(1), "at {text}"),
        }
    }
}

#[test]
fn silent_lines_are_counted(rt: HostRuntime) {
    let answer = read(rt.alloc(), b"\r\n# a feed\n\ncut\r\n\nmine");
    let Ok(script) = answer else {
        assert!(&rt; false, "no script");
        return;
    };
    let lines = [
        Line {
            number: 4,
            event: Event::Cut { n: None },
        },
        Line {
            number: 6,
            event: Event::Mine,
        },
    ];
    assert!(&rt; script.as_slice() == lines.as_slice());
    let fault = read(rt.alloc(), b"#\n\ncut\ncut x\ncut y\n").err();
    assert!(&rt; fault == Some(ScriptFault::Line(4)));
}

#[test]
fn too_many_lines(rt: HostRuntime) {
    let Ok(mut text) = Vec::from_elem(rt.alloc(), b'\n', 1048576) else {
        return;
    };
    assert!(&rt; read(rt.alloc(), text.as_slice()).is_ok());
    assert!(&rt; text.push(b'x').is_ok());
    assert!(&rt; read(rt.alloc(), text.as_slice()).err() == Some(ScriptFault::TooLong));
}
