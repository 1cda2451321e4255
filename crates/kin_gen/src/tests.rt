//! Jobs against `tests/jobs.py`, which evaluates the rules draw by draw.

use super::*;
use kin_script::{Event, read_script};
use std::process::Abort;
use std::test::Fail;

// The job of seed 12345 with 16 records.
const FEEDS: [&str; 3] = [
    "f,4,5\nf,1,3\nf,2,0\nf,2,5\nt,3,@4,@2\nt,1,@0,@3,#t20\n",
    "x,0,1\nf,1,4\nf,1,0\nf,1,2\nf,2,5\n",
    "x,5,1\nt,3,@0,#t0\nt,2,@1\nf,3,4\nx,5,0\n",
];

const EVENTS: &str = "stamp 0 10\ndeliver 0 0 0 6\ndeliver 1 0 0 6\ndeliver 2 0 0 6\ndeliver 3 0 0 6
stamp 1 15\ndeliver 3 1 0 5\ndeliver 2 1 0 5\ndeliver 1 1 0 5\ndeliver 0 1 0 5
stamp 2 11\ndeliver 3 2 0 5\ndeliver 2 2 0 5\ndeliver 1 2 0 5\ndeliver 0 2 0 5
report 0\nreport 1\nreport 2\nreport 3\nraise 0\nraise 1\nraise 2\ncut\n";

// Seeds and numbers of records, the hash of the feeds, the number of events and their hash. The last job has a restart.
const JOBS: [(u64, u64, u32, usize, u32); 7] = [
    (0, 1, 1963, 13, 4212158878),
    (1, 2, 3028588195, 19, 1833666214),
    (18446744073709551615, 4, 655072380, 23, 1488449147),
    (9223372036854775808, 100, 2425266039, 64, 287962826),
    (3, 333, 3171218739, 161, 2184508050),
    (99, 1000, 555869641, 460, 1926412876),
    (2024, 12000, 1948545803, 5233, 2226161118),
];

// A number after others makes the hash into hash * 31 + number, modulo 2^32.
fn folded(hash: u32, number: u64) -> u32 {
    hash.wrapping_mul(31)
        .wrapping_add((number % 4294967296) as u32)
}

// The word of the event and its numbers are folded into a hash.
fn folded_event(hash: u32, event: Event) -> u32 {
    match event {
        Event::Stamp { ingest, n } => {
            let node = u64::from(ingest.0);
            folded(folded(folded(hash, 0), node), n)
        }
        Event::Deliver {
            part,
            ingest,
            inc,
            to,
        } => {
            let placed = folded(
                folded(folded(hash, 1), u64::from(part.0)),
                u64::from(ingest.0),
            );
            folded(folded(placed, u64::from(inc.0)), to)
        }
        Event::Report { part } => folded(folded(hash, 2), u64::from(part.0)),
        Event::Raise { ingest } => folded(folded(hash, 3), u64::from(ingest.0)),
        Event::Cut { n: None } => folded(hash, 4),
        Event::Crash { ingest } => folded(folded(hash, 5), u64::from(ingest.0)),
        Event::Restart { ingest } => folded(folded(hash, 6), u64::from(ingest.0)),
        _ => 0,
    }
}

#[test]
fn a_whole_job(rt: HostRuntime) -> Result<(), Fail> {
    let feeds = feeds_of(rt.alloc(), 12345, 16)?;
    assert!(&rt; feeds.len() == 3);
    for (feed, text) in feeds.iter().zip(FEEDS.iter()) {
        assert!(&rt; feed.as_slice() == text.as_bytes());
    }
    let events = events_of(rt.alloc(), 12345, 16)?;
    let script = read_script(rt.alloc(), EVENTS.as_bytes(), 3, 4)?;
    assert!(&rt; events.len() == script.len());
    for (event, line) in events.iter().zip(script.iter()) {
        assert!(&rt; *event == line.event);
    }
    Ok(())
}

#[test]
fn hashes_of_jobs(rt: HostRuntime) -> Result<(), Fail> {
    for (seed, n, bytes, count, hash) in JOBS {
        let mut text = 0;
        for feed in &feeds_of(rt.alloc(), seed, n)? {
            for byte in feed {
                text = folded(text, u64::from(*byte));
            }
        }
        assert!(&rt; text == bytes, "feeds of {seed} and {n}");
        let events = events_of(rt.alloc(), seed, n)?;
        let found = events
            .iter()
            .fold(0, |hash, event| folded_event(hash, *event));
        assert!(&rt;
            events.len() == count && found == hash,
            "events of {seed} and {n}"
        );
    }
    Ok(())
}
