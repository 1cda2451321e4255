//! What worlds answer to calls that the cases of kin_steps don't make.

ghost use Rattle.std.specs.Prelude.{◌≡◌, ◌<◌, ◌≤◌, All, IsTrue};
ghost use Rattle.kin_history.specs.Setting.{IsEvent};
ghost use Rattle.kin_world.specs.Worlds.{HasRoom, setting_of};

use crate::{Sent, World, run};
use kin_feed::read_feed;
use kin_ids::{Epoch, Inc, IngestId, PartId, Stamp, User};
use kin_script::{Event, Outcome, Refusal};
use std::alloc::Global;
use std::process::Abort;
use std::test::Fail;

const NODE: IngestId = IngestId(0);

const PART: PartId = PartId(0);

// The delivery of the first record.
const DELIVERY: Event = Event::Deliver {
    part: PART,
    ingest: NODE,
    inc: Inc(0),
    to: 1,
};

// Whether the world takes the event.
fn fits(world: &World, event: Event) -> bool
    ensures event { IsTrue result → IsEvent (setting_of world.now) event }
    ensures room { IsTrue result → HasRoom world.now event }
{
    let nodes = world.feeds().len();
    let parts = world.parts();
    let room = world.hub().cuts() < u64::from(u32::MAX);
    match event {
        Event::Stamp { ingest, n } => usize::from(ingest.0) < nodes && 0 < n && n <= 16,
        Event::Deliver { part, ingest, .. } => part.0 < parts && usize::from(ingest.0) < nodes,
        Event::Report { part } | Event::Commit { part } => part.0 < parts,
        Event::Raise { ingest } | Event::Crash { ingest } | Event::Restart { ingest } => {
            usize::from(ingest.0) < nodes
        }
        Event::Cut { n: None } => room,
        Event::Cut { n: Some(n) } => room && 0 < n && n <= 2097152,
        Event::Begin | Event::Turn { .. } | Event::Mine => true,
    }
}

// A world of one feed and one partition.
fn world_of(alloc: Global, feed: &[u8]) -> Result<World, Fail> {
    let mut feeds = Vec::new(alloc);
    feeds.push(read_feed(alloc, feed, 100)?)?;
    Ok(World::open(alloc, feeds, 1, &[User(1)])?)
}

fn answer<R: Abort>(rt: &R, world: &mut World, event: Event) -> Result<Outcome, Fail> {
    assert!(rt; fits(world, event));
    Ok(world.step(event)?)
}

#[test]
fn stamps_that_were_made(rt: HostRuntime) -> Result<(), Fail> {
    let mut world = world_of(rt.alloc(), b"f,1,2\nf,3,4\n")?;
    answer(&rt, &mut world, Event::Stamp { ingest: NODE, n: 1 })?;
    answer(&rt, &mut world, Event::Stamp { ingest: NODE, n: 4 })?;
    let stamp = Stamp {
        ingest: NODE,
        inc: Inc(0),
        from: 1,
        to: 2,
    };
    let sent = Sent { stamp, base: 0 };
    assert!(&rt; world.sent_count() == 2 && world.sent_at(1) == Some(sent));
    assert!(&rt; world.find_sent(NODE, Inc(0), 2) == Some(sent));
    assert!(&rt; world.find_sent(NODE, Inc(1), 2).is_none());
    Ok(())
}

#[test]
fn incarnations_run_out(rt: HostRuntime) -> Result<(), Fail> {
    let mut world = world_of(rt.alloc(), b"f,1,2\n")?;
    for inc in 1..=65535 {
        answer(&rt, &mut world, Event::Crash { ingest: NODE })?;
        let back = answer(&rt, &mut world, Event::Restart { ingest: NODE })?;
        assert!(&rt;
            back == Outcome::Restarted {
                inc: Inc(inc),
                base: 0
            }
        );
    }
    answer(&rt, &mut world, Event::Crash { ingest: NODE })?;
    let back = answer(&rt, &mut world, Event::Restart { ingest: NODE })?;
    assert!(&rt; back == Outcome::Refused(Refusal::IncarnationsSpent));
    Ok(())
}

// Whether the world takes each of the events.
fn all_fit(world: &World, events: &[Event]) -> bool
    ensures { IsTrue result → All (IsEvent (setting_of world.now)) events.now }
{
    for event in events {
        if !fits(world, *event) {
            return false;
        }
    }
    true
}

// The first record is stamped, comes, and is agreed.
fn agree<R: Abort + AllocGlobal>(rt: &R, world: &mut World) -> Result<(), Fail> {
    let mut events = vec![in rt.alloc(); DELIVERY; 1]?;
    events.insert(0, Event::Stamp { ingest: NODE, n: 1 })?;
    events.push(Event::Report { part: PART })?;
    events.push(Event::Raise { ingest: NODE })?;
    assert!(rt; all_fit(world, &events));
    assert!(rt; world.hub().cuts() == 0);
    let told = run(rt.alloc(), world, &events)?;
    assert!(rt; told.as_slice().last() == Some(&Outcome::Raised(1)));
    Ok(())
}

// How many events the drain has, and the last answer.
fn drain<R: Abort>(rt: &R, world: &mut World) -> Result<(u64, Option<Outcome>), Fail> {
    let mut last = None;
    for count in 0..100 {
        let Some(event) = world.drain_next() else {
            return Ok((count, last));
        };
        last = Some(answer(rt, world, event)?);
    }
    Ok((100, last))
}

#[test]
fn a_drain(rt: HostRuntime) -> Result<(), Fail> {
    let mut world = world_of(rt.alloc(), b"f,1,2\n")?;
    agree(&rt, &mut world)?;
    assert!(&rt; drain(&rt, &mut world)? == (0, None));
    answer(&rt, &mut world, Event::Cut { n: None })?;
    answer(&rt, &mut world, Event::Cut { n: Some(1) })?;
    let (count, last) = drain(&rt, &mut world)?;
    assert!(&rt; count == 4 && last == Some(Outcome::Mined(Epoch(2))));
    assert!(&rt; world.hub().snapshot(Epoch(1)).is_none());
    assert!(&rt; world.hub().snapshot(Epoch(2)).is_some());
    let values = world.miner().result()?;
    assert!(&rt; values.epoch() == Epoch(2));
    Ok(())
}
