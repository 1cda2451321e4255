//! How often engines ask for edges, and for values, in epochs that change little.

ghost use Rattle.std.specs.Prelude.{◌≡◌, ◌<◌, All, IfOk, IsTrue, OnOk};
ghost use Rattle.kin_history.specs.Setting.{IsEvent};
ghost use Rattle.kin_world.specs.Stands.{HasHistory};
ghost use Rattle.kin_world.specs.Worlds.{setting_of};

use crate::{
    CountedExposure, CountedRank, CountedWalk, follow_layers, follow_walks, start_layers,
    start_walks,
};
use kin_feed::read_feed;
use kin_graph::Steps;
use kin_hops::{Close, Hops};
use kin_ids::{Inc, IngestId, PartId, User};
use kin_rules::exposure_rules::Exposure;
use kin_rules::rank_rules::Rank;
use kin_rules::{PullRule, PushRule};
use kin_script::Event;
use kin_world::{World, run};
use std::alloc::Global;
use std::marker::Brand;
use std::process::Abort;
use std::sync::Arc;
use std::sync::atomic::{AtomicU64, Ordering};
use std::sync::ledger::{Blank, Ledger};
use std::test::Fail;

const NODE: IngestId = IngestId(0);

const PART: PartId = PartId(0);

// Whether the world takes the event.
fn fits(world: &World, event: Event) -> bool
    ensures { IsTrue result → IsEvent (setting_of world.now) event }
{
    let nodes = world.feeds().len();
    let parts = world.parts();
    match event {
        Event::Stamp { ingest, n } => usize::from(ingest.0) < nodes && 0 < n && n <= 16,
        Event::Deliver { part, ingest, .. } => part.0 < parts && usize::from(ingest.0) < nodes,
        Event::Report { part } | Event::Commit { part } => part.0 < parts,
        Event::Raise { ingest } => usize::from(ingest.0) < nodes,
        Event::Cut { n: None } => true,
        _ => false,
    }
}

// Whether the world takes each of the events.
fn all_fit(world: &World, events: &[Event]) -> bool
    ensures { IsTrue result → All (IsEvent (setting_of world.now)) events.now }
{
    for event in events {
        if !fits(world, *event) {
            return false;
        }
    }
    true
}

// Brings an epoch of the records between two positions, each in a transaction of its own.
fn bring(events: &mut Vec<Event>, from: u64, to: u64) -> Result<(), Fail> {
    for at in from..to {
        events.push(Event::Stamp { ingest: NODE, n: 1 })?;
        events.push(Event::Deliver {
            part: PART,
            ingest: NODE,
            inc: Inc(0),
            to: at + 1,
        })?;
    }
    events.push(Event::Report { part: PART })?;
    events.push(Event::Raise { ingest: NODE })?;
    events.push(Event::Cut { n: None })?;
    events.push(Event::Commit { part: PART })?;
    Ok(())
}

// Gives a world that has cut nothing these events.
fn play<R: Abort>(rt: &R, alloc: Global, world: &mut World, events: &[Event]) -> Result<(), Fail>
    requires { HasHistory world.old }
    ensures { OnOk result (HasHistory world.new) }
{
    assert!(rt; all_fit(world, events));
    assert!(rt; world.hub().cuts() == 0);
    assert!(rt; events.len() < 10000);
    run(alloc, world, events)?;
    Ok(())
}

// A world of one feed and one partition, whose epochs end at these positions and aren't mined.
fn world_of<R: Abort>(rt: &R, alloc: Global, feed: &[u8], ends: [u64; 3]) -> Result<World, Fail>
    ensures { IfOk result (λ w. HasHistory w) }
{
    let mut feeds = Vec::new(alloc);
    feeds.push(read_feed(alloc, feed, 2000)?)?;
    let mut world = World::open(alloc, feeds, 1, &[])?;
    let [first, second, third] = ends;
    let mut events = Vec::new(alloc);
    bring(&mut events, 0, first)?;
    bring(&mut events, first, second)?;
    bring(&mut events, second, third)?;
    play(rt, alloc, &mut world, events.as_slice())?;
    Ok(world)
}

// The calls that an engine of walks makes in each of three epochs, edges and offers together.
fn walk_calls<R: Abort, W: PushRule + Drop, L: Ledger>(
    rt: &R,
    alloc: Global,
    world: &World,
    rule: W,
    calls: &AtomicU64,
    blank: Blank,
) -> Result<[u64; 3], Fail>
    requires has { HasHistory world.now }
    requires name { blank.name ≡ L.name }
    requires parts { (blank.parts ≡ L.parts) × (0 < L.parts) }
{
    let mut steps = Steps::<L>::new(blank);
    let mut engine = start_walks(alloc, world, rule)?;
    assert!(rt; follow_walks(world, 0, &mut engine, calls, &mut steps)?);
    let first = calls.swap(0, Ordering::SeqCst);
    assert!(rt; follow_walks(world, 1, &mut engine, calls, &mut steps)?);
    let second = calls.swap(0, Ordering::SeqCst);
    assert!(rt; follow_walks(world, 2, &mut engine, calls, &mut steps)?);
    Ok([first, second, calls.swap(0, Ordering::SeqCst)])
}

// The calls that an engine of layers makes in each of three epochs, edges and values together.
fn layer_calls<R: Abort, W: PullRule + Drop, L: Ledger>(
    rt: &R,
    alloc: Global,
    world: &World,
    rule: W,
    calls: &AtomicU64,
    blank: Blank,
) -> Result<[u64; 3], Fail>
    requires has { HasHistory world.now }
    requires name { blank.name ≡ L.name }
    requires parts { (blank.parts ≡ L.parts) × (0 < L.parts) }
{
    let mut steps = Steps::<L>::new(blank);
    let mut engine = start_layers(alloc, world, rule)?;
    assert!(rt; follow_layers(world, 0, &mut engine, calls, &mut steps)?);
    let first = calls.swap(0, Ordering::SeqCst);
    assert!(rt; follow_layers(world, 1, &mut engine, calls, &mut steps)?);
    let second = calls.swap(0, Ordering::SeqCst);
    assert!(rt; follow_layers(world, 2, &mut engine, calls, &mut steps)?);
    Ok([first, second, calls.swap(0, Ordering::SeqCst)])
}

fn walks<R: Abort, W: PushRule + Drop>(
    rt: &R,
    alloc: Global,
    world: &World,
    rule: W,
    calls: &AtomicU64,
) -> Result<[u64; 3], Fail>
    requires { HasHistory world.now }
{
    walk_calls::<_, _, Brand>(rt, alloc, world, rule, calls, Blank::new(1))
}

fn layers<R: Abort, W: PullRule + Drop>(
    rt: &R,
    alloc: Global,
    world: &World,
    rule: W,
    calls: &AtomicU64,
) -> Result<[u64; 3], Fail>
    requires { HasHistory world.now }
{
    layer_calls::<_, _, Brand>(rt, alloc, world, rule, calls, Blank::new(1))
}

// How often engines of hops, closeness, rank and exposure ask for edges in three epochs of a world.
fn edge_calls<R: Abort>(rt: &R, alloc: Global, world: &World) -> Result<[[u64; 3]; 4], Fail>
    requires { HasHistory world.now }
{
    let calls = &AtomicU64::new(0);
    let landmark = User(1);
    Ok([
        walks(rt, alloc, world, Hops { landmark }, calls)?,
        walks(rt, alloc, world, Close { landmark }, calls)?,
        layers(rt, alloc, world, Rank, calls)?,
        layers(rt, alloc, world, Exposure, calls)?,
    ])
}

// How often they ask for edges, and their rules for offers and values, together.
fn all_calls<R: Abort>(rt: &R, alloc: Global, world: &World) -> Result<[[u64; 3]; 4], Fail>
    requires { HasHistory world.now }
{
    let shared = Arc::new(alloc, AtomicU64::new(0))?;
    let calls = &*shared;
    let landmark = User(1);
    let hops = CountedWalk {
        rule: Hops { landmark },
        calls,
    };
    let close = CountedWalk {
        rule: Close { landmark },
        calls,
    };
    let rank = CountedRank {
        calls: shared.clone()?,
    };
    let exposure = CountedExposure {
        calls: shared.clone()?,
    };
    Ok([
        walks(rt, alloc, world, hops, calls)?,
        walks(rt, alloc, world, close, calls)?,
        layers(rt, alloc, world, rank, calls)?,
        layers(rt, alloc, world, exposure, calls)?,
    ])
}

// Four follows, then one more, and then none.
#[test]
fn an_epoch_without_changes_asks_for_no_edge(rt: HostRuntime) -> Result<(), Fail> {
    let feed = b"f,1,2\nf,2,3\nf,3,4\nf,4,5\nf,1,4\n";
    let world = world_of(&rt, rt.alloc(), feed, [4, 5, 5])?;
    for [first, second, third] in edge_calls(&rt, rt.alloc(), &world)? {
        assert!(&rt; first > 0 && second > 0 && third == 0);
    }
    Ok(())
}

// A line of a thousand follows, then a follow between two others, and then none.
#[test]
fn a_follow_apart_calls_little(rt: HostRuntime) -> Result<(), Fail> {
    let mut feed = String::new(rt.alloc());
    for u in 1..=1000 {
        write!(feed, "f,{},{}\n", u, u + 1)?;
    }
    feed.push_str("f,5000,5001\n")?;
    let world = world_of(&rt, rt.alloc(), feed.as_bytes(), [1000, 1001, 1001])?;
    for [first, second, _] in all_calls(&rt, rt.alloc(), &world)? {
        assert!(&rt; first >= 1000 && second < 500);
    }
    Ok(())
}
