//! What the world answers to a line.

ghost use Rattle.std.specs.Prelude.{◌<◌, ◌≤◌, IsTrue};
ghost use Rattle.kin_history.specs.Setting.{IsEvent};
ghost use Rattle.kin_world.specs.Worlds.{HasRoom, setting_of};

use crate::deltas::print_deltas;
use crate::faults::Fault;
use crate::lines::{Asked, read_line};
use crate::opens::open;
use crate::results::print_result;
use crate::stores::print_store;
use crate::texts::{Told, Vector};
use kin_hub::Hub;
use kin_ids::Epoch;
use kin_script::Event;
use kin_world::World;
use std::alloc::Global;

// Whether the ids and numbers of an event are those of the world, which has room for it.
fn fits(world: &World, event: Event) -> bool
    ensures event { IsTrue result → IsEvent (setting_of world.now) event }
    ensures room { IsTrue result → HasRoom world.now event }
{
    let room = world.hub().cuts() < u64::from(u32::MAX);
    let nodes = world.feeds().len();
    let parts = world.parts();
    match event {
        Event::Stamp { ingest, n } => usize::from(ingest.0) < nodes && 0 < n && n <= 16,
        Event::Deliver { part, ingest, .. } => part.0 < parts && usize::from(ingest.0) < nodes,
        Event::Report { part } | Event::Commit { part } => part.0 < parts,
        Event::Raise { ingest } | Event::Crash { ingest } | Event::Restart { ingest } => {
            usize::from(ingest.0) < nodes
        }
        Event::Cut { n: Some(n) } => room && 0 < n && n <= 2097152,
        Event::Cut { n: None } => room,
        Event::Begin | Event::Turn { .. } | Event::Mine => true,
    }
}

fn step<R: Print>(rt: &R, world: &mut World, event: Event) -> Result<(), Fault> {
    if fits(world, event) {
        let told = Told(world.step(event)?);
        println!(rt; "{told}")?;
    } else {
        println!(rt; "bad line")?;
    }
    Ok(())
}

// Prints where each cut epoch ends.
fn print_vectors<R: Print>(rt: &R, hub: &Hub) -> Result<(), Fault> {
    for k in 1..=u32::MAX {
        let Some(cut) = hub.cut_of(Epoch(k)) else {
            break;
        };
        println!(rt; "{}", Vector(cut))?;
    }
    Ok(())
}

// Prints the graph at the end of an epoch.
fn print_snapshot<R: Print + Alloc<A = Global>>(rt: &R, hub: &Hub, k: Epoch) -> Result<(), Fault> {
    match hub.snapshot(k) {
        Some(snap) => {
            println!(rt; "store {}", k.0)?;
            print_store(rt, snap)
        }
        None => Ok(println!(rt; "none")?),
    }
}

// Prints what an epoch changed, by partitions.
fn print_changes<R: Print + Alloc<A = Global>>(rt: &R, hub: &Hub, k: Epoch) -> Result<(), Fault> {
    match hub.deltas(k) {
        Some(deltas) => {
            println!(rt; "deltas {}", k.0)?;
            print_deltas(rt, deltas)
        }
        None => Ok(println!(rt; "none")?),
    }
}

/// Prints what the world answers to a line, or `bad line` for a line outside the grammar or before the first world. A line that begins
/// a case gives a new world.
pub(crate) fn answer<R: Print + Alloc<A = Global>>(
    rt: &R,
    world: &mut Option<World>,
    line: &str,
) -> Result<(), Fault> {
    let words: Vec<&str> = line.split(' ').collect(rt.alloc())?;
    match (read_line(words.as_slice()), world.as_mut()) {
        (
            Some(
                Asked::World {
                    parts,
                    feeds,
                    landmarks,
                },
            ),
            _,
        ) => begin(rt, world, open(rt.alloc(), parts, feeds, landmarks)?, line),
        (Some(Asked::Event(event)), Some(world)) => step(rt, world, event),
        (Some(Asked::Vectors), Some(world)) => print_vectors(rt, world.hub()),
        (Some(Asked::Result), Some(world)) => print_result(rt, world.miner()),
        (Some(Asked::Store(k)), Some(world)) => print_snapshot(rt, world.hub(), k),
        (Some(Asked::Deltas(k)), Some(world)) => print_changes(rt, world.hub(), k),
        _ => Ok(println!(rt; "bad line")?),
    }
}

// Begins a case with its world, and prints its line again.
fn begin<R: Print>(
    rt: &R,
    world: &mut Option<World>,
    opened: Option<World>,
    line: &str,
) -> Result<(), Fault> {
    match opened {
        Some(opened) => {
            *world = Some(opened);
            println!(rt; "{line}")?;
        }
        None => println!(rt; "bad line")?,
    }
    Ok(())
}
