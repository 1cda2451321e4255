//! Events of a world: three nodes stamp in turn, each transaction goes to all of four partitions, and after every
//! eighth round all of them report and the positions are raised.

ghost use Rattle.std.specs.Prelude.{◌≡◌, ◌<◌, ◌≤◌, ◌*◌, IfOk};
ghost use Rattle.kin_world.specs.Worlds.{WorldView, HasRoom};
ghost use Rattle.kin_bench.specs.Shape.{HasShape, FitsShape};

use crate::shapes;
use crate::shapes::{RECORDS, step};
use kin_ids::{Inc, IngestId, Memory, PartId};
use kin_script::Event;
use kin_world::World;
use std::alloc::Global;

// The records of a transaction: a million events stamp all but a few of the records of the longest feeds.
const BATCH: u64 = 11;

// Eight rounds of a stamp and four deliveries for each node, four reports and three raises.
const ROUNDS: u64 = 8;

const STAMPING: u64 = 120;

const PERIOD: u64 = 127;

// A feed of so many follows, each between two users of its own.
fn write_feed(text: &mut String, node: u64, records: u64) -> Result<(), Memory>
    requires node { node < 3 }
    requires records { records ≤ 699050 }
{
    for record in 0..records {
        let user = record * 6 + node * 2;
        write!(text, "f,{user},{}\n", user + 1)?;
    }
    Ok(())
}

/// A world over three feeds of as many records as so many events stamp.
pub fn open(alloc: Global, n: u64) -> Result<World, Memory>
    requires { n ≤ 4000000000 }
    ensures { IfOk result HasShape }
{
    let records = ((n / PERIOD + 1) * ROUNDS * BATCH).min(RECORDS);
    let mut texts = [String::new(alloc), String::new(alloc), String::new(alloc)];
    for node in 0..3 {
        write_feed(&mut texts[node as usize], node, records)?;
    }
    shapes::open(alloc, &texts, &[])
}

// The event after `n` others.
fn event_at(n: u64) -> Event
    requires { n ≤ 4000000000 }
    ensures fits { FitsShape result }
    ensures room { (world : WorldView) → HasRoom world result }
{
    let place = n % PERIOD;
    if place >= STAMPING + 4 {
        let ingest = IngestId((place - STAMPING - 4) as u16);
        return Event::Raise { ingest };
    }
    if place >= STAMPING {
        let part = PartId((place - STAMPING) as u16);
        return Event::Report { part };
    }
    let round = n / PERIOD * ROUNDS + place / 15;
    let ingest = IngestId((place % 15 / 5) as u16);
    if place % 5 == 0 {
        return Event::Stamp { ingest, n: BATCH };
    }
    Event::Deliver {
        part: PartId((place % 5 - 1) as u16),
        ingest,
        inc: Inc(0),
        to: (round + 1) * BATCH,
    }
}

/// Opens the world, and then gives it as many events.
pub fn forward(alloc: Global, n: u64) -> Result<(), Memory>
    requires { n ≤ 4000000000 }
{
    let mut world = open(alloc, n)?;
    for done in 0..n {
        step(&mut world, event_at(done))?;
    }
    Ok(())
}
