//! A world of three nodes and four partitions, and its events.

ghost use Rattle.std.specs.Prelude.{◌≡◌, ◌≤◌, ◌*◌, IfOk, OnOk, length, sum_by, List};
ghost use Rattle.kin_ids.specs.declared.ops.Record.{Record};
ghost use Rattle.kin_world.specs.Worlds.{HasRoom};
ghost use Rattle.kin_bench.specs.Shape.{HasShape, FitsShape};

use kin_feed::{Feed, FeedFault, read_feed};
use kin_ids::{Memory, User};
use kin_script::{Event, Outcome};
use kin_world::World;
use std::alloc::Global;

/// The most records of a feed: three such feeds keep within the limit of a world.
pub const RECORDS: u64 = 699_050;

fn read(alloc: Global, text: &str) -> Result<Feed, Memory>
    ensures { IfOk result (λ feed. length feed ≤ 699050) }
{
    match read_feed(alloc, text.as_bytes(), RECORDS) {
        Ok(feed) => Ok(feed),
        Err(FeedFault::Memory | FeedFault::TooManyRecords) => Err(Memory),
    }
}

fn read_all(alloc: Global, texts: &[String; 3]) -> Result<Vec<Feed>, Memory>
    ensures three { IfOk result (λ feeds. length feeds.items ≡ 3) }
    ensures few { IfOk result (λ feeds. sum_by (λ (feed : List Record). length feed) feeds.items ≤ 2097152) }
{
    let mut feeds = Vec::new(alloc);
    for node in 0..3 {
        let feed = read(alloc, texts[node].as_str())?;
        feeds.push(feed)?;
    }
    Ok(feeds)
}

/// A world over three texts of feeds, of no more records each than the limit. More than that it takes for a want of
/// memory.
pub fn open(alloc: Global, texts: &[String; 3], landmarks: &[User]) -> Result<World, Memory>
    requires { length landmarks.now ≤ 16 }
    ensures { IfOk result HasShape }
{
    let feeds = read_all(alloc, texts)?;
    World::open(alloc, feeds, 4, landmarks)
}

/// One event.
pub fn step(world: &mut World, event: Event) -> Result<Outcome, Memory>
    requires shape { HasShape world.old }
    requires fits { FitsShape event }
    requires room { HasRoom world.old event }
    ensures { OnOk result (HasShape world.new) }
{
    world.step(event)
}
