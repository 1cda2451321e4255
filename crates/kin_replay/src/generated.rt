//! The run of a generated job.

ghost use Rattle.std.specs.Prelude.{◌≡◌, ◌≤◌, ◌++◌, [], List, ℕ, IfOk, OnOk, OnErr, map, sum_by, length, Some, take};
ghost use Rattle.kin_ids.specs.declared.ops.Record.{Record};
ghost use Rattle.kin_script.specs.declared.events.Event.{Event};
ghost use Rattle.kin_feed.specs.Records.{records_of};
ghost use Rattle.kin_gen.specs.Feeds.{gen_feeds};
ghost use Rattle.kin_history.specs.Setting.{Setting, after};
ghost use Rattle.kin_history.specs.Drain.{drain};
ghost use Rattle.kin_world.specs.Stands.{HasHistory, Stands};
ghost use Rattle.kin_replay.specs.Demos.{StandsForDemoFront, bad_of, demo_history, demo_line, demo_options, demo_report, demo_setting};
ghost use Rattle.kin_replay.specs.Drained.{DrainsWorld, DrainsInPart};

use crate::blocks::block_of;
use crate::files::read_feeds;
use crate::refusals::Refusal;
use kin_feed::Feed;
use kin_gen::{event_laws, events_of, feed_laws, feeds_of};
use kin_ids::{DemoWords, Epoch, Landmarks, Memory, OptionWords, RuleSet, User};
use kin_line::push_u64;
use kin_world::{World, run};
use std::alloc::Global;

const PARTS: u16 = 4;

const LANDMARK: User = User(0);

const ALL: RuleSet = RuleSet {
    ins: true,
    outs: true,
    said: true,
    tags: true,
    rank: true,
    expo: true,
    hops: true,
    close: true,
};

// The records of the generated feeds.
fn generated_feeds(alloc: Global, words: DemoWords) -> Result<Vec<Feed>, Memory>
    requires few { words.records ≤ 500000 }
    ensures feeds { IfOk result (λ feeds. feeds.items ≡ map records_of (gen_feeds words.seed words.records)) }
    ensures within { IfOk result (λ feeds. sum_by (λ (feed : List Record). length feed) feeds.items ≤ 2097152) }
{
    feed_laws();
    let texts = feeds_of(alloc, words.seed, words.records)?;
    match read_feeds(alloc, texts.as_slice()) {
        Ok(feeds) => Ok(feeds),
        Err(Refusal::Memory) => Err(Memory),
        // The records are within their limit.
        Err(_) => unreachable!(),
    }
}

/// A world over the generated feeds, to which nothing happened yet.
pub(crate) fn open_generated(alloc: Global, words: DemoWords) -> Result<World, Memory>
    requires few { words.records ≤ 500000 }
    ensures { IfOk result (λ world. Stands (demo_setting words) world []) }
{
    let feeds = generated_feeds(alloc, words)?;
    World::open(alloc, feeds, PARTS, &[LANDMARK])
}

// Every partition commits what is cut, and every cut epoch is mined.
fn drain(world: &mut World) -> Result<(), Memory>
    requires has { HasHistory world.old }
    ensures ok { OnOk result (DrainsWorld world.old world.new) }
    ensures err { OnErr result (DrainsInPart world.old world.new) }
{
    while let Some(event) = world.drain_next() {
        world.step(event)?;
    }
    Ok(())
}

/// The generated events, and then the drain.
pub(crate) fn run_generated(
    alloc: Global,
    world: &mut World,
    words: DemoWords,
) -> Result<(), Memory>
    requires few { words.records ≤ 500000 }
    requires stands { Stands (demo_setting words) world.old [] }
    ensures ok { OnOk result (Stands (demo_setting words) world.new (demo_history words)) }
    ensures err { OnErr result (StandsForDemoFront words (Some world.new)) }
{
    event_laws();
    let events = events_of(alloc, words.seed, words.records)?;
    run(alloc, world, events.as_slice())?;
    drain(world)
}

// How many records of all feeds are Bad.
fn count_bad(feeds: &[Feed]) -> u64
    requires few { sum_by (λ (feed : List Record). length feed) feeds.now ≤ 2097152 }
    ensures { result ≡ bad_of feeds.now }
{
    let mut bad = 0;
    for feed in feeds {
        bad += feed.bad_between(0, feed.len());
    }
    bad
}

// All rules, the landmark, and lists of ten.
fn options(alloc: Global) -> Result<OptionWords, Memory>
    ensures { IfOk result (λ options. options ≡ demo_options) }
{
    let mut landmarks = Landmarks::new(alloc);
    landmarks.push(LANDMARK)?;
    Ok(OptionWords {
        rules: ALL,
        landmarks,
        top: 10,
    })
}

// The first line.
fn first_line(alloc: Global, words: DemoWords, epochs: u64, bad: u64) -> Result<Vec<u8>, Memory>
    ensures { IfOk result (λ text. text.items ≡ demo_line words epochs bad) }
{
    let mut text = Vec::new(alloc);
    text.extend_from_slice(b"demo seed ")?;
    push_u64(&mut text, words.seed)?;
    text.extend_from_slice(b" records ")?;
    push_u64(&mut text, words.records)?;
    text.extend_from_slice(b" epochs ")?;
    push_u64(&mut text, epochs)?;
    text.extend_from_slice(b" bad ")?;
    push_u64(&mut text, bad)?;
    text.push(b'\n')?;
    Ok(text)
}

/// What is printed of a job that ran: the first line, and the block of the last epoch.
pub(crate) fn demo_text(alloc: Global, world: &World, words: DemoWords) -> Result<Vec<u8>, Memory>
    requires few { words.records ≤ 500000 }
    requires stands { Stands (demo_setting words) world.now (demo_history words) }
    ensures { IfOk result (λ text. text.items ≡ demo_report words) }
{
    let epochs = world.hub().cuts();
    let options = options(alloc)?;
    let mut text = first_line(alloc, words, epochs, count_bad(world.feeds()))?;
    let block = block_of(alloc, world, Epoch(epochs as u32), &options)?;
    text.extend_from_slice(block.as_slice())?;
    Ok(text)
}
