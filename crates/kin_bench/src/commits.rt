//! Epochs of a world: random records, stamped and delivered in rounds, agreed, cut and committed as they come.

ghost use Rattle.std.specs.Prelude.{◌≡◌, ◌<◌, ◌≤◌, IfOk, OnOk, length};
ghost use Rattle.kin_bench.specs.Shape.{HasShape};

use crate::shapes;
use crate::shapes::{RECORDS, step};
use kin_ids::{Inc, IngestId, Memory, PartId, User};
use kin_script::{Event, Outcome};
use kin_world::World;
use rand_core::{Rng, SeedableRng};
use rand_xoshiro::Xoshiro256PlusPlus;
use std::alloc::Global;

// The rounds from one agreement to the next, and those of an epoch.
const AGREEING: u64 = 8;

const EPOCH: u64 = 64;

// The most epochs, more than any of these worlds has.
const EPOCHS: u64 = 4_000_000;

// A tweet with so many random mentions and tags.
fn write_tweet(
    text: &mut String,
    draws: &mut Xoshiro256PlusPlus,
    user: u64,
    items: u64,
    users: u64,
) -> Result<(), Memory>
    requires { 0 < users }
{
    write!(text, "t,{user}")?;
    for _ in 0..items {
        let word = draws.next_u64();
        if word % 2 == 0 {
            write!(text, ",@{}", word / 2 % users)?;
        } else {
            write!(text, ",#t{}", word / 2 % 50)?;
        }
    }
    text.push('\n')?;
    Ok(())
}

// A random line: of sixteen, nine follows, one unfollow, five tweets, and one that is no record.
fn write_line(text: &mut String, draws: &mut Xoshiro256PlusPlus, users: u64) -> Result<(), Memory>
    requires { 2 ≤ users }
{
    let user = draws.next_u64() / 16 % users;
    let word = draws.next_u64();
    let place = word % (users - 1);
    let other = if place < user { place } else { place + 1 };
    match word % 16 {
        0..=8 => write!(text, "f,{user},{other}\n")?,
        9 => write!(text, "x,{user},{other}\n")?,
        10..=14 => write_tweet(text, draws, user, 1 + word % 3, users)?,
        _ => text.push_str("?\n")?,
    }
    Ok(())
}

/// A world over as many random records, dealt to the three feeds in turn.
pub fn open(alloc: Global, n: u64, landmarks: &[User]) -> Result<World, Memory>
    requires { length landmarks.now ≤ 16 }
    ensures { IfOk result HasShape }
{
    let records = n.min(3 * RECORDS);
    let mut draws = Xoshiro256PlusPlus::seed_from_u64(1);
    let mut texts = [String::new(alloc), String::new(alloc), String::new(alloc)];
    for record in 0..records {
        let text = &mut texts[(record % 3) as usize];
        write_line(text, &mut draws, records / 4 + 2)?;
    }
    shapes::open(alloc, &texts, landmarks)
}

// The transaction of node `ingest` that ends at `to` goes to all partitions.
fn deliver(world: &mut World, ingest: IngestId, to: u64) -> Result<(), Memory>
    requires shape { HasShape world.old }
    requires node { ingest.0 < 3 }
    ensures { OnOk result (HasShape world.new) }
{
    for p in 0..4 {
        let part = PartId(p);
        let inc = Inc(0);
        step(
            world,
            Event::Deliver {
                part,
                ingest,
                inc,
                to,
            },
        )?;
    }
    Ok(())
}

// Each node stamps 9 to 16 records, which go to all partitions. Whether one of them had records left.
fn stamp_all(world: &mut World, draws: &mut Xoshiro256PlusPlus) -> Result<bool, Memory>
    requires shape { HasShape world.old }
    ensures { OnOk result (HasShape world.new) }
{
    let mut stamped = false;
    for i in 0..3 {
        let ingest = IngestId(i);
        let n = 9 + draws.next_u64() % 8;
        if let Outcome::Stamped(stamp) = step(world, Event::Stamp { ingest, n })? {
            stamped = true;
            deliver(world, ingest, stamp.to)?;
        }
    }
    Ok(stamped)
}

// Every partition reports.
fn report_all(world: &mut World) -> Result<(), Memory>
    requires shape { HasShape world.old }
    ensures { OnOk result (HasShape world.new) }
{
    for p in 0..4 {
        step(world, Event::Report { part: PartId(p) })?;
    }
    Ok(())
}

// The position of every node is raised.
fn raise_all(world: &mut World) -> Result<(), Memory>
    requires shape { HasShape world.old }
    ensures { OnOk result (HasShape world.new) }
{
    for i in 0..3 {
        let ingest = IngestId(i);
        step(world, Event::Raise { ingest })?;
    }
    Ok(())
}

fn agree(world: &mut World) -> Result<(), Memory>
    requires shape { HasShape world.old }
    ensures { OnOk result (HasShape world.new) }
{
    report_all(world)?;
    raise_all(world)
}

// An epoch is cut at the agreed positions, where there is room for it.
fn cut(world: &mut World) -> Result<(), Memory>
    requires shape { HasShape world.old }
    ensures { OnOk result (HasShape world.new) }
{
    if world.hub().cuts() < EPOCHS {
        step(world, Event::Cut { n: None })?;
    }
    Ok(())
}

// Every partition commits its next epoch.
fn commit(world: &mut World) -> Result<(), Memory>
    requires shape { HasShape world.old }
    ensures { OnOk result (HasShape world.new) }
{
    for p in 0..4 {
        step(world, Event::Commit { part: PartId(p) })?;
    }
    Ok(())
}

// An epoch ends, and is committed or not.
fn end_epoch(world: &mut World, commits: bool) -> Result<(), Memory>
    requires shape { HasShape world.old }
    ensures { OnOk result (HasShape world.new) }
{
    cut(world)?;
    if commits {
        commit(world)?;
    }
    Ok(())
}

/// All of the records are stamped, delivered and agreed, and none is cut.
pub fn agree_on_all(world: &mut World) -> Result<(), Memory>
    requires shape { HasShape world.old }
    ensures { OnOk result (HasShape world.new) }
{
    let mut draws = Xoshiro256PlusPlus::seed_from_u64(0);
    for round in 1..u64::MAX {
        if !stamp_all(world, &mut draws)? {
            break;
        }
        if round % AGREEING == 0 {
            agree(world)?;
        }
    }
    agree(world)
}

/// An epoch of so many records, where there is room for it, is cut and committed.
pub fn short_epoch(world: &mut World, records: u64) -> Result<(), Memory>
    requires shape { HasShape world.old }
    requires records { (0 < records) × (records ≤ 2097152) }
    ensures { OnOk result (HasShape world.new) }
{
    if world.hub().cuts() < EPOCHS {
        step(world, Event::Cut { n: Some(records) })?;
    }
    commit(world)
}

// All of the records, in epochs of so many rounds.
fn run(alloc: Global, n: u64, rounds: u64, commits: bool) -> Result<(), Memory>
    requires { 0 < rounds }
{
    let mut world = open(alloc, n, &[])?;
    let mut draws = Xoshiro256PlusPlus::seed_from_u64(0);
    for round in 1..u64::MAX {
        if !stamp_all(&mut world, &mut draws)? {
            break;
        }
        if round % AGREEING == 0 {
            agree(&mut world)?;
        }
        if round % rounds == 0 {
            end_epoch(&mut world, commits)?;
        }
    }
    agree(&mut world)?;
    end_epoch(&mut world, commits)
}

/// Opens the world, and then has its epochs cut and committed.
pub fn forward(alloc: Global, n: u64) -> Result<(), Memory> {
    run(alloc, n, EPOCH, true)
}

/// The same with eight times as many epochs.
pub fn often(alloc: Global, n: u64) -> Result<(), Memory> {
    run(alloc, n, AGREEING, true)
}

/// All of `forward` but the commits.
pub fn cuts(alloc: Global, n: u64) -> Result<(), Memory> {
    run(alloc, n, EPOCH, false)
}
