//! Mining of a world: one epoch of many records, and then short ones.

ghost use Rattle.std.specs.Prelude.{◌≡◌, ◌<◌, ◌≤◌, true, IfOk, OnOk, length};
ghost use Rattle.kin_blocks.specs.Snaps.{joined};
ghost use Rattle.kin_graph.specs.Views.{IsSmall};
ghost use Rattle.kin_bench.specs.Shape.{HasShape};

use crate::commits::{agree_on_all, open, short_epoch};
use crate::shapes::step;
use kin_blocks::Snap;
use kin_graph::View;
use kin_ids::{Epoch, Memory, User};
use kin_rules::scratch;
use kin_script::Event;
use kin_world::World;
use std::alloc::Global;

// The records of the first epoch.
const BEFORE: u64 = 200_000;

// The most records of all short epochs together, and the most epochs.
const AFTER: u64 = 100_000;

const EPOCHS: u64 = 10;

// The landmarks, of which the first ones are taken.
const LANDMARKS: [User; 16] = [
    User(0),
    User(1),
    User(2),
    User(3),
    User(4),
    User(5),
    User(6),
    User(7),
    User(8),
    User(9),
    User(10),
    User(11),
    User(12),
    User(13),
    User(14),
    User(15),
];

// What is done with each short epoch.
#[derive(Clone, Copy, PartialEq, Eq)]
enum Short {
    /// There is none.
    Left,
    /// It is mined.
    Mined,
    /// All rules are evaluated from scratch on its snapshot.
    Evaluated,
}

// Whether a snapshot has so few vertices that it can be evaluated.
fn is_small(snap: &Snap) -> Result<bool, Memory>
    ensures { IfOk result (λ small. small ≡ true → IsSmall (joined snap.now)) }
{
    let users = snap.users()?;
    Ok(users.len() <= 1 << 27)
}

// All rules are evaluated from scratch on the snapshot of the epoch that was cut last.
fn evaluate(alloc: Global, world: &World, landmarks: &[User]) -> Result<(), Memory> {
    let Ok(k) = u32::try_from(world.hub().cuts()) else {
        return Ok(());
    };
    let Some(snap) = world.hub().snapshot(Epoch(k)) else {
        return Ok(());
    };
    if is_small(snap)? {
        let _result = scratch(alloc, snap, Epoch(k), landmarks)?;
    }
    Ok(())
}

// An epoch of so many records is cut, committed and mined.
fn mine(world: &mut World, records: u64) -> Result<(), Memory>
    requires shape { HasShape world.old }
    requires records { (0 < records) × (records ≤ 2097152) }
    ensures { OnOk result (HasShape world.new) }
{
    short_epoch(world, records)?;
    step(world, Event::Mine)?;
    Ok(())
}

// Epochs of so many records each, which are mined.
fn mine_all(world: &mut World, records: u64, epochs: u64) -> Result<(), Memory>
    requires shape { HasShape world.old }
    requires records { (0 < records) × (records ≤ 2097152) }
    ensures { OnOk result (HasShape world.new) }
{
    for _epoch in 0..epochs {
        mine(world, records)?;
    }
    Ok(())
}

// Epochs of so many records each, which are evaluated.
fn evaluate_all(
    alloc: Global,
    world: &mut World,
    records: u64,
    epochs: u64,
    landmarks: &[User],
) -> Result<(), Memory>
    requires shape { HasShape world.old }
    requires records { (0 < records) × (records ≤ 2097152) }
    ensures { OnOk result (HasShape world.new) }
{
    for _epoch in 0..epochs {
        short_epoch(world, records)?;
        evaluate(alloc, world, landmarks)?;
    }
    Ok(())
}

// The job from so many landmarks, with its short epochs or without them.
fn job(alloc: Global, records: u64, landmarks: &[User], short: Short) -> Result<(), Memory>
    requires landmarks { length landmarks.now ≤ 16 }
    requires records { (0 < records) × (records ≤ 2097152) }
{
    let epochs = EPOCHS.min(AFTER / records);
    let mut world = open(alloc, BEFORE + AFTER, landmarks)?;
    agree_on_all(&mut world)?;
    mine(&mut world, BEFORE)?;
    match short {
        Short::Left => Ok(()),
        Short::Mined => mine_all(&mut world, records, epochs),
        Short::Evaluated => evaluate_all(alloc, &mut world, records, epochs, landmarks),
    }
}

/// Whether the word named a benchmark, which then ran.
pub fn run(alloc: Global, n: u64, how: &str) -> Result<bool, Memory> {
    if n == 0 || n > AFTER {
        return Ok(false);
    }
    let (landmarks, short) = match how.split_once('-') {
        Some((landmarks, "open")) => (landmarks, Short::Left),
        Some((landmarks, "scratch")) => (landmarks, Short::Evaluated),
        Some(_) => return Ok(false),
        None => (how, Short::Mined),
    };
    match landmarks {
        "0" => job(alloc, n, &[], short)?,
        "2" => job(alloc, n, &LANDMARKS[..2], short)?,
        "16" => job(alloc, n, &LANDMARKS, short)?,
        _ => return Ok(false),
    }
    Ok(true)
}
