//! Epochs of versions: random follows, of which each partition commits its halves. What is kept at the end isn't freed,
//! since the program ends then.

ghost use Rattle.std.specs.Prelude.{◌≡◌, ◌<◌, ℕ, true, All, IfOk, OnOk};
ghost use Rattle.kin_ids.specs.Operations.{op_part};
ghost use Rattle.kin_ids.specs.Parting.{user_part};
ghost use Rattle.kin_bench.specs.Follows.{HasRooms, IsFollows, IsHalf, is_half};

use crate::draws::{Draws, Edge};
use kin_blocks::{Run, Versions};
use kin_ids::{
    Epoch, Inc, IngestId, Memory, Numbered, Op, Ops, PartId, Piece, Stamp, part_of_user,
};
use std::alloc::Global;
use std::mem::forget;

// The partitions, and those that are idle.
const PARTS: u16 = 4;

const IDLE: u16 = 64;

// The epochs, where no other number is asked for.
const EPOCHS: u64 = 84;

// The most records of a piece.
const BATCH: usize = 16;

// The records that come before short epochs.
const BEFORE: u32 = 200_000;

fn out_half(edge: Edge) -> Op
    ensures half { is_half result ≡ true }
    ensures home { (parts : ℕ) → op_part parts result ≡ user_part parts edge.user }
{
    if edge.drops {
        Op::DropOut(edge.user, edge.other)
    } else {
        Op::AddOut(edge.user, edge.other)
    }
}

fn in_half(edge: Edge) -> Op
    ensures half { is_half result ≡ true }
    ensures home { (parts : ℕ) → op_part parts result ≡ user_part parts edge.other }
{
    if edge.drops {
        Op::DropIn(edge.other, edge.user)
    } else {
        Op::AddIn(edge.other, edge.user)
    }
}

// The half of who follows, where it is of this partition.
fn push_out(ops: &mut Ops, parts: u16, p: PartId, edge: Edge) -> Result<(), Memory>
    requires some { 0 < parts }
    requires halves { All (IsHalf parts p.0) ops.old }
    ensures { OnOk result (All (IsHalf parts p.0) ops.new) }
{
    if part_of_user(edge.user, parts) == p {
        let op = out_half(edge);
        let number = edge.from.wrapping_add(1);
        ops.push(Numbered { number, op })?;
    }
    Ok(())
}

// The half of who is followed, where it is of this partition.
fn push_in(ops: &mut Ops, parts: u16, p: PartId, edge: Edge) -> Result<(), Memory>
    requires some { 0 < parts }
    requires halves { All (IsHalf parts p.0) ops.old }
    ensures { OnOk result (All (IsHalf parts p.0) ops.new) }
{
    if part_of_user(edge.other, parts) == p {
        let op = in_half(edge);
        let number = edge.from.wrapping_add(1);
        ops.push(Numbered { number, op })?;
    }
    Ok(())
}

fn ops_of(alloc: Global, parts: u16, p: PartId, edges: &[Edge]) -> Result<Ops, Memory>
    requires { 0 < parts }
    ensures { IfOk result (All (IsHalf parts p.0)) }
{
    let mut ops = Ops::new(alloc);
    for edge in edges {
        push_out(&mut ops, parts, p, *edge)?;
        push_in(&mut ops, parts, p, *edge)?;
    }
    Ok(ops)
}

// A partition's piece of follows that are one transaction.
fn piece_of(alloc: Global, parts: u16, p: PartId, edges: &[Edge]) -> Result<Piece, Memory>
    requires { 0 < parts }
    ensures { IfOk result (IsFollows parts p.0) }
{
    let from = edges.first().map_or(0, |edge| edge.from);
    let stamp = Stamp {
        ingest: IngestId(0),
        inc: Inc(0),
        from,
        to: from.wrapping_add(edges.len() as u64),
    };
    Ok(Piece {
        stamp,
        base: 0,
        part: p,
        ops: ops_of(alloc, parts, p, edges)?,
    })
}

fn pieces_of(alloc: Global, parts: u16, p: PartId, edges: &[Edge]) -> Result<Vec<Piece>, Memory>
    requires { 0 < parts }
    ensures { IfOk result (λ pieces. All (IsFollows parts p.0) pieces.items) }
{
    let mut pieces = Vec::new(alloc);
    for batch in edges.chunks(BATCH) {
        pieces.push(piece_of(alloc, parts, p, batch)?)?;
    }
    Ok(pieces)
}

// A partition commits its next epoch. More epochs than there are it takes for a want of memory.
fn commit(versions: &mut Versions, parts: u16, p: PartId, pieces: &[Piece]) -> Result<(), Memory>
    requires part { p.0 < parts }
    requires room { HasRooms parts versions.old }
    requires follows { All (IsFollows parts p.0) pieces.now }
    ensures { OnOk result (HasRooms parts versions.new) }
{
    if versions.committed(p) == u32::MAX {
        return Err(Memory);
    }
    let runs = [Run::of(pieces)];
    versions.commit(p, &runs)?;
    Ok(())
}

// Every partition commits an epoch.
fn commit_all(
    alloc: Global,
    versions: &mut Versions,
    parts: u16,
    edges: &[Edge],
) -> Result<(), Memory>
    requires { HasRooms parts versions.old }
    ensures { OnOk result (HasRooms parts versions.new) }
{
    for p in 0..parts {
        let pieces = pieces_of(alloc, parts, PartId(p), edges)?;
        commit(versions, parts, PartId(p), &pieces)?;
    }
    Ok(())
}

// Lets go of all epochs but the last two that every partition has committed.
fn release(versions: &mut Versions, parts: u16)
    requires { HasRooms parts versions.old }
    ensures { HasRooms parts versions.new }
{
    let mut least = u32::MAX;
    for p in 0..parts {
        least = least.min(versions.committed(PartId(p)));
    }
    versions.release_below(Epoch(least.saturating_sub(1)));
}

// So many records in so many epochs.
fn spread(
    alloc: Global,
    versions: &mut Versions,
    draws: &mut Draws,
    epochs: u64,
    records: u64,
    releases: bool,
) -> Result<(), Memory>
    requires few { records < u64.MAX }
    requires room { HasRooms 4 versions.old }
    ensures { OnOk result (HasRooms 4 versions.new) }
{
    for epoch in 0..epochs {
        let count = records / epochs + u64::from(epoch < records % epochs);
        let edges = draws.edges(alloc, count)?;
        commit_all(alloc, versions, PARTS, &edges)?;
        if releases {
            release(versions, PARTS);
        }
    }
    Ok(())
}

fn first(alloc: Global, parts: u16) -> Result<Versions, Memory>
    requires { 0 < parts }
    ensures { IfOk result (HasRooms parts) }
{
    let versions = Versions::new(alloc, parts)?;
    Ok(versions)
}

fn many(alloc: Global, n: u32, epochs: u64, ranked: bool, releases: bool) -> Result<(), Memory> {
    let mut versions = first(alloc, PARTS)?;
    let mut draws = Draws::new(n / 2, ranked);
    spread(
        alloc,
        &mut versions,
        &mut draws,
        epochs,
        u64::from(n),
        releases,
    )?;
    forget(versions);
    Ok(())
}

// Records in 84 epochs, each user followed as often.
fn even(alloc: Global, n: u32, releases: bool) -> Result<(), Memory> {
    many(alloc, n, EPOCHS, false, releases)
}

// The same with some users followed far more than others.
fn rank(alloc: Global, n: u32) -> Result<(), Memory> {
    many(alloc, n, EPOCHS, true, false)
}

// Records in 200 epochs.
fn long(alloc: Global, n: u32, releases: bool) -> Result<(), Memory> {
    many(alloc, n, 200, false, releases)
}

// Epochs of one record, after 200,000 others.
fn ones(alloc: Global, n: u32) -> Result<(), Memory> {
    let mut versions = first(alloc, PARTS)?;
    let mut draws = Draws::new(100_000, false);
    spread(
        alloc,
        &mut versions,
        &mut draws,
        EPOCHS,
        u64::from(BEFORE),
        false,
    )?;
    spread(
        alloc,
        &mut versions,
        &mut draws,
        u64::from(n),
        u64::from(n),
        false,
    )?;
    forget(versions);
    Ok(())
}

// Epochs of ten records, some users followed far more than others.
fn tens(alloc: Global, n: u32) -> Result<(), Memory> {
    let mut versions = first(alloc, PARTS)?;
    let mut draws = Draws::new(100_000, true);
    spread(
        alloc,
        &mut versions,
        &mut draws,
        u64::from(n),
        u64::from(n) * 10,
        false,
    )?;
    forget(versions);
    Ok(())
}

// Epochs without records, of 64 partitions.
fn idle(alloc: Global, n: u32, releases: bool) -> Result<(), Memory> {
    let mut versions = first(alloc, IDLE)?;
    for _ in 0..n {
        commit_all(alloc, &mut versions, IDLE, &[])?;
        if releases {
            release(&mut versions, IDLE);
        }
    }
    forget(versions);
    Ok(())
}

/// Whether a benchmark has this name, which then ran: `even`, `rank` and `long` on as many records, `ones`, `tens` and
/// `idle` on as many epochs, `before` on what comes before `ones`. With `-release` after a name each epoch is let go
/// after the next.
pub fn run(alloc: Global, n: u32, how: &str) -> Result<bool, Memory> {
    match how {
        "even" => even(alloc, n, false)?,
        "even-release" => even(alloc, n, true)?,
        "rank" => rank(alloc, n)?,
        "long" => long(alloc, n, false)?,
        "long-release" => long(alloc, n, true)?,
        "before" => even(alloc, BEFORE, false)?,
        "ones" => ones(alloc, n)?,
        "tens" => tens(alloc, n)?,
        "idle" => idle(alloc, n, false)?,
        "idle-release" => idle(alloc, n, true)?,
        _ => return Ok(false),
    }
    Ok(true)
}
