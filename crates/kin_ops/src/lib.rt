//! Splits transactions into pieces, one for each partition.
#![tactic(auto)]

mod wanted;

ghost use Rattle.std.specs.Prelude.{◌≡◌, ◌≤◌, ◌<◌, ◌+◌, ◌-◌, ◌++◌, ◌∷◌, ◌^◌, [], length, replicate, All, IfOk, OnOk, OnErr};
ghost use Rattle.kin_ids.specs.Operations.{record_ops, items_ops, item_ops, numbered, all_ops};
ghost use Rattle.kin_ops.specs.Wanted.{HasParts, wanted_of};
ghost use Rattle.kin_ops.specs.Pieces as pieces;
ghost use Rattle.kin_ops.specs.Pieces.{IsStampOf, IsPieceOf, ArePiecesOf, FitsWhereOf, AreSpread, of_part};

use crate::wanted::{Wanted, part_of};
use kin_ids::{Item, Memory, Numbered, Op, Ops, PartId, Piece, Record, Stamp, User};
use std::alloc::Global;

// Appends an operation where it is wanted.
fn add(ops: &mut Ops, wanted: Wanted, number: u64, op: Op) -> Result<(), Memory>
    requires { HasParts wanted }
    ensures { OnOk result (ops.new ≡ ops.old ++ wanted_of wanted (numbered number (op ∷ []))) }
{
    if wanted.has(&op) {
        ops.push(Numbered { number, op })
    } else {
        Ok(())
    }
}

fn add_item(ops: &mut Ops, wanted: Wanted, number: u64, u: User, item: &Item) -> Result<(), Memory>
    requires { HasParts wanted }
    ensures { OnOk result (ops.new ≡ ops.old ++ wanted_of wanted (numbered number (item_ops u item.now))) }
{
    match item {
        Item::At(w) => {
            add(ops, wanted, number, Op::MentionOut(u, *w))?;
            add(ops, wanted, number, Op::MentionIn(*w, u))?;
            add(ops, wanted, number, Op::Said(*w))
        }
        Item::Hash(tag) => {
            add(ops, wanted, number, Op::Use(u, *tag))?;
            add(ops, wanted, number, Op::TagUse(*tag, u))
        }
    }
}

fn add_items(
    ops: &mut Ops,
    wanted: Wanted,
    number: u64,
    u: User,
    items: &[Item],
) -> Result<(), Memory>
    requires { HasParts wanted }
    ensures { OnOk result (ops.new ≡ ops.old ++ wanted_of wanted (numbered number (items_ops u items.now))) }
{
    for item in items {
        add_item(ops, wanted, number, u, item)?;
    }
    Ok(())
}

fn add_record(ops: &mut Ops, wanted: Wanted, number: u64, content: &Record) -> Result<(), Memory>
    requires { HasParts wanted }
    ensures { OnOk result (ops.new ≡ ops.old ++ wanted_of wanted (numbered number (record_ops content.now))) }
{
    match content {
        Record::Follow { u, v } => {
            add(ops, wanted, number, Op::AddOut(*u, *v))?;
            add(ops, wanted, number, Op::AddIn(*v, *u))
        }
        Record::Unfollow { u, v } => {
            add(ops, wanted, number, Op::DropOut(*u, *v))?;
            add(ops, wanted, number, Op::DropIn(*v, *u))
        }
        Record::Tweet { u, items } => add_items(ops, wanted, number, *u, items.as_slice()),
        Record::Bad => Ok(()),
    }
}

// The wanted operations of records that follow position `from`, in record order.
fn operations(alloc: Global, wanted: Wanted, from: u64, records: &[Record]) -> Result<Ops, Memory>
    requires parts { HasParts wanted }
    requires numbers { from + length records.now < 2 ^ 64 }
    ensures { IfOk result (λ ops. ops ≡ wanted_of wanted (all_ops from records.now)) }
{
    let mut ops = Ops::new(alloc);
    let mut number = from;
    for content in records {
        number += 1;
        add_record(&mut ops, wanted, number, content)?;
    }
    Ok(ops)
}

fn empty_lists(alloc: Global, parts: u16) -> Result<Vec<Ops>, Memory>
    ensures { IfOk result (λ lists. lists.items ≡ replicate parts []) }
{
    let mut lists = Vec::with_capacity(alloc, usize::from(parts))?;
    for _part in 0..parts {
        lists.push(Ops::new(alloc))?;
    }
    Ok(lists)
}

// These operations by partition.
fn spread(alloc: Global, ops: &[Numbered], parts: u16) -> Result<Vec<Ops>, Memory>
    requires { 0 < parts }
    ensures { IfOk result (λ lists. AreSpread parts lists.items ops.now) }
{
    let mut lists = empty_lists(alloc, parts)?;
    for numbered in ops {
        let at = usize::from(part_of(&numbered.op, parts).0);
        let list = &mut lists[at];
        list.push(*numbered)?;
    }
    Ok(lists)
}

// The pieces with these operations, of the partitions from 0 on.
fn labelled(alloc: Global, stamp: Stamp, base: u64, lists: Vec<Ops>) -> Result<Vec<Piece>, Memory>
    requires { length lists.items < 2 ^ 16 }
    ensures { IfOk result (λ all. all.items ≡ pieces.labelled stamp base 0 lists.items) }
{
    let mut all = Vec::with_capacity(alloc, lists.len())?;
    let mut part = 0;
    for ops in lists {
        all.push(Piece {
            stamp,
            base,
            part: PartId(part),
            ops,
        })?;
        part += 1;
    }
    Ok(all)
}

/// The pieces of a transaction, one for each partition in order, each with exactly its partition's operations in record
/// order, perhaps none. `records` are the stamp's. The cost is that of the operations and the partitions together.
pub fn pieces(
    alloc: Global,
    stamp: Stamp,
    base: u64,
    records: &[Record],
    parts: u16,
) -> Result<Vec<Piece>, Memory>
    requires some { 0 < parts }
    requires stamped { IsStampOf stamp base records.now }
    ensures count { IfOk result (λ all. length all.items ≡ parts) }
    ensures each { IfOk result (λ all. ArePiecesOf parts stamp base records.now all.items) }
    ensures fit { IfOk result (λ all. All (FitsWhereOf parts stamp records.now) all.items) }
{
    let ops = operations(alloc, Wanted::All, stamp.from, records)?;
    let lists = spread(alloc, ops.as_slice(), parts)?;
    labelled(alloc, stamp, base, lists)
}

/// The piece of one partition, of whose operations alone it takes memory. The cost is that of the transaction's items.
pub fn piece_of(
    alloc: Global,
    stamp: Stamp,
    base: u64,
    records: &[Record],
    parts: u16,
    part: PartId,
) -> Result<Piece, Memory>
    requires within { part.0 < parts }
    requires stamped { IsStampOf stamp base records.now }
    ensures piece { IfOk result (λ x. IsPieceOf parts stamp base records.now part.0 x) }
    ensures fits { IfOk result (λ x. FitsWhereOf parts stamp records.now x) }
{
    let ops = operations(alloc, Wanted::Of { parts, part }, stamp.from, records)?;
    Ok(Piece {
        stamp,
        base,
        part,
        ops,
    })
}

#[cfg(test)]
mod tests;
