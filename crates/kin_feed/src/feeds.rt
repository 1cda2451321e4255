//! A feed and its records.

ghost use Rattle.std.specs.Prelude.{◌≡◌, ◌<◌, ◌≤◌, ◌^◌, ◌++◌, [], ◌∷◌, ℕ, List, All, take, length, count_by, IfOk, OnOk, OnErr, IsErrOf};
ghost use Rattle.kin_ids.specs.Order.{between};
ghost use Rattle.kin_ids.specs.Operations.{is_bad};
ghost use Rattle.kin_ids.specs.Sizes.{IsSmall};
ghost use Rattle.kin_feed.specs.Records.{records_of};
ghost use Rattle.kin_feed.specs.BadIndex.{bad_numbers};

use crate::faults::FeedFault;
use crate::parses::read_row;
use crate::rows::{next_row, rows_in};
use csv::ByteRecord;
use kin_ids::{Memory, Record};
use std::alloc::Global;
use std::marker::Model;

/// The records of a feed, seen as their list. No tweet has more than 16 items.
#[derive(Drop)]
pub struct Feed {
    all: Vec<Record>,
    // The numbers of the Bad records, ascending.
    bad: Vec<u64>,
}

impl Model for Feed {
    ghost use Rattle.std.specs.Prelude.{List};
    ghost use Rattle.kin_ids.specs.declared.ops.Record.{Record};
    ghost use Rattle.kin_feed.specs.BadIndex.{IsFeed};

    ghost Value = { List Record };

    ghost view = { λ a. a.all.items };

    ghost invariant = { λ a. IsFeed a.all.items a.bad.items };
}

impl Feed {
    /// How many records it has.
    pub fn len(&self) -> u64
        ensures count { result ≡ length self.now }
        ensures small { All IsSmall self.now }
    {
        self.all.len() as u64
    }

    /// How many of the records numbered from `from` + 1 to `to` are Bad, in O(log n).
    pub fn bad_between(&self, from: u64, to: u64) -> u64
        requires from { from ≤ to }
        requires to { to ≤ length self.now }
        ensures { result ≡ count_by is_bad (between self.now from to) }
    {
        (self.bad_until(to) - self.bad_until(from)) as u64
    }

    // How many of the records numbered up to `to` are Bad.
    fn bad_until(&self, to: u64) -> usize
        ensures { result ≡ count_by is_bad (take to self.now) }
    {
        self.bad.partition_point(|number| *number <= to)
    }

    /// The records in order. Record n stands at place n - 1.
    pub fn records(&self) -> &[Record]
        ensures records { result.now ≡ self.now }
        ensures small { All IsSmall self.now }
    {
        self.all.as_slice()
    }
}

/// Reads the records of a feed, at most `limit` of them, in time linear in its bytes. It reads no
/// row past the first one too many.
pub fn read_feed(alloc: Global, bytes: &[u8], limit: u64) -> Result<Feed, FeedFault>
    ensures ok { IfOk result (λ feed. feed ≡ records_of bytes.now) }
    ensures within { OnOk result (length (records_of bytes.now) ≤ limit) }
    ensures many { IsErrOf result FeedFault.TooManyRecords → limit < length (records_of bytes.now) }
{
    let mut rows = rows_in(alloc, bytes);
    let mut row = ByteRecord::new(alloc);
    let mut all = Vec::new(alloc);
    let mut bad = Vec::new(alloc);
    while next_row(&mut rows, &mut row)? {
        if all.len() as u64 >= limit {
            return Err(FeedFault::TooManyRecords);
        }
        let record = read_row(alloc, &row)?;
        note_bad(&mut bad, &record, all.len() as u64)?;
        push(&mut all, record)?;
    }
    Ok(Feed { all, bad })
}

// Appends the number of a record after this position, where the record is Bad.
fn note_bad(bad: &mut Vec<u64>, next: &Record, position: u64) -> Result<(), Memory>
    requires { position < 2 ^ 63 }
    ensures { OnOk result (bad.new.items ≡ bad.old.items ++ bad_numbers position (next.now ∷ [])) }
{
    if matches!(next, Record::Bad) {
        bad.push(position + 1)?;
    }
    Ok(())
}

// Appends a record.
fn push(all: &mut Vec<Record>, next: Record) -> Result<(), Memory>
    ensures { OnOk result (all.new.items ≡ all.old.items ++ next ∷ []) }
{
    all.push(next)?;
    Ok(())
}
