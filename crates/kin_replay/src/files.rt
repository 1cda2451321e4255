//! The files that the words name, read in their order.

ghost use Rattle.std.specs.Prelude.{◌≡◌, ◌<◌, ◌≤◌, ℕ, List, All, length, map, sum_by, IfOk, IfErr, OnOk, IsErrOf, IfSome};
ghost use Rattle.kin_ids.specs.declared.ops.Record.{Record};
ghost use Rattle.kin_feed.specs.Records.{records_of};
ghost use Rattle.kin_line.specs.Lines.{lines};
ghost use Rattle.kin_io.specs.Outside.{Rose};
ghost use Rattle.kin_script.specs.declared.events.Line.{Line};
ghost use Rattle.kin_script.specs.Schedules.{IsScript, IsInRange};
ghost use Rattle.kin_replay.specs.Files.{Files, Told, SomeRose, feed_bytes};
ghost use Rattle.kin_replay.specs.Refusals.{IsOfLoad, IsOfRecords, IsOfScript};

use crate::refusals::Refusal;
use kin_feed::{Feed, FeedFault, read_feed};
use kin_ids::{MOST_BYTES, MOST_RECORDS, Name, Which};
use kin_io::{LoadFault, Shelf, load};
use kin_script::{Line, ScriptFault, read_script};
use std::alloc::Global;

// A file of at most so many bytes.
fn load_file<F: Shelf>(
    alloc: Global,
    shelf: &mut F,
    name: &Name,
    limit: u64,
    which: Which,
) -> Result<Vec<u8>, Refusal>
    ensures whole { IfOk result (λ bytes. IfSome (F.content shelf.old name.now) (λ file. bytes.items ≡ file)) }
    ensures within { IfOk result (λ bytes. length bytes.items ≤ limit) }
    ensures read { IsErrOf result Refusal.Read → Rose (F.faults shelf.old name.now) (F.faults shelf.new name.now) }
    ensures limit { IsErrOf result (Refusal.Limit which)
        → IfSome (F.content shelf.old name.now) (λ file. limit < length file) }
    ensures err { IfErr result (IsOfLoad which) }
    ensures content { (n : List ℕ) → F.content shelf.new n ≡ F.content shelf.old n }
    ensures counts { (n : List ℕ) → F.faults shelf.old n ≤ F.faults shelf.new n }
    ensures calm { (IsErrOf result Refusal.Read → ⊥) → (n : List ℕ) → F.faults shelf.new n ≡ F.faults shelf.old n }
{
    match load(alloc, shelf, name.as_str(), limit) {
        Ok(bytes) => Ok(bytes),
        Err(LoadFault::Read) => Err(Refusal::Read),
        Err(LoadFault::Limit) => Err(Refusal::Limit(which)),
        Err(LoadFault::Memory) => Err(Refusal::Memory),
    }
}

/// The bytes of all feeds.
pub(crate) fn load_feeds<F: Shelf>(
    alloc: Global,
    shelf: &mut F,
    names: &[Name],
) -> Result<Vec<Vec<u8>>, Refusal>
    ensures whole { IfOk result (λ all. (files : Files) → Told (F.content shelf.old) names.now files
        → map (λ f. f.items) all.items ≡ map files names.now) }
    ensures within { IfOk result (λ all. sum_by (λ (f : List ℕ). length f) (map (λ f. f.items) all.items) ≤ 33554432) }
    ensures count { IfOk result (λ all. length all.items ≡ length names.now) }
    ensures read { IsErrOf result Refusal.Read → SomeRose (F.faults shelf.old) (F.faults shelf.new) names.now }
    ensures limit { IsErrOf result (Refusal.Limit Which.FeedBytes) → (files : Files)
        → Told (F.content shelf.old) names.now files → 33554432 < feed_bytes files names.now }
    ensures err { IfErr result (IsOfLoad Which.FeedBytes) }
    ensures content { (n : List ℕ) → F.content shelf.new n ≡ F.content shelf.old n }
    ensures counts { (n : List ℕ) → F.faults shelf.old n ≤ F.faults shelf.new n }
    ensures calm { (IsErrOf result Refusal.Read → ⊥) → (n : List ℕ) → F.faults shelf.new n ≡ F.faults shelf.old n }
{
    let mut left = MOST_BYTES;
    let Ok(mut all) = Vec::with_capacity(alloc, names.len()) else {
        return Err(Refusal::Memory);
    };
    for name in names {
        let bytes = load_file(alloc, shelf, name, left, Which::FeedBytes)?;
        left -= bytes.len() as u64;
        let Ok(()) = all.push(bytes) else {
            return Err(Refusal::Memory);
        };
    }
    Ok(all)
}

// The records of a feed, at most so many.
fn read_one(alloc: Global, bytes: &[u8], limit: u64) -> Result<Feed, Refusal>
    ensures ok { IfOk result (λ feed. feed ≡ records_of bytes.now) }
    ensures within { OnOk result (length (records_of bytes.now) ≤ limit) }
    ensures many { IsErrOf result (Refusal.Limit Which.Records) → limit < length (records_of bytes.now) }
    ensures err { IfErr result IsOfRecords }
{
    match read_feed(alloc, bytes, limit) {
        Ok(feed) => Ok(feed),
        Err(FeedFault::TooManyRecords) => Err(Refusal::Limit(Which::Records)),
        Err(FeedFault::Memory) => Err(Refusal::Memory),
    }
}

/// The records of all feeds.
pub(crate) fn read_feeds(alloc: Global, files: &[Vec<u8>]) -> Result<Vec<Feed>, Refusal>
    ensures ok { IfOk result (λ feeds. feeds.items ≡ map records_of (map (λ f. f.items) files.now)) }
    ensures within { IfOk result (λ feeds. sum_by (λ (feed : List Record). length feed) feeds.items ≤ 2097152) }
    ensures many { IsErrOf result (Refusal.Limit Which.Records)
        → 2097152 < sum_by (λ (feed : List Record). length feed) (map records_of (map (λ f. f.items) files.now)) }
    ensures err { IfErr result IsOfRecords }
{
    let mut left = MOST_RECORDS;
    let Ok(mut feeds) = Vec::with_capacity(alloc, files.len()) else {
        return Err(Refusal::Memory);
    };
    for file in files {
        let feed = read_one(alloc, file.as_slice(), left)?;
        left -= feed.len();
        let Ok(()) = feeds.push(feed) else {
            return Err(Refusal::Memory);
        };
    }
    Ok(feeds)
}

/// The events of a schedule.
pub(crate) fn load_lines<F: Shelf>(
    alloc: Global,
    shelf: &mut F,
    name: &Name,
    nodes: u16,
    parts: u16,
) -> Result<Vec<Line>, Refusal>
    ensures script { IfOk result (λ script. IfSome (F.content shelf.old name.now)
        (λ file. IsScript nodes parts file script.items)) }
    ensures range { IfOk result (λ script. All (λ (line : Line). IsInRange nodes parts line.event) script.items) }
    ensures few { IfOk result (λ script. length script.items ≤ 1048576) }
    ensures fits { OnOk result (IfSome (F.content shelf.old name.now) (λ file. length file ≤ 33554432)) }
    ensures fits_lines { OnOk result (IfSome (F.content shelf.old name.now) (λ file. length (lines file) ≤ 1048576)) }
    ensures read { IsErrOf result Refusal.Read → Rose (F.faults shelf.old name.now) (F.faults shelf.new name.now) }
    ensures err { IfErr result (λ r. IfSome (F.content shelf.old name.now) (IsOfScript nodes parts r)) }
    ensures counts { (n : List ℕ) → F.faults shelf.old n ≤ F.faults shelf.new n }
    ensures calm { (IsErrOf result Refusal.Read → ⊥) → (n : List ℕ) → F.faults shelf.new n ≡ F.faults shelf.old n }
{
    let bytes = load_file(alloc, shelf, name, MOST_BYTES, Which::ScriptBytes)?;
    match read_script(alloc, bytes.as_slice(), nodes, parts) {
        Ok(script) => Ok(script),
        Err(ScriptFault::TooLong) => Err(Refusal::Limit(Which::ScriptLines)),
        Err(ScriptFault::Line(number)) => Err(Refusal::Script(number)),
        Err(ScriptFault::Memory) => Err(Refusal::Memory),
    }
}
