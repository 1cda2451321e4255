//! The job that the words and their files ask for.

ghost use Rattle.std.specs.Prelude.{◌≡◌, ◌<◌, ◌≤◌, ℕ, List, length, sum_by, IfOk, IfErr, OnOk, IsErrOf};
ghost use Rattle.kin_ids.specs.declared.ops.Record.{Record};
ghost use Rattle.kin_replay.specs.Jobs.{IsReady};
ghost use Rattle.kin_replay.specs.Files.{Files, FeedsFit, FilesFit, IsJob, SomeRose, Told, feeds_in, names_of};
ghost use Rattle.kin_replay.specs.Refusals.{IsOfFeeds, IsOfFiles};
ghost use Rattle.kin_replay.specs.Loaded.{AreInRange, job_of};

use crate::files::{load_feeds, load_lines, read_feeds};
use crate::refusals::Refusal;
use kin_feed::Feed;
use kin_ids::{Name, OptionWords, ReplayWords};
use kin_io::Shelf;
use kin_script::Line;
use std::alloc::Global;

/// The records of the feeds, the events of the schedule, and what the words choose.
#[derive(Drop)]
pub(crate) struct Job {
    pub(crate) feeds: Vec<Feed>,
    pub(crate) parts: u16,
    pub(crate) options: OptionWords,
    pub(crate) trace: bool,
    pub(crate) lines: Vec<Line>,
}

// The records of the feeds of these names.
fn load_records<F: Shelf>(
    alloc: Global,
    shelf: &mut F,
    names: &[Name],
) -> Result<Vec<Feed>, Refusal>
    ensures feeds { IfOk result (λ feeds. (files : Files) → Told (F.content shelf.old) names.now files
        → feeds.items ≡ feeds_in files names.now) }
    ensures fit { OnOk result ((files : Files) → Told (F.content shelf.old) names.now files
        → FeedsFit names.now files) }
    ensures count { IfOk result (λ feeds. length feeds.items ≡ length names.now) }
    ensures within { IfOk result (λ feeds. sum_by (λ (feed : List Record). length feed) feeds.items ≤ 2097152) }
    ensures read { IsErrOf result Refusal.Read → SomeRose (F.faults shelf.old) (F.faults shelf.new) names.now }
    ensures err { IfErr result (λ refusal. (files : Files) → Told (F.content shelf.old) names.now files
        → IsOfFeeds names.now files refusal) }
    ensures content { (n : List ℕ) → F.content shelf.new n ≡ F.content shelf.old n }
    ensures counts { (n : List ℕ) → F.faults shelf.old n ≤ F.faults shelf.new n }
    ensures calm { (IsErrOf result Refusal.Read → ⊥) → (n : List ℕ) → F.faults shelf.new n ≡ F.faults shelf.old n }
{
    let files = load_feeds(alloc, shelf, names)?;
    read_feeds(alloc, files.as_slice())
}

/// Reads the feeds in their order, and then the schedule. Its cost is linear in their bytes.
pub(crate) fn read_job<F: Shelf>(
    alloc: Global,
    shelf: &mut F,
    words: ReplayWords,
) -> Result<Job, Refusal>
    requires ranges { AreInRange words }
    ensures job { IfOk result (λ job. (files : Files) → Told (F.content shelf.old) (names_of words) files
        → IsJob words files (job_of job)) }
    ensures fit { OnOk result ((files : Files) → Told (F.content shelf.old) (names_of words) files
        → FilesFit words files) }
    ensures ready { IfOk result (λ job. IsReady (job_of job)) }
    ensures read { IsErrOf result Refusal.Read → SomeRose (F.faults shelf.old) (F.faults shelf.new) (names_of words) }
    ensures err { IfErr result (λ refusal. (files : Files) → Told (F.content shelf.old) (names_of words) files
        → IsOfFiles words files refusal) }
    ensures counts { (n : List ℕ) → F.faults shelf.old n ≤ F.faults shelf.new n }
    ensures calm { (IsErrOf result Refusal.Read → ⊥) → (n : List ℕ) → F.faults shelf.new n ≡ F.faults shelf.old n }
{
    let feeds = load_records(alloc, shelf, words.feeds.as_slice())?;
    let nodes = feeds.len() as u16;
    let lines = load_lines(alloc, shelf, &words.script, nodes, words.parts)?;
    Ok(Job {
        feeds,
        parts: words.parts,
        options: words.options,
        trace: words.trace,
        lines,
    })
}
