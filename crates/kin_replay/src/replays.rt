//! The command `replay`.

ghost use Rattle.std.specs.Prelude.{◌≡◌, ℕ, List, None, Some, true, is_some, map, option_map, string_bytes, IfSome};
ghost use Rattle.kin_ids.specs.declared.options.ReplayWords.{ReplayWords};
ghost use Rattle.kin_io.specs.Outside.{Rose};
ghost use Rattle.kin_words.specs.Commands.{AsksReplay};
ghost use Rattle.kin_replay.specs.Jobs as jobs;
ghost use Rattle.kin_replay.specs.Files.{FilesFit, IsJob, IsRefused, NoneRose, SomeRose, is_refusal, names_of};
ghost use Rattle.kin_replay.specs.Loaded.{AreInRange};
ghost use Rattle.kin_replay.specs.Ends.{Asked, EndsDone, EndsStarved, EndsUnwritten, ForAsked, ForJob, ForTold, IsDoneOrMemory, IsOrMemory, IsUsageOrMemory, has_run, is_early};

use crate::jobs::read_job;
use crate::runs::run_job;
use kin_ids::{ReplayWords, Status};
use kin_io::{Shelf, Sink};
use kin_words::{WordsFault, read_replay};
use kin_world::World;
use std::alloc::Global;

/// How a run ended, and what stands after it.
#[derive(Drop)]
pub struct Run {
    /// How it ended.
    pub status: Status,
    /// The world, once there is one.
    pub world: Option<World>,
}

/// A run that ended before its first event.
pub(crate) fn unbegun(status: Status) -> Run
    ensures status { result.status ≡ status }
    ensures world { result.world ≡ None }
{
    Run {
        status,
        world: None,
    }
}

// Runs what these words ask for: reads the feeds, then the schedule, and runs it.
fn run_words<F: Shelf, O: Sink>(
    alloc: Global,
    words: ReplayWords,
    shelf: &mut F,
    out: &mut O,
) -> Run
    requires ranges { AreInRange words }
    ensures done { result.status ≡ Status.Done → ForTold (F.content shelf.old) words (λ files.
        Asked words files (λ j. EndsDone j (O.taken out.old) (O.taken out.new) result.world)) }
    ensures flushed { result.status ≡ Status.Done
        → O.flushed out.new ≡ option_map (λ _. true) (O.flushed out.old) }
    ensures write { result.status ≡ Status.Write → ForTold (F.content shelf.old) words (λ files.
        Asked words files (λ j. EndsUnwritten j (O.taken out.old) (O.taken out.new) result.world)) }
    ensures write_cause { result.status ≡ Status.Write → Rose (O.faults out.old) (O.faults out.new) }
    ensures calm_sink { (result.status ≡ Status.Write → ⊥) → O.faults out.new ≡ O.faults out.old }
    ensures memory { result.status ≡ Status.Memory
        → IfSome result.world (λ world. ForTold (F.content shelf.old) words (λ files.
        Asked words files (λ j. EndsStarved j (O.taken out.old) (O.taken out.new) (Some world)))) }
    ensures starved { result.status ≡ Status.Memory → result.world ≡ None → O.taken out.new ≡ O.taken out.old }
    ensures read { result.status ≡ Status.Read → SomeRose (F.faults shelf.old) (F.faults shelf.new) (names_of words) }
    ensures calm_shelf { (result.status ≡ Status.Read → ⊥) → (n : List ℕ)
        → F.faults shelf.new n ≡ F.faults shelf.old n }
    ensures usage { result.status ≡ Status.Usage → ⊥ }
    ensures refused { is_refusal result.status ≡ true
        → ForTold (F.content shelf.old) words (λ files. IsRefused words files result.status) }
    ensures exact { (s : Status) → ForTold (F.content shelf.old) words (λ files.
        NoneRose (F.faults shelf.old) (F.faults shelf.new) (names_of words) → IsRefused words files s → IsOrMemory s result.status) }
    ensures early { is_early result.status ≡ true → out.new ≡ out.old }
    ensures early_world { is_early result.status ≡ true → result.world ≡ None }
    ensures late_world { has_run result.status ≡ true → is_some result.world ≡ true }
    ensures complete { (j : jobs.Job) → ForTold (F.content shelf.old) words (λ files.
        FilesFit words files → IsJob words files j → NoneRose (F.faults shelf.old) (F.faults shelf.new) (names_of words)
        → (Rose (O.faults out.old) (O.faults out.new) → ⊥) → IsDoneOrMemory result.status) }
{
    match read_job(alloc, shelf, words) {
        Ok(job) => run_job(alloc, job, out),
        Err(refusal) => unbegun(refusal.status()),
    }
}

/// Runs a schedule over feeds, as the words say: reads the words, then the feeds, then the schedule, and then runs its
/// events and
/// the drain, writing each block as its epoch is mined. Reading costs what the bytes do; each event costs what it costs
/// the world.
pub fn replay<F: Shelf, O: Sink>(alloc: Global, words: &[String], shelf: &mut F, out: &mut O) -> Run
    // At Done all of the report was written and flushed, and the world stands for the history; no call failed.
    ensures done { result.status ≡ Status.Done → ForJob (map string_bytes words.now) (F.content shelf.old)
        (λ j. EndsDone j (O.taken out.old) (O.taken out.new) result.world) }
    ensures flushed { result.status ≡ Status.Done
        → O.flushed out.new ≡ option_map (λ _. true) (O.flushed out.old) }

    // At Write a prefix of it was, and only a call on the sink that failed leads there.
    ensures write { result.status ≡ Status.Write → ForJob (map string_bytes words.now) (F.content shelf.old)
        (λ j. EndsUnwritten j (O.taken out.old) (O.taken out.new) result.world) }
    ensures write_cause { result.status ≡ Status.Write → Rose (O.faults out.old) (O.faults out.new) }
    ensures calm_sink { (result.status ≡ Status.Write → ⊥) → O.faults out.new ≡ O.faults out.old }

    // At Memory too, where there is a world; else nothing was written.
    ensures memory { result.status ≡ Status.Memory → IfSome result.world (λ world.
        ForJob (map string_bytes words.now) (F.content shelf.old) (λ j. EndsStarved j (O.taken out.old) (O.taken out.new) (Some world))) }
    ensures starved { result.status ≡ Status.Memory → result.world ≡ None → O.taken out.new ≡ O.taken out.old }

    // Only a read of one of the files that failed leads to Read.
    ensures read { result.status ≡ Status.Read → (w : ReplayWords) → AsksReplay (map string_bytes words.now) w
        → SomeRose (F.faults shelf.old) (F.faults shelf.new) (names_of w) }
    ensures calm_shelf { (result.status ≡ Status.Read → ⊥) → (n : List ℕ)
        → F.faults shelf.new n ≡ F.faults shelf.old n }

    // Usage comes exactly where the words ask for nothing.
    ensures usage { result.status ≡ Status.Usage → (w : ReplayWords) → AsksReplay (map string_bytes words.now) w → ⊥ }
    ensures usage_kept { result.status ≡ Status.Usage → shelf.new ≡ shelf.old }
    ensures words { ((w : ReplayWords) → AsksReplay (map string_bytes words.now) w → ⊥)
        → IsUsageOrMemory result.status }

    // Limit and Script come exactly where the files are refused so.
    ensures refused { is_refusal result.status ≡ true
        → ForAsked (map string_bytes words.now) (F.content shelf.old) (λ w files.
        IsRefused w files result.status) }
    ensures exact { (s : Status) → ForAsked (map string_bytes words.now) (F.content shelf.old) (λ w files.
        NoneRose (F.faults shelf.old) (F.faults shelf.new) (names_of w) → IsRefused w files s → IsOrMemory s result.status) }

    // What stands after a status that comes before the first event, and after one that comes later.
    ensures early { is_early result.status ≡ true → out.new ≡ out.old }
    ensures early_world { is_early result.status ≡ true → result.world ≡ None }
    ensures late_world { has_run result.status ≡ true → is_some result.world ≡ true }

    // Where nothing is wrong, only want of memory comes in the way.
    ensures complete { (j : jobs.Job) → ForAsked (map string_bytes words.now) (F.content shelf.old) (λ w files.
        FilesFit w files → IsJob w files j → NoneRose (F.faults shelf.old) (F.faults shelf.new) (names_of w)
        → (Rose (O.faults out.old) (O.faults out.new) → ⊥) → IsDoneOrMemory result.status) }
{
    match read_replay(alloc, words) {
        Ok(words) => run_words(alloc, words, shelf, out),
        Err(WordsFault::Usage) => unbegun(Status::Usage),
        Err(WordsFault::Memory) => unbegun(Status::Memory),
    }
}
