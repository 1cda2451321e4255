//! The command `demo`.

ghost use Rattle.std.specs.Prelude.{◌≡◌, ◌≤◌, List, ℕ, [], Some, None, true, is_some, map, option_map, string_bytes, IfOk, OnOk, OnErr};
ghost use Rattle.kin_ids.specs.declared.options.DemoWords.{DemoWords};
ghost use Rattle.kin_io.specs.Outside.{Rose, Grew, GrewBySome};
ghost use Rattle.kin_words.specs.Commands.{AsksDemo};
ghost use Rattle.kin_world.specs.Stands.{Stands};
ghost use Rattle.kin_replay.specs.Ends.{IsDoneOrMemory, IsUsageOrMemory, has_run, is_early};
ghost use Rattle.kin_replay.specs.Demos.{DemoDone, DemoUnwritten, ForDemo, StandsForDemoFront, demo_history, demo_report, demo_setting};

use crate::generated::{demo_text, open_generated, run_generated};
use crate::plays::Stop;
use crate::replays::{Run, unbegun};
use kin_ids::{DemoWords, Memory, Status};
use kin_io::{Sink, put_all};
use kin_words::{WordsFault, read_demo};
use kin_world::World;
use std::alloc::Global;

// Runs the job, and makes what is printed of it.
fn told(alloc: Global, world: &mut World, words: DemoWords) -> Result<Vec<u8>, Memory>
    requires few { words.records ≤ 500000 }
    requires stands { Stands (demo_setting words) world.old [] }
    ensures text { IfOk result (λ text. text.items ≡ demo_report words) }
    ensures stands { OnOk result (Stands (demo_setting words) world.new (demo_history words)) }
    ensures err { OnErr result (StandsForDemoFront words (Some world.new)) }
{
    run_generated(alloc, world, words)?;
    demo_text(alloc, world, words)
}

// Writes a text, and brings it out.
fn write<O: Sink>(out: &mut O, text: &[u8]) -> Result<(), Stop>
    ensures ok { OnOk result (Grew (O.taken out.old) (O.taken out.new) text.now) }
    ensures flushed { OnOk result (O.flushed out.new ≡ option_map (λ _. true) (O.flushed out.old)) }
    ensures calm { OnOk result (O.faults out.new ≡ O.faults out.old) }
    ensures err { OnErr result (GrewBySome (O.taken out.old) (O.taken out.new) text.now) }
    ensures cause { OnErr result (Rose (O.faults out.old) (O.faults out.new)) }
{
    put_all(out, text)?;
    out.flush()?;
    Ok(())
}

// A run that ended with this world.
fn ended(status: Status, world: World) -> Run
    ensures status { result.status ≡ status }
    ensures world { result.world ≡ Some world }
{
    Run {
        status,
        world: Some(world),
    }
}

// Runs the job that these words ask for.
fn run_demo<O: Sink>(alloc: Global, words: DemoWords, out: &mut O) -> Run
    requires few { words.records ≤ 500000 }
    ensures done { result.status ≡ Status.Done → DemoDone words (O.taken out.old) (O.taken out.new) result.world }
    ensures flushed { result.status ≡ Status.Done → O.flushed out.new ≡ option_map (λ _. true) (O.flushed out.old) }
    ensures write { result.status ≡ Status.Write
        → DemoUnwritten words (O.taken out.old) (O.taken out.new) result.world }
    ensures write_cause { result.status ≡ Status.Write → Rose (O.faults out.old) (O.faults out.new) }
    ensures calm { (result.status ≡ Status.Write → ⊥) → O.faults out.new ≡ O.faults out.old }
    ensures memory { result.status ≡ Status.Memory → StandsForDemoFront words result.world }
    ensures starved { result.status ≡ Status.Memory → out.new ≡ out.old }
    ensures ended { is_early result.status ≡ true → ⊥ }
    ensures late_world { has_run result.status ≡ true → is_some result.world ≡ true }
{
    let Ok(mut world) = open_generated(alloc, words) else {
        return unbegun(Status::Memory);
    };
    let Ok(text) = told(alloc, &mut world, words) else {
        return ended(Status::Memory, world);
    };
    let Ok(()) = write(out, text.as_slice()) else {
        return ended(Status::Write, world);
    };
    ended(Status::Done, world)
}

/// Makes a job of feeds and events from the seed and the number of records that the words choose, runs its events and
/// the drain, and
/// writes the number of epochs and of bad records, and the block of the last epoch. The same words give the same bytes
/// everywhere.
/// Making the job is linear in its records; each event costs what it costs the world.
pub fn demo<O: Sink>(alloc: Global, words: &[String], out: &mut O) -> Run
    // At Done all of the report was written and flushed, and the world stands for the history; no call failed.
    ensures done { result.status ≡ Status.Done → ForDemo (map string_bytes words.now)
        (λ w. DemoDone w (O.taken out.old) (O.taken out.new) result.world) }
    ensures flushed { result.status ≡ Status.Done → O.flushed out.new ≡ option_map (λ _. true) (O.flushed out.old) }

    // At Write a prefix of it was, and only a call on the sink that failed leads there.
    ensures write { result.status ≡ Status.Write → ForDemo (map string_bytes words.now)
        (λ w. DemoUnwritten w (O.taken out.old) (O.taken out.new) result.world) }
    ensures write_cause { result.status ≡ Status.Write → Rose (O.faults out.old) (O.faults out.new) }
    ensures calm { (result.status ≡ Status.Write → ⊥) → O.faults out.new ≡ O.faults out.old }

    // At Memory nothing was written, and the world, where there is one, stands for a front of the history.
    ensures memory { result.status ≡ Status.Memory
        → ForDemo (map string_bytes words.now) (λ w. StandsForDemoFront w result.world) }
    ensures starved { result.status ≡ Status.Memory → out.new ≡ out.old }

    // Usage comes exactly where the words ask for nothing, and then nothing was done. No other refusal comes.
    ensures usage { result.status ≡ Status.Usage → (w : DemoWords) → AsksDemo (map string_bytes words.now) w → ⊥ }
    ensures words { ((w : DemoWords) → AsksDemo (map string_bytes words.now) w → ⊥) → IsUsageOrMemory result.status }
    ensures early { is_early result.status ≡ true → result.status ≡ Status.Usage }
    ensures usage_kept { result.status ≡ Status.Usage → out.new ≡ out.old }
    ensures usage_world { result.status ≡ Status.Usage → result.world ≡ None }
    ensures late_world { has_run result.status ≡ true → is_some result.world ≡ true }

    // Where nothing is wrong, only want of memory comes in the way.
    ensures complete { ForDemo (map string_bytes words.now) (λ w. (Rose (O.faults out.old) (O.faults out.new) → ⊥)
        → IsDoneOrMemory result.status) }
{
    match read_demo(alloc, words) {
        Ok(words) => run_demo(alloc, words, out),
        Err(WordsFault::Usage) => unbegun(Status::Usage),
        Err(WordsFault::Memory) => unbegun(Status::Memory),
    }
}
