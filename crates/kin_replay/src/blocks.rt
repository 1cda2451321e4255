//! What the answer to an event prints.

ghost use Rattle.std.specs.Prelude.{◌≡◌, ℕ, List, IfOk};
ghost use Rattle.kin_script.specs.declared.events.Event.{Event};
ghost use Rattle.kin_history.specs.Setting.{Setting};
ghost use Rattle.kin_report.specs.Report.{block_after, traced};
ghost use Rattle.kin_world.specs.Stands.{Stands, last_begun};
ghost use Rattle.kin_replay.specs.Mined.{HasJustMined, HasMined, IsOfHistory};
ghost use Rattle.kin_replay.specs.Plays.{shown_answer};

use crate::counts::counts_of;
use kin_ids::{Epoch, Memory, OptionWords};
use kin_report::{block, trace_line};
use kin_script::Outcome;
use kin_world::World;
use std::alloc::Global;

/// What is printed of a run.
#[derive(Debug, Drop)]
pub(crate) struct Printing {
    pub(crate) options: OptionWords,
    pub(crate) trace: bool,
}

// The trace line of an event of the schedule, where the trace is asked for.
fn trace_of(
    alloc: Global,
    trace: bool,
    number: Option<u64>,
    outcome: &Outcome,
) -> Result<Vec<u8>, Memory>
    ensures { IfOk result (λ text. text.items ≡ traced trace number outcome.now) }
{
    match number {
        Some(number) if trace => trace_line(alloc, number, outcome),
        _ => Ok(Vec::new(alloc)),
    }
}

/// The block of the epoch that was just mined.
pub(crate) fn block_of(
    alloc: Global,
    world: &World,
    k: Epoch,
    options: &OptionWords,
) -> Result<Vec<u8>, Memory>
    requires mined { HasJustMined world.now k.0 }
    requires landmarks { world.now.miner.landmarks ≡ options.now.landmarks }
    ensures { IfOk result (λ text. (set : Setting) (h : List Event) → Stands set world.now h
        → last_begun set h ≡ k.0 → text.items ≡ block_after set options.now h k.0) }
{
    let hub = world.hub();
    let Some(cut) = hub.cut_of(k) else {
        unreachable!()
    };
    let counts = counts_of(world.feeds(), hub.cut_of(Epoch(k.0 - 1)), cut);
    let Ok(values) = world.miner().result() else {
        unreachable!()
    };
    block(alloc, cut, counts.records, counts.bad, values, options)
}

/// What the answer to an event prints: its trace line, and the block of the epoch that it mined.
pub(crate) fn text_of(
    alloc: Global,
    world: &World,
    printing: &Printing,
    number: Option<u64>,
    outcome: &Outcome,
) -> Result<Vec<u8>, Memory>
    requires mined { HasMined world.now outcome.now }
    requires landmarks { world.now.miner.landmarks ≡ printing.now.options.landmarks }
    ensures { IfOk result (λ text. (set : Setting) (h : List Event) → Stands set world.now h
        → IsOfHistory set h outcome.now
        → text.items ≡ shown_answer set printing.now.options printing.now.trace h number outcome.now) }
{
    let mut text = trace_of(alloc, printing.trace, number, outcome)?;
    if let Outcome::Mined(k) = outcome {
        text.extend_from_slice(block_of(alloc, world, *k, &printing.options)?.as_slice())?;
    }
    Ok(text)
}
