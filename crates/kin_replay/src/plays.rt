//! Events that a world takes in turn, while what they print is written.

ghost use Rattle.std.specs.Prelude.{◌≡◌, ◌≤◌, ◌+◌, [], ◌∷◌, true, false, All, OnOk, IsErrOf, option_map, length};
ghost use Rattle.kin_io.specs.Outside.{Rose};
ghost use Rattle.kin_script.specs.declared.events.Line.{Line};
ghost use Rattle.kin_history.specs.Setting.{IsEvent};
ghost use Rattle.kin_hub.specs.Hubs.{cuts_in};
ghost use Rattle.kin_world.specs.Worlds.{HasRoom, setting_of};
ghost use Rattle.kin_world.specs.Stands.{HasHistory};
ghost use Rattle.kin_report.specs.Report.{scheduled};
ghost use Rattle.kin_replay.specs.Plays.{Plays, PlaysFront, PlaysDrain, PlaysDrainFront, PlaysWhole, PlaysWholeFront, MayUnflush, ran, scene};

use crate::blocks::{Printing, text_of};
use kin_ids::{Failed, Memory};
use kin_io::{Sink, put_all};
use kin_script::{Event, Line};
use kin_world::World;
use std::alloc::Global;

/// Why a run stopped.
#[derive(Clone, Copy, Debug, PartialEq, Eq)]
pub(crate) enum Stop {
    /// The report could not be written.
    Write,
    /// There was not enough memory.
    Memory,
}

impl From<Memory> for Stop {
    ghost use Rattle.std.specs.Prelude.{◌≡◌};
    ghost use Rattle.kin_replay.specs.declared.plays.Stop.TheVariants as stop;

    ghost from_gives = { λ _ e. e ≡ stop.Memory };

    fn from(_fault: Memory) -> Stop {
        Stop::Memory
    }
}

impl From<Failed> for Stop {
    ghost use Rattle.std.specs.Prelude.{◌≡◌};
    ghost use Rattle.kin_replay.specs.declared.plays.Stop.TheVariants as stop;

    ghost from_gives = { λ _ e. e ≡ stop.Write };

    fn from(_fault: Failed) -> Stop {
        Stop::Write
    }
}

// One event, and what it prints. All that it prints is made before any of it is written.
fn play<O: Sink>(
    alloc: Global,
    world: &mut World,
    printing: &Printing,
    number: Option<u64>,
    event: Event,
    out: &mut O,
) -> Result<(), Stop>
    requires event { IsEvent (setting_of world.old) event }
    requires room { HasRoom world.old event }
    requires has { HasHistory world.old }
    requires landmarks { world.old.miner.landmarks ≡ printing.now.options.landmarks }
    ensures ok { OnOk result (Plays printing.now.options printing.now.trace (ran number event)
        (scene world.old (O.taken out.old)) (scene world.new (O.taken out.new))) }
    ensures write { IsErrOf result Stop.Write → PlaysFront false printing.now.options printing.now.trace (ran number event)
        (scene world.old (O.taken out.old)) (scene world.new (O.taken out.new)) }
    ensures memory { IsErrOf result Stop.Memory → PlaysFront true printing.now.options printing.now.trace (ran number event)
        (scene world.old (O.taken out.old)) (scene world.new (O.taken out.new)) }
    ensures setting { OnOk result (setting_of world.new ≡ setting_of world.old) }
    ensures has { OnOk result (HasHistory world.new) }
    ensures cuts { cuts_in world.new.hub ≤ cuts_in world.old.hub + 1 }
    ensures flushed { OnOk result (MayUnflush (O.flushed out.old) (O.flushed out.new)) }
    ensures cause { IsErrOf result Stop.Write → Rose (O.faults out.old) (O.faults out.new) }
    ensures calm { (IsErrOf result Stop.Write → ⊥) → O.faults out.new ≡ O.faults out.old }
{
    let outcome = world.step(event)?;
    let text = text_of(alloc, world, printing, number, &outcome)?;
    put_all(out, text.as_slice())?;
    Ok(())
}

// The events of a schedule, line by line. Each of them may cut an epoch.
fn play_lines<O: Sink>(
    alloc: Global,
    world: &mut World,
    printing: &Printing,
    lines: &[Line],
    out: &mut O,
) -> Result<(), Stop>
    requires lines { All (λ (line : Line). IsEvent (setting_of world.old) line.event) lines.now }
    requires room { cuts_in world.old.hub + length lines.now ≤ u32.MAX }
    requires has { HasHistory world.old }
    requires landmarks { world.old.miner.landmarks ≡ printing.now.options.landmarks }
    ensures ok { OnOk result (Plays printing.now.options printing.now.trace (scheduled lines.now)
        (scene world.old (O.taken out.old)) (scene world.new (O.taken out.new))) }
    ensures write { IsErrOf result Stop.Write → PlaysFront false printing.now.options printing.now.trace (scheduled lines.now)
        (scene world.old (O.taken out.old)) (scene world.new (O.taken out.new)) }
    ensures memory { IsErrOf result Stop.Memory → PlaysFront true printing.now.options printing.now.trace (scheduled lines.now)
        (scene world.old (O.taken out.old)) (scene world.new (O.taken out.new)) }
    ensures setting { OnOk result (setting_of world.new ≡ setting_of world.old) }
    ensures has { OnOk result (HasHistory world.new) }
    ensures flushed { OnOk result (MayUnflush (O.flushed out.old) (O.flushed out.new)) }
    ensures cause { IsErrOf result Stop.Write → Rose (O.faults out.old) (O.faults out.new) }
    ensures calm { (IsErrOf result Stop.Write → ⊥) → O.faults out.new ≡ O.faults out.old }
{
    for line in lines {
        play(alloc, world, printing, Some(line.number), line.event, out)?;
    }
    Ok(())
}

// The drain: every partition commits what is cut, the least first, and then every cut epoch is mined.
fn play_drain<O: Sink>(
    alloc: Global,
    world: &mut World,
    printing: &Printing,
    out: &mut O,
) -> Result<(), Stop>
    requires has { HasHistory world.old }
    requires landmarks { world.old.miner.landmarks ≡ printing.now.options.landmarks }
    ensures ok { OnOk result (PlaysDrain printing.now.options printing.now.trace
        (scene world.old (O.taken out.old)) (scene world.new (O.taken out.new))) }
    ensures write { IsErrOf result Stop.Write → PlaysDrainFront false printing.now.options printing.now.trace
        (scene world.old (O.taken out.old)) (scene world.new (O.taken out.new)) }
    ensures memory { IsErrOf result Stop.Memory → PlaysDrainFront true printing.now.options printing.now.trace
        (scene world.old (O.taken out.old)) (scene world.new (O.taken out.new)) }
    ensures flushed { OnOk result (MayUnflush (O.flushed out.old) (O.flushed out.new)) }
    ensures cause { IsErrOf result Stop.Write → Rose (O.faults out.old) (O.faults out.new) }
    ensures calm { (IsErrOf result Stop.Write → ⊥) → O.faults out.new ≡ O.faults out.old }
{
    while let Some(event) = world.drain_next() {
        play(alloc, world, printing, None, event, out)?;
    }
    Ok(())
}

/// A schedule and its drain, and then all that was written is brought out.
pub(crate) fn play_all<O: Sink>(
    alloc: Global,
    world: &mut World,
    printing: &Printing,
    lines: &[Line],
    out: &mut O,
) -> Result<(), Stop>
    requires lines { All (λ (line : Line). IsEvent (setting_of world.old) line.event) lines.now }
    requires room { cuts_in world.old.hub + length lines.now ≤ u32.MAX }
    requires has { HasHistory world.old }
    requires landmarks { world.old.miner.landmarks ≡ printing.now.options.landmarks }
    ensures ok { OnOk result (PlaysWhole printing.now.options printing.now.trace lines.now
        (scene world.old (O.taken out.old)) (scene world.new (O.taken out.new))) }
    ensures write { IsErrOf result Stop.Write → PlaysWholeFront false printing.now.options printing.now.trace lines.now
        (scene world.old (O.taken out.old)) (scene world.new (O.taken out.new)) }
    ensures memory { IsErrOf result Stop.Memory → PlaysWholeFront true printing.now.options printing.now.trace lines.now
        (scene world.old (O.taken out.old)) (scene world.new (O.taken out.new)) }
    ensures flushed { OnOk result (O.flushed out.new ≡ option_map (λ _. true) (O.flushed out.old)) }
    ensures cause { IsErrOf result Stop.Write → Rose (O.faults out.old) (O.faults out.new) }
    ensures calm { (IsErrOf result Stop.Write → ⊥) → O.faults out.new ≡ O.faults out.old }
{
    play_lines(alloc, world, printing, lines, out)?;
    play_drain(alloc, world, printing, out)?;
    out.flush()?;
    Ok(())
}
