//! Events in turn.

ghost use Rattle.std.specs.Prelude.{◌≡◌, ◌≤◌, ◌+◌, All, IfOk, OnErr, length};
ghost use Rattle.kin_history.specs.Setting.{IsEvent};
ghost use Rattle.kin_hub.specs.Hubs.{cuts_in};
ghost use Rattle.kin_world.specs.Worlds.{setting_of};
ghost use Rattle.kin_world.specs.Runs.{Runs, RunsInPart};

use crate::worlds::World;
use kin_ids::Memory;
use kin_script::{Event, Outcome};
use std::alloc::Global;

/// Gives the world these events in turn, and collects the answers. After `Memory` it has taken some first ones of them, and where the
/// next is a Mine it may have begun that epoch.
/// There is room for a cut by each of them.
pub fn run(alloc: Global, world: &mut World, events: &[Event]) -> Result<Vec<Outcome>, Memory>
    requires events { All (IsEvent (setting_of world.old)) events.now }
    requires room { cuts_in world.old.hub + length events.now ≤ u32.MAX }
    ensures runs { IfOk result (λ told. Runs world.old events.now told.items world.new) }
    ensures err { OnErr result (RunsInPart world.old events.now world.new) }
{
    let mut told = Vec::with_capacity(alloc, events.len())?;
    for event in events {
        told.push(world.step(*event)?)?;
    }
    Ok(told)
}
