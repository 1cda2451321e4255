//! Engines that follow a world from epoch to epoch, on views that count their calls.

ghost use Rattle.std.specs.Prelude.{◌≡◌, ◌<◌, ◌+◌, ◌^◌, true, IfOk};
ghost use Rattle.kin_world.specs.Stands.{HasHistory};
ghost use Rattle.kin_probe.specs.Follows.{LayersAt, WalksAt};

use crate::CountedView;
use kin_graph::Steps;
use kin_ids::{Epoch, Memory};
use kin_pull::PullEngine;
use kin_push::PushEngine;
use kin_rules::{PullRule, PushRule};
use kin_world::World;
use std::alloc::Global;
use std::sync::atomic::AtomicU64;
use std::sync::ledger::Ledger;

/// An engine of walks at epoch 0 of a world, that of the empty graph.
pub fn start_walks<R: PushRule + Drop>(
    alloc: Global,
    world: &World,
    rule: R,
) -> Result<PushEngine<R>, Memory>
    requires { HasHistory world.now }
    ensures { IfOk result (λ e. WalksAt world.now 0 (R.seen e.rule) e.state) }
{
    let _ = world;
    let engine = PushEngine::new(alloc, rule)?;
    Ok(engine)
}

/// Takes an engine of walks from one epoch of a world to the next, where the world keeps that: it begins by the deltas
/// of the epoch, and settles on its stores. The calls for edges are counted.
pub fn follow_walks<R: PushRule + Drop, L: Ledger>(
    world: &World,
    k: u32,
    engine: &mut PushEngine<R>,
    calls: &AtomicU64,
    steps: &mut Steps<L>,
) -> Result<bool, Memory>
    requires at { WalksAt world.now k (R.seen engine.old.rule) engine.old.state }
    requires small { k + 1 < 2 ^ 32 }
    ensures { IfOk result (λ kept. kept ≡ true → WalksAt world.now (k + 1) (R.seen engine.new.rule) engine.new.state) }
{
    let next = Epoch(k + 1);
    let Some(snap) = world.hub().snapshot(next) else {
        return Ok(false);
    };
    let Some(deltas) = world.hub().deltas(next) else {
        return Ok(false);
    };
    engine.begin(deltas)?;
    let view = CountedView { snap, calls };
    engine.settle(&view, steps)?;
    Ok(true)
}

/// An engine of layers at epoch 0 of a world, that of the empty graph.
pub fn start_layers<R: PullRule + Drop>(
    alloc: Global,
    world: &World,
    rule: R,
) -> Result<PullEngine<R>, Memory>
    requires { HasHistory world.now }
    ensures { IfOk result (λ e. LayersAt world.now 0 (R.seen e.rule) R.LAYERS e.users e.kept) }
{
    let _ = world;
    let engine = PullEngine::new(alloc, rule)?;
    Ok(engine)
}

/// Takes an engine of layers from one epoch of a world to the next, as `follow_walks` does.
pub fn follow_layers<R: PullRule + Drop, L: Ledger>(
    world: &World,
    k: u32,
    engine: &mut PullEngine<R>,
    calls: &AtomicU64,
    steps: &mut Steps<L>,
) -> Result<bool, Memory>
    requires at { LayersAt world.now k (R.seen engine.old.rule) R.LAYERS engine.old.users engine.old.kept }
    requires small { k + 1 < 2 ^ 32 }
    ensures { IfOk result (λ kept. kept ≡ true
        → LayersAt world.now (k + 1) (R.seen engine.new.rule) R.LAYERS engine.new.users engine.new.kept) }
{
    let next = Epoch(k + 1);
    let Some(snap) = world.hub().snapshot(next) else {
        return Ok(false);
    };
    let Some(deltas) = world.hub().deltas(next) else {
        return Ok(false);
    };
    engine.begin(deltas)?;
    let view = CountedView { snap, calls };
    engine.settle(&view, steps)?;
    Ok(true)
}
