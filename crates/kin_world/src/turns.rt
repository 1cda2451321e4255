//! The miner's turns, where nobody counts what they read.

ghost use Rattle.std.specs.Prelude.{◌≡◌, ◌<◌, ◌↔◌, [], IsErrOf, OnOk, OnErr};
ghost use Rattle.kin_mine.specs.Miners.{active_in, begun};
ghost use Rattle.kin_world.specs.Mining.{MakesTurns, TurnsUser};

use kin_graph::Steps;
use kin_ids::User;
use kin_mine::{Miner, Turn, TurnRefused};
use std::sync::ledger::{Blank, Ledger};

/// A turn of a user; what it reads isn't counted.
pub(crate) fn turn_of<L: Ledger>(
    miner: &mut Miner,
    user: User,
    blank: Blank,
) -> Result<Turn, TurnRefused>
    requires name { blank.name ≡ L.name }
    requires parts { (blank.parts ≡ L.parts) × (0 < L.parts) }
    ensures not_begun { IsErrOf result TurnRefused.NotBegun ↔ (begun miner.old ≡ 0) }
    ensures turns { OnOk result (TurnsUser miner.old user miner.new) }
    ensures err { OnErr result (miner.new ≡ miner.old) }
{
    let mut steps = Steps::<L>::new(blank);
    miner.turn(user, &mut steps)
}

/// Turns until nobody is active; what they read isn't counted. After `Memory` some are made.
pub(crate) fn settle<L: Ledger>(miner: &mut Miner, blank: Blank) -> Result<(), TurnRefused>
    requires name { blank.name ≡ L.name }
    requires parts { (blank.parts ≡ L.parts) × (0 < L.parts) }
    ensures not_begun { IsErrOf result TurnRefused.NotBegun ↔ (begun miner.old ≡ 0) }
    ensures turns { MakesTurns miner.old miner.new }
    ensures quiet { OnOk result (active_in miner.new ≡ []) }
{
    let mut steps = Steps::<L>::new(blank);
    miner.settle(&mut steps)
}
