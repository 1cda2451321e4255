//! What the hub's answers tell of an event.

ghost use Rattle.std.specs.Prelude.{◌≡◌};
ghost use Rattle.kin_world.specs.Steps as steps;
ghost use Rattle.kin_world.specs.Steps.{IsNotAdrift};

use kin_hub::{Raised, Taken};
use kin_script::Outcome;

pub(crate) fn told(taken: Taken) -> Outcome
    requires { IsNotAdrift taken }
    ensures { result ≡ steps.told taken }
{
    match taken {
        Taken::Held(top) => Outcome::Held(top),
        Taken::Early(top) => Outcome::Early(top),
        Taken::Repeat => Outcome::Repeat,
        Taken::Stale(inc) => Outcome::Stale(inc),
        Taken::Adrift { .. } => unreachable!(),
    }
}

pub(crate) fn told_raise(raised: Raised) -> Outcome
    ensures { result ≡ steps.told_raise raised }
{
    match raised {
        Raised::Raised(to) => Outcome::Raised(to),
        Raised::Level(to) => Outcome::Level(to),
    }
}
