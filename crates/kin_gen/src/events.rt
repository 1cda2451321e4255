//! The events of a job.

ghost use Rattle.std.specs.Prelude.{◌≡◌, ◌≤◌, ◌++◌, IfOk, OnOk};
ghost use Rattle.kin_gen.specs.Rounds as rounds;

use crate::rounds::{Standing, agree};
use kin_ids::Memory;
use kin_script::Event;
use std::alloc::Global;

// The rounds, which go on while some node has records left.
fn play(events: &mut Vec<Event>, seed: u64, n: u64) -> Result<(), Memory>
    requires { n ≤ 500000 }
    ensures { OnOk result (events.new.items ≡ events.old.items ++ rounds.rounds n n 1 (rounds.opening seed)) }
{
    let mut standing = Standing::opening(seed);
    for number in 1..n + 1 {
        if !standing.is_going(n) {
            return Ok(());
        }
        standing.round(n, number, events)?;
    }
    Ok(())
}

/// The events of a job of n records, 1 to 500000, over three feeds and four partitions, up to the drain. Node i reads
/// text i of `feeds_of`, and `event_laws` says what holds of the events. Its cost is linear in n.
#[tactic(auto, unfolding(crate::specs::Rounds::gen_events))]
pub fn events_of(alloc: Global, seed: u64, n: u64) -> Result<Vec<Event>, Memory>
    requires { n ≤ 500000 }
    ensures { IfOk result (λ events. events.items ≡ rounds.gen_events seed n) }
{
    let mut events = Vec::new(alloc);
    play(&mut events, seed, n)?;
    agree(&mut events)?;
    events.push(Event::Cut { n: None })?;
    Ok(events)
}
