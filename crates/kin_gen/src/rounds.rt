//! The rounds of a job.

ghost use Rattle.std.specs.Prelude.{◌≡◌, ◌≤◌, ◌<◌, ℕ, ◌++◌, map, slice_index, OnOk};
ghost use Rattle.kin_gen.specs.Rounds as rounds;

use crate::draws::{generator, next};
use kin_ids::{Inc, IngestId, Memory, PartId};
use kin_script::Event;
use rand_xoshiro::Xoshiro256PlusPlus;

// The partitions, forwards and backwards.
const FORTH: [u16; 4] = [0, 1, 2, 3];

const BACK: [u16; 4] = [3, 2, 1, 0];

// After how many rounds the positions are agreed, an epoch is cut, and a node goes down.
const AGREEING: u64 = 8;

const CUTTING: u64 = 64;

const RESTARTING: u64 = 256;

// Every partition reports, and every node's agreed position is raised.
const AGREEMENT: [Event; 7] = [
    Event::Report { part: PartId(0) },
    Event::Report { part: PartId(1) },
    Event::Report { part: PartId(2) },
    Event::Report { part: PartId(3) },
    Event::Raise {
        ingest: IngestId(0),
    },
    Event::Raise {
        ingest: IngestId(1),
    },
    Event::Raise {
        ingest: IngestId(2),
    },
];

/// Where the rounds stand: the generator, and of each node its next position and its incarnation.
#[derive(Drop)]
pub(crate) struct Standing {
    draws: Xoshiro256PlusPlus,
    next: [u64; 3],
    incs: [u16; 3],
}

// The length of a feed of n records, which are dealt in turn.
fn feed_length(n: u64, node: u16) -> u64
    requires within { n ≤ 500000 }
    requires node { node < 3 }
    ensures { result ≡ rounds.feed_length n node }
{
    (n + 2 - u64::from(node)) / 3
}

// The pieces of a stamp come to these partitions.
fn deliver(
    events: &mut Vec<Event>,
    order: &[u16],
    ingest: IngestId,
    inc: Inc,
    to: u64,
) -> Result<(), Memory>
    ensures { OnOk result (events.new.items ≡ events.old.items ++ map (rounds.delivered ingest.0 inc.0 to) order.now) }
{
    for p in order {
        let part = PartId(*p);
        events.push(Event::Deliver {
            part,
            ingest,
            inc,
            to,
        })?;
    }
    Ok(())
}

// The pieces of a stamp come to all partitions, and perhaps to one of them again.
fn deliver_all(
    events: &mut Vec<Event>,
    word: u64,
    ingest: IngestId,
    inc: Inc,
    to: u64,
) -> Result<(), Memory>
    ensures { OnOk result (events.new.items ≡ events.old.items ++ rounds.pieces ingest.0 inc.0 to word) }
{
    let order = if word / 8 % 2 == 0 { FORTH } else { BACK };
    deliver(events, &order, ingest, inc, to)?;
    if word / 16 % 8 == 0 {
        deliver(events, &[(word / 128 % 4) as u16], ingest, inc, to)?;
    }
    Ok(())
}

/// Every partition reports, and every node's agreed position is raised.
pub(crate) fn agree(events: &mut Vec<Event>) -> Result<(), Memory>
    ensures { OnOk result (events.new.items ≡ events.old.items ++ rounds.agreement) }
{
    events.extend_from_slice(&AGREEMENT)?;
    Ok(())
}

impl Standing {
    /// At first: no node has stamped anything.
    pub(crate) fn opening(seed: u64) -> Standing
        ensures { result ≡ rounds.opening seed }
    {
        Standing {
            draws: generator(seed ^ 1),
            next: [0; 3],
            incs: [0; 3],
        }
    }

    // Whether a node has records left.
    fn has_left(&self, n: u64, node: u16) -> bool
        requires within { n ≤ 500000 }
        requires node { node < 3 }
        ensures { result ≡ rounds.has_left n self.now node }
    {
        self.next[usize::from(node)] < feed_length(n, node)
    }

    /// Whether some node has records left.
    pub(crate) fn is_going(&self, n: u64) -> bool
        requires { n ≤ 500000 }
        ensures { result ≡ rounds.is_going n self.now }
    {
        self.has_left(n, 0) || self.has_left(n, 1) || self.has_left(n, 2)
    }

    // A node's turn in a round: it stamps records, where it has any left, and their pieces come to the partitions.
    #[tactic(auto, unfolding(crate::specs::Rounds::turn, crate::specs::Rounds::after_turn))]
    fn turn(&mut self, n: u64, node: u16, events: &mut Vec<Event>) -> Result<(), Memory>
        requires within { n ≤ 500000 }
        requires node { node < 3 }
        ensures events { OnOk result (events.new.items ≡ events.old.items ++ rounds.turn n self.old node) }
        ensures standing { OnOk result (self.new ≡ rounds.after_turn n self.old node) }
    {
        if !self.has_left(n, node) {
            return Ok(());
        }
        let i = usize::from(node);
        let ingest = IngestId(node);
        let word = next(&mut self.draws);
        let size = 9 + word % 8;
        let to = (self.next[i] + size).min(feed_length(n, node));
        events.push(Event::Stamp { ingest, n: size })?;
        deliver_all(events, word, ingest, Inc(self.incs[i]), to)?;
        self.next[i] = to;
        Ok(())
    }

    // The turns of a round.
    fn turns(&mut self, n: u64, events: &mut Vec<Event>) -> Result<(), Memory>
        requires within { n ≤ 500000 }
        ensures events { OnOk result (events.new.items ≡ events.old.items ++ rounds.turns n self.old rounds.nodes) }
        ensures standing { OnOk result (self.new ≡ rounds.after_turns n self.old rounds.nodes) }
    {
        self.turn(n, 0, events)?;
        self.turn(n, 1, events)?;
        self.turn(n, 2, events)
    }

    // A node goes down and comes back.
    fn restart(&mut self, node: u16, events: &mut Vec<Event>) -> Result<(), Memory>
        requires node { node < 3 }
        requires young { slice_index self.old.incs node < 65535 }
        ensures events { OnOk result (events.new.items ≡ events.old.items ++ rounds.restart node) }
        ensures standing { OnOk result (self.new ≡ rounds.with_restart node self.old) }
    {
        let ingest = IngestId(node);
        events.extend_from_slice(&[Event::Crash { ingest }, Event::Restart { ingest }])?;
        self.incs[usize::from(node)] += 1;
        Ok(())
    }

    /// A round, with its number from 1 on.
    #[tactic(auto, unfolding(crate::specs::Rounds::round, crate::specs::Rounds::after_round))]
    pub(crate) fn round(
        &mut self,
        n: u64,
        number: u64,
        events: &mut Vec<Event>,
    ) -> Result<(), Memory>
        requires within { n ≤ 500000 }
        requires number { number ≤ n }
        requires young { rounds.AreYoung number self.old }
        ensures events { OnOk result (events.new.items ≡ events.old.items ++ rounds.round n number self.old) }
        ensures standing { OnOk result (self.new ≡ rounds.after_round n number self.old) }
    {
        self.turns(n, events)?;
        if number % AGREEING == 0 {
            agree(events)?;
        }
        if number % CUTTING == 0 {
            events.push(Event::Cut { n: None })?;
        }
        if number % RESTARTING == 0 {
            self.restart((number / RESTARTING % 3) as u16, events)?;
        }
        Ok(())
    }
}
