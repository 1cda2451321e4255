//! What a line asks for.

use kin_ids::decimals::read_decimal;
use kin_ids::{Epoch, Inc, IngestId, PartId, User};
use kin_script::Event;

/// What a line asks for.
#[derive(Clone, Copy, Debug, PartialEq, Eq)]
pub(crate) enum Asked<'a> {
    /// A new world of so many partitions, over these feeds, with these landmarks where there are any.
    World {
        parts: u64,
        feeds: &'a str,
        landmarks: Option<&'a str>,
    },
    /// An event. Its ids may be none of the world's.
    Event(Event),
    /// Where each cut epoch ends.
    Vectors,
    /// The snapshot of an epoch.
    Store(Epoch),
    /// What an epoch changed, by partitions.
    Deltas(Epoch),
    /// The values of the epoch begun last.
    Result,
}

// The last position of a feed.
const LAST: u64 = 2097152;

fn number(word: &str) -> Option<u64> {
    read_decimal(word.as_bytes())
}

// A position in a feed, which no number of an epoch exceeds.
fn position(word: &str) -> Option<u64> {
    number(word).filter(|at| *at <= LAST)
}

fn epoch(word: &str) -> Option<Epoch> {
    u32::try_from(position(word)?).ok().map(Epoch)
}

fn small(word: &str) -> Option<u16> {
    u16::try_from(number(word)?).ok()
}

fn node(word: &str) -> Option<IngestId> {
    small(word).map(IngestId)
}

fn part(word: &str) -> Option<PartId> {
    small(word).map(PartId)
}

fn deliver(part_word: &str, node_word: &str, inc_word: &str, to_word: &str) -> Option<Event> {
    Some(Event::Deliver {
        part: part(part_word)?,
        ingest: node(node_word)?,
        inc: Inc(small(inc_word)?),
        to: position(to_word)?,
    })
}

// The event that these words spell.
fn event_of(words: &[&str]) -> Option<Event> {
    let event = match words {
        ["stamp", i, n] => Event::Stamp {
            ingest: node(i)?,
            n: number(n)?,
        },
        ["deliver", p, i, c, to] => deliver(p, i, c, to)?,
        ["report", p] => Event::Report { part: part(p)? },
        ["raise", i] => Event::Raise { ingest: node(i)? },
        ["cut"] => Event::Cut { n: None },
        ["cut", n] => Event::Cut {
            n: Some(number(n)?),
        },
        ["commit", p] => Event::Commit { part: part(p)? },
        ["begin"] => Event::Begin,
        ["turn", u] => Event::Turn {
            user: User::read(u.as_bytes())?,
        },
        ["mine"] => Event::Mine,
        ["crash", i] => Event::Crash { ingest: node(i)? },
        ["restart", i] => Event::Restart { ingest: node(i)? },
        _ => return None,
    };
    Some(event)
}

/// What these words ask for. None for words outside the grammar.
pub(crate) fn read_line<'a>(words: &[&'a str]) -> Option<Asked<'a>> {
    match words {
        ["world", parts, feeds] => Some(Asked::World {
            parts: number(parts)?,
            feeds,
            landmarks: None,
        }),
        ["world", parts, feeds, landmarks] => Some(Asked::World {
            parts: number(parts)?,
            feeds,
            landmarks: Some(landmarks),
        }),
        ["vectors"] => Some(Asked::Vectors),
        ["result"] => Some(Asked::Result),
        ["store", k] => Some(Asked::Store(epoch(k)?)),
        ["deltas", k] => Some(Asked::Deltas(epoch(k)?)),
        _ => Some(Asked::Event(event_of(words)?)),
    }
}
