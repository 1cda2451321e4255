//! The event of a line.

ghost use Rattle.std.specs.Prelude.{◌≡◌, ◌∷◌, [], ◌<◌, ℕ, List, Some, length, IfSome, IfNone, MatchOption};
ghost use Rattle.kin_script.specs.Readings as readings;

use crate::events::Event;
use arrayvec::ArrayVec;
use kin_ids::{Inc, IngestId, PartId, User};
use kin_line::read_u64;

fn node(n: u64, nodes: u16) -> Option<IngestId>
    ensures { result ≡ readings.node_in nodes n }
{
    if n < u64::from(nodes) {
        Some(IngestId(n as u16))
    } else {
        None
    }
}

fn part(n: u64, parts: u16) -> Option<PartId>
    ensures { result ≡ readings.part_in parts n }
{
    if n < u64::from(parts) {
        Some(PartId(n as u16))
    } else {
        None
    }
}

fn user(n: u64) -> Option<User>
    ensures { result ≡ readings.user_in n }
{
    if n < 4294967296 {
        Some(User(n as u32))
    } else {
        None
    }
}

fn cut(n: u64) -> Option<Event>
    ensures { result ≡ readings.cut_in n }
{
    if 0 < n && n < 2097153 {
        Some(Event::Cut { n: Some(n) })
    } else {
        None
    }
}

fn bare(word: &[u8]) -> Option<Event>
    ensures { result ≡ readings.bare word.now }
{
    if word == "cut".as_bytes() {
        Some(Event::Cut { n: None })
    } else if word == "begin".as_bytes() {
        Some(Event::Begin)
    } else if word == "mine".as_bytes() {
        Some(Event::Mine)
    } else {
        None
    }
}

fn single(word: &[u8], n: u64, nodes: u16, parts: u16) -> Option<Event>
    ensures { result ≡ readings.single nodes parts word.now n }
{
    if word == "report".as_bytes() {
        part(n, parts).map(|part| Event::Report { part })
    } else if word == "raise".as_bytes() {
        node(n, nodes).map(|ingest| Event::Raise { ingest })
    } else if word == "commit".as_bytes() {
        part(n, parts).map(|part| Event::Commit { part })
    } else if word == "turn".as_bytes() {
        user(n).map(|user| Event::Turn { user })
    } else if word == "cut".as_bytes() {
        cut(n)
    } else if word == "crash".as_bytes() {
        node(n, nodes).map(|ingest| Event::Crash { ingest })
    } else if word == "restart".as_bytes() {
        node(n, nodes).map(|ingest| Event::Restart { ingest })
    } else {
        None
    }
}

fn stamped(word: &[u8], i: u64, n: u64, nodes: u16) -> Option<Event>
    ensures { result ≡ readings.stamped nodes word.now i n }
{
    if word == "stamp".as_bytes() && i < u64::from(nodes) && 0 < n && n < 17 {
        Some(Event::Stamp {
            ingest: IngestId(i as u16),
            n,
        })
    } else {
        None
    }
}

fn delivered(word: &[u8], p: u64, i: u64, c: u64, to: u64, nodes: u16, parts: u16) -> Option<Event>
    ensures { result ≡ readings.delivered nodes parts word.now p i c to }
{
    let are_ids = p < u64::from(parts) && i < u64::from(nodes);
    if word == "deliver".as_bytes() && are_ids && c < 65536 && to < 2097153 {
        Some(Event::Deliver {
            part: PartId(p as u16),
            ingest: IngestId(i as u16),
            inc: Inc(c as u16),
            to,
        })
    } else {
        None
    }
}

// The event of a word and its numbers.
fn event_in(word: &[u8], numbers: &[u64], nodes: u16, parts: u16) -> Option<Event>
    ensures { result ≡ readings.event_in nodes parts word.now numbers.now }
{
    match numbers {
        [] => bare(word),
        [n] => single(word, *n, nodes, parts),
        [i, n] => stamped(word, *i, *n, nodes),
        [p, i, c, to] => delivered(word, *p, *i, *c, *to, nodes, parts),
        _ => None,
    }
}

// What stands before the first space, and what stands after it, where there is one.
fn first_word(text: &[u8]) -> (&[u8], Option<&[u8]>)
    ensures { MatchOption result.1 (readings.spaced text.now ≡ result.0.now ∷ []) (λ rest. readings.spaced text.now ≡ result.0.now ∷ readings.spaced rest.now) }
{
    for at in 0..text.len() {
        if text[at] == b' ' {
            return (&text[..at], Some(&text[at + 1..]));
        }
    }
    (text, None)
}

// The numbers of a text, at most four, parted by one space each.
fn numbers_of(text: &[u8]) -> Option<ArrayVec<u64, 4>>
    ensures some { IfSome result (λ v. readings.read_all (readings.spaced text.now) ≡ Some v.items) }
    ensures none { IfNone result ((ns : List ℕ) → readings.read_all (readings.spaced text.now) ≡ Some ns → 4 < length ns) }
{
    let mut numbers = ArrayVec::new();
    let mut rest = Some(text);
    for count in 0..4_usize {
        let Some(text) = rest else {
            return Some(numbers);
        };
        let (word, next) = first_word(text);
        numbers.push(read_u64(word)?);
        rest = next;
    }
    if rest.is_none() { Some(numbers) } else { None }
}

/// The event of a line, over so many nodes and partitions. Its cost is the line's length; it takes no memory.
pub(crate) fn event_of(line: &[u8], nodes: u16, parts: u16) -> Option<Event>
    ensures { result ≡ readings.event_read nodes parts line.now }
{
    let (word, rest) = first_word(line);
    let numbers = match rest {
        Some(text) => numbers_of(text)?,
        None => ArrayVec::new(),
    };
    event_in(word, numbers.as_slice(), nodes, parts)
}
