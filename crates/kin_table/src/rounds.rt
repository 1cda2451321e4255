//! The fair cut.
//!
//! It goes round the nodes, and takes the next transaction of each node that has one. Once a node's list is used up, the
//! node is let go, so a round costs what the one before it took. A place is a transaction's number within its node's
//! list, from 0 on; round r takes those at place r.

ghost use Rattle.std.specs.Prelude.{◌≡◌, ◌<◌, ◌++◌, ℕ, nat_lt, List, All, IfOk, Some, length, slice_index};
ghost use Rattle.std.specs.List.{filter, slice_get, range_with_len};
ghost use Rattle.kin_ids.specs.Fair.{Waiting, size, enough, last_end, fair};
ghost use Rattle.kin_ids.specs.Rounds.{row, longest};
ghost use Rattle.kin_table.specs.Lists.{list_at, IsVector};

use kin_ids::{Memory, Stamp, StampList};
use std::alloc::Global;

/// The cut with a number: the shortest front of the transactions in turn that has at least `n` records, and all of them
/// where none has. It gives the end of each node's last transaction in it, and the node's position in `prev` where it has
/// none. It costs O(m) in the nodes and in the transactions that it takes.
pub fn fair(alloc: Global, prev: &[u64], lists: &[StampList], n: u64) -> Result<Vec<u64>, Memory>
    requires { length lists.now ≡ length prev.now }
    ensures { IfOk result (λ v. IsVector (length prev.now)
        (fair (slice_index prev.now) (list_at lists.now) (length prev.now) n) v.items) }
{
    let mut ends = Vec::from_slice(alloc, prev)?;
    let mut live = nodes(alloc, lists.len())?;
    let mut wanted = n;
    for place in 0..longest(lists) {
        keep(&mut live, lists, place);
        wanted = round(&mut ends, lists, &live, place, wanted);
        if wanted == 0 {
            break;
        }
    }
    Ok(ends)
}

// The numbers of the nodes.
fn nodes(alloc: Global, count: usize) -> Result<Vec<usize>, Memory>
    ensures { IfOk result (λ v. v.items ≡ range_with_len 0 count) }
{
    let mut all = Vec::with_capacity(alloc, count)?;
    for node in 0..count {
        all.push(node)?;
    }
    Ok(all)
}

// The length of the longest list.
fn longest(lists: &[StampList]) -> usize
    ensures { result ≡ longest (list_at lists.now) (range_with_len 0 (length lists.now)) }
{
    let mut most = 0;
    for list in lists {
        most = most.max(list.as_slice().len());
    }
    most
}

// Lets go of the nodes whose list has no transaction at this place.
fn keep(live: &mut Vec<usize>, lists: &[StampList], place: usize)
    ensures { live.new.items ≡ filter (λ node. nat_lt place (length (list_at lists.now node))) live.old.items }
{
    live.retain(|node| has_more(lists, *node, place));
}

fn has_more(lists: &[StampList], node: usize, place: usize) -> bool
    ensures { result ≡ nat_lt place (length (list_at lists.now node)) }
{
    match lists.get(node) {
        Some(list) => place < list.as_slice().len(),
        None => false,
    }
}

// Takes the transaction at this place of each of these nodes, until no record is left to take.
fn round(ends: &mut Vec<u64>, lists: &[StampList], live: &[usize], place: usize, wanted: u64) -> u64
    requires same { length lists.now ≡ length ends.old.items }
    requires nodes { All (λ node. node < length lists.now) live.now }
    requires more { All (λ node. place < length (list_at lists.now node)) live.now }
    ensures len { length ends.new.items ≡ length ends.old.items }
    // Whatever follows in turn: what is done is in the ends, and what is left to take in the result.
    ensures ends { (rest : List Waiting) (i : ℕ) →
        last_end (slice_index ends.new.items i) i (enough result rest) ≡
        last_end (slice_index ends.old.items i) i
        (enough wanted (row (list_at lists.now) place live.now ++ rest)) }
{
    let mut left = wanted;
    for node in live {
        if left == 0 {
            break;
        }
        let stamp = entry(lists, *node, place);
        ends[*node] = stamp.to;
        left = left.saturating_sub(records(stamp));
    }
    left
}

// The transaction at a place of a node's list.
fn entry(lists: &[StampList], node: usize, place: usize) -> &Stamp
    requires node { node < length lists.now }
    requires more { place < length (list_at lists.now node) }
    ensures { slice_get (list_at lists.now node) place ≡ Some result.now }
{
    &lists[node].as_slice()[place]
}

// How many records a transaction has.
fn records(stamp: &Stamp) -> u64
    ensures { result ≡ size stamp.now }
{
    stamp.to.saturating_sub(stamp.from)
}
