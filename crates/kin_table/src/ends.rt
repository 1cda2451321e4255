//! The ends of a cut.

ghost use Rattle.std.specs.Prelude.{◌≡◌, ◌<◌, ℕ, IfOk, length, map, slice_index};
ghost use Rattle.kin_table.specs.Vectors.{end_at};
ghost use Rattle.kin_table.specs.Lists.{list_at};
ghost use Rattle.kin_table.specs.Ends.{inc_at, end_of_cut};

use kin_ids::{End, Ends, Inc, Memory, Stamp, StampList};
use std::alloc::Global;

/// The positions of ends.
pub(crate) fn positions(alloc: Global, ends: &[End]) -> Result<Vec<u64>, Memory>
    ensures { IfOk result (λ v. v.items ≡ map (λ end. end.to) ends.now) }
{
    Ok(ends.iter().map(|end| end.to).collect(alloc)?)
}

/// The end of each node at its position, by the last vector and the stamps past it. It costs O(m) in the nodes and in the
/// stamps up to the positions.
pub(crate) fn ends_of(
    alloc: Global,
    last: &[End],
    lists: &[StampList],
    positions: &[u64],
) -> Result<Ends, Memory>
    requires lists { length lists.now ≡ length last.now }
    requires positions { length positions.now ≡ length last.now }
    ensures count { IfOk result (λ ends. length ends ≡ length last.now) }
    ensures each { IfOk result (λ ends. (i : ℕ) → i < length last.now → end_at ends i
        ≡ end_of_cut (end_at last.now i) (list_at lists.now i) (slice_index positions.now i)) }
{
    let mut ends = Vec::with_capacity(alloc, last.len())?;
    for (i, to) in positions.iter().enumerate() {
        ends.push(end_of(last[i], lists[i].as_slice(), *to))?;
    }
    Ok(Ends::of(ends))
}

fn end_of(last: End, stamps: &[Stamp], to: u64) -> End
    ensures { result ≡ end_of_cut last stamps.now to }
{
    if to == last.to {
        return last;
    }
    End {
        inc: inc_at(stamps, to),
        to,
    }
}

// The incarnation of the stamp that ends at a position, 0 where none does.
fn inc_at(stamps: &[Stamp], to: u64) -> Inc
    ensures { result.0 ≡ inc_at stamps.now to }
{
    for stamp in stamps {
        if stamp.to == to {
            return stamp.inc;
        }
    }
    Inc(0)
}
