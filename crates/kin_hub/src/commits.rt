//! What a partition does at a commit: an epoch's pieces are picked from its chains, which let go of them then.

ghost use Rattle.std.specs.Prelude.{◌≡◌, ◌<◌, ◌^◌, ℕ, IfOk, length};
ghost use Rattle.kin_held.specs.Chains.{chain_at};
ghost use Rattle.kin_held.specs.Takes.{IsPlace};
ghost use Rattle.kin_table.specs.Vectors.{end_at};
ghost use Rattle.kin_blocks.specs.Blocks.{pieces_of};
ghost use Rattle.kin_hub.specs.Commits.{epoch_pieces, Forgets};

use kin_blocks::Run;
use kin_held::Held;
use kin_ids::{End, IngestId, Memory};
use std::alloc::Global;

/// An epoch's pieces, node by node: of each node those up to its end in the epoch's vector. It costs a search by halves
/// in the chain of each node.
pub(crate) fn epoch_runs<'a>(
    alloc: Global,
    held: &'a Held,
    ends: &[End],
) -> Result<Vec<Run<'a>>, Memory>
    requires nodes { length ends.now ≡ length held.now }
    requires few { length ends.now < 2 ^ 16 }
    ensures { IfOk result (λ runs. pieces_of runs.items ≡ epoch_pieces held.now ends.now (length ends.now)) }
{
    let mut runs = Vec::with_capacity(alloc, ends.len())?;
    for i in 0..ends.len() {
        let node = IngestId(i as u16);
        let count = held.count_upto(node, ends[i].to);
        runs.push(Run::of(&held.chain(node)[..count]))?;
    }
    Ok(runs)
}

/// Lets go of the pieces of each node up to its end in a vector. It takes no memory.
pub(crate) fn forget_epoch(held: &mut Held, ends: &[End])
    requires nodes { length ends.now ≡ length held.old }
    requires few { length ends.now < 2 ^ 16 }
    requires places { (i : ℕ) → i < length held.old → IsPlace (chain_at held.old i) (end_at ends.now i).to }
    ensures { Forgets held.old ends.now held.new }
{
    for i in 0..ends.len() {
        held.forget(IngestId(i as u16), ends[i].to);
    }
}
