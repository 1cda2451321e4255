//! Runs of pieces, and what the partitions' runs have in common.

ghost use Rattle.std.specs.Prelude.{◌≡◌, ◌<◌, ◌≤◌, List, All, length, map, take_while};
ghost use Rattle.std.specs.List.{zip};
ghost use Rattle.kin_ids.specs.Lines as lines;
ghost use Rattle.kin_ids.specs.Lines.{stamps_of, upto, past};
ghost use Rattle.kin_held.specs.Chains.{ChainView, chain_at};
ghost use Rattle.kin_hub.specs.Fronts.{same_stamps, common_of};
ghost use Rattle.kin_hub.specs.Cores.{past_in, stamps_between};

use kin_held::Held;
use kin_ids::{IngestId, Piece};

/// The end of the run of pieces past a position that all partitions share, up to another. It costs a search by halves
/// in the chain of each partition, and O(n) in the pieces between the two.
pub(crate) fn shared_end(helds: &[Held], i: IngestId, at: u64, to: u64) -> u64
    requires ahead { at ≤ to }
    requires some { 0 < length helds.now }
    requires node { All (λ (held : List ChainView). i.0 < length held) helds.now }
    ensures { result ≡ lines.end_of at (upto to (common_of (past_in helds.now at i.0))) }
{
    let mut run = between(&helds[0], i, at, to);
    for held in &helds[1..] {
        run = &run[..common_len(run, past(held, i, at))];
    }
    end_of(at, run)
}

/// The pieces of a chain past one position, up to another. It costs two searches by halves.
pub(crate) fn between(held: &Held, i: IngestId, at: u64, to: u64) -> &[Piece]
    requires node { i.0 < length held.now }
    requires ahead { at ≤ to }
    ensures { stamps_of result.now ≡ stamps_between (chain_at held.now i.0) at to }
{
    let front = &held.chain(i)[..held.count_upto(i, to)];
    &front[held.count_upto(i, at)..]
}

// The pieces of a chain past a position.
fn past(held: &Held, i: IngestId, at: u64) -> &[Piece]
    requires { i.0 < length held.now }
    ensures { stamps_of result.now ≡ lines.past at (stamps_of (chain_at held.now i.0).held) }
{
    &held.chain(i)[held.count_upto(i, at)..]
}

// How many stamps the two runs have in common before the first that differs.
fn common_len(run: &[Piece], other: &[Piece]) -> usize
    ensures { result ≡ length (take_while same_stamps (zip run.now other.now)) }
{
    run.iter()
        .zip(other)
        .take_while(|(piece, same)| piece.stamp == same.stamp)
        .count()
}

// Where the run that follows a position ends.
fn end_of(at: u64, run: &[Piece]) -> u64
    ensures { result ≡ lines.end_of at (stamps_of run.now) }
{
    match run.last() {
        Some(piece) => piece.stamp.to,
        None => at,
    }
}
