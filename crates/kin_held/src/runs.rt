//! Runs of pieces that follow each other.

ghost use Rattle.std.specs.Prelude.{◌≡◌, ◌≤◌, length, take, drop, IfSome, IfNone, OnSome};
ghost use Rattle.std.specs.List.Sorted.{IsNonDecreasingBy};
ghost use Rattle.kin_ids.specs.declared.ops.Piece.{Piece};
ghost use Rattle.kin_ids.specs.Lines as lines;
ghost use Rattle.kin_ids.specs.Lines.{IsEnd, IsLine, stamps_of};
ghost use Rattle.kin_held.specs.Chains.{pieces_upto, pieces_past};

use kin_ids::Piece;

/// How many pieces from the front on end at or before the position, by binary search.
pub(crate) fn upto_len(pieces: &[Piece], at: u64) -> usize
    requires { IsNonDecreasingBy (λ (p : Piece). p.stamp.to) pieces.now }
    ensures within { result ≤ length pieces.now }
    ensures front { take result pieces.now ≡ pieces_upto at pieces.now }
    ensures rest { drop result pieces.now ≡ pieces_past at pieces.now }
{
    pieces.partition_point(|piece| piece.stamp.to <= at)
}

/// Where pieces that follow each other from the floor end.
pub(crate) fn end_of(floor: u64, pieces: &[Piece]) -> u64
    ensures { result ≡ lines.end_of floor (stamps_of pieces.now) }
{
    match pieces.last() {
        Some(piece) => piece.stamp.to,
        None => floor,
    }
}

/// How many pieces lead from the floor to the position, by binary search. None where it is neither
/// the floor nor an end.
pub(crate) fn len_to(floor: u64, pieces: &[Piece], at: u64) -> Option<usize>
    requires { IsLine floor (stamps_of pieces.now) }
    ensures place { OnSome result (IsEnd floor (stamps_of pieces.now) at) }
    ensures front { IfSome result (λ count. take count pieces.now ≡ pieces_upto at pieces.now) }
    ensures none { IfNone result (¬ IsEnd floor (stamps_of pieces.now) at) }
{
    let count = upto_len(pieces, at);
    if end_of(floor, &pieces[..count]) == at {
        Some(count)
    } else {
        None
    }
}
