//! How many items deltas have.

ghost use Rattle.std.specs.Prelude.{◌≡◌, ◌≤◌, ◌^◌, sum, MatchOption};
ghost use Rattle.kin_counts.specs.Tallies.{delta_items, items_in};

use kin_graph::Delta;

// The sum, where it is below 2^64.
fn sum_of(numbers: &[usize]) -> Option<usize>
    ensures { MatchOption result (2 ^ 64 ≤ sum numbers.now) (λ n. n ≡ sum numbers.now) }
{
    let mut total: usize = 0;
    for n in numbers {
        total = total.checked_add(*n)?;
    }
    Some(total)
}

// How many items the lists of a delta have.
fn items_of_delta(delta: &Delta) -> Option<usize>
    ensures { MatchOption result (2 ^ 64 ≤ delta_items delta.now) (λ n. n ≡ delta_items delta.now) }
{
    sum_of(&[
        delta.new_out().len(),
        delta.new_in().len(),
        delta.now_out().len(),
        delta.now_in().len(),
        delta.gone_out().len(),
        delta.gone_in().len(),
        delta.mention_out().len(),
        delta.mention_in().len(),
        delta.said().len(),
        delta.uses().len(),
        delta.tag_users().len(),
    ])
}

/// How many items all lists of deltas have, where these are fewer than 2^64.
pub(crate) fn items_of(deltas: &[Delta]) -> Option<usize>
    ensures { MatchOption result (2 ^ 64 ≤ items_in deltas.now) (λ n. n ≡ items_in deltas.now) }
{
    let mut total: usize = 0;
    for delta in deltas {
        total = total.checked_add(items_of_delta(delta)?)?;
    }
    Some(total)
}
