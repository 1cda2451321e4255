//! How many records an epoch adds, and how many of them are Bad.

ghost use Rattle.std.specs.Prelude.{◌≡◌, ◌<◌, ◌≤◌, ℕ, List, length, count_by, sum_by, option_map};
ghost use Rattle.kin_ids.specs.declared.ops.Record.{Record};
ghost use Rattle.kin_ids.specs.Operations.{is_bad};
ghost use Rattle.kin_ids.specs.Order.{of_epoch};
ghost use Rattle.kin_replay.specs.Counts.{AreWithin, position_in};

use kin_feed::Feed;
use kin_table::Cut;

/// The records of an epoch, and those of them that are Bad.
#[derive(Clone, Copy, Debug, PartialEq, Eq)]
pub(crate) struct Counts {
    pub(crate) records: u64,
    pub(crate) bad: u64,
}

// Where a cut ends a node, and the start where there is no cut.
fn position(cut: Option<&Cut>, node: usize) -> u64
    ensures { result ≡ position_in (option_map (λ c. c.now) cut.entry) node }
{
    let Some(cut) = cut else { return 0 };
    match cut.ends.as_slice().get(node) {
        Some(end) => end.to,
        None => 0,
    }
}

/// The counts of the epoch from one cut, or the start, to the next. It costs O(log n) in the Bad records of each feed.
pub(crate) fn counts_of(feeds: &[Feed], was: Option<&Cut>, now: &Cut) -> Counts
    requires within { AreWithin feeds.now (position_in (option_map (λ c. c.now) was)) (position_in (Some now.now)) }
    requires few { sum_by (λ (feed : List Record). length feed) feeds.now ≤ 2097152 }
    ensures records { (e : ℕ)
        → result.records ≡ length (of_epoch feeds.now e (position_in (option_map
        (λ c. c.now) was.entry)) (position_in (Some now.now)) (length feeds.now)) }
    ensures bad { (e : ℕ)
        → result.bad ≡ count_by (λ x. is_bad x.content) (of_epoch feeds.now e (position_in (option_map
        (λ c. c.now) was.entry)) (position_in (Some now.now)) (length feeds.now)) }
{
    let mut counts = Counts { records: 0, bad: 0 };
    for node in 0..feeds.len() {
        let from = position(was, node);
        let to = position(Some(now), node);
        counts.records += to - from;
        counts.bad += feeds[node].bad_between(from, to);
    }
    counts
}
