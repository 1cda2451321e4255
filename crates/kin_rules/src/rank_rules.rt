//! Rank as a rule of layers.

ghost use Rattle.std.specs.Prelude.{◌≡◌, ◌<◌, ◌≤◌, ◌+◌, ◌^◌, All, get_or, length, map, min, sum};
ghost use Rattle.std.specs.List.{sum_by};
ghost use Rattle.kin_rules.specs.Layers.{lent};
ghost use Rattle.kin_rules.specs.RankRule.{share_among, share_of};

use crate::pull_rules::{Facts, Input, Lent, PullRule, Side};
use kin_ids::Memory;
use std::alloc::Global;

/// Each user passes half of its rank on, in equal shares, with a million of its own. Eight layers over those who
/// follow a user.
#[derive(Clone, Copy, Debug, PartialEq, Eq)]
pub struct Rank;

const MOST: u64 = 1_000_000_000_000_000;

// What a user gives each of those whom it follows.
fn share(following: u64, value: u64) -> u64
    ensures value { result ≡ share_among following value }
    ensures small { result ≤ 2 ^ 63 + 1000000 }
{
    if following == 0 {
        return 0;
    }
    (1_000_000 + value / 2) / following
}

fn total(inputs: &[Input<u64>]) -> u64
    ensures { result ≡ min (10 ^ 15) (sum_by share_of inputs.now) }
{
    let mut total: u64 = 0;
    for input in inputs {
        total = (total + share(input.facts.following, input.value)).min(MOST);
    }
    total
}

fn total_lent(inputs: &[Lent<'_, u64>]) -> u64
    ensures { result ≡ min (10 ^ 15) (sum_by share_of (lent inputs.now)) }
{
    let mut total: u64 = 0;
    for input in inputs {
        total = (total + share(input.facts.following, *input.value)).min(MOST);
    }
    total
}

// The shares at these places together, at most 10^15.
fn total_shares(shares: &[u64], ends: &[usize]) -> u64
    requires { All (λ i. i < length shares.now) ends.now }
    ensures { result ≡ min (10 ^ 15) (sum (map (λ k. get_or shares.now k 0) ends.now)) }
{
    let mut total: u64 = 0;
    for end in ends {
        total = total.saturating_add(shares[*end]).min(MOST);
    }
    total
}

impl PullRule for Rank {
    ghost use Rattle.kin_rules.specs.RankRule.{rank_rule, share_among};
    ghost use Rattle.kin_rules.specs.RankRuleLaws.{rank-laws};

    type Value = u64;

    const LAYERS: u32 = 8;

    ghost LAYERS = { 8 };

    ghost share = { λ _ facts value. share_among facts.following value };

    ghost seen = { λ _. rank_rule };

    fn side(&self) -> Side {
        Side::In
    }

    fn first(&self, _alloc: Global) -> Result<u64, Memory> {
        Ok(0)
    }

    fn copy(&self, _alloc: Global, value: &u64) -> Result<u64, Memory> {
        Ok(*value)
    }

    fn next(&self, _alloc: Global, _own: &Facts, inputs: &[Input<u64>]) -> Result<u64, Memory> {
        Ok(total(inputs))
    }

    fn next_lent(
        &self,
        _alloc: Global,
        _own: &Facts,
        inputs: &[Lent<'_, u64>],
    ) -> Result<u64, Memory> {
        Ok(total_lent(inputs))
    }

    fn share(&self, facts: &Facts, value: &u64) -> Option<u64> {
        Some(share(facts.following, *value))
    }

    fn next_shares(
        &self,
        _alloc: Global,
        _own: &Facts,
        shares: &[u64],
        ends: &[usize],
    ) -> Result<Option<u64>, Memory> {
        Ok(Some(total_shares(shares, ends)))
    }

    fn own_alike(&self, _was: &Facts, _now: &Facts) -> bool {
        true
    }

    fn input_alike(&self, was: &Facts, was_value: &u64, now: &Facts, now_value: &u64) -> bool {
        share(was.following, *was_value) == share(now.following, *now_value)
    }

    ghost laws = { λ _. rank-laws };
}
