//! Rules that count how often a value is computed by them.

use kin_ids::{Memory, User};
use kin_rules::exposure_rules::Exposure;
use kin_rules::rank_rules::Rank;
use kin_rules::{EdgeKind, Facts, Input, PullRule, PushRule, Side, UseKs};
use std::alloc::Global;
use std::sync::Arc;
use std::sync::atomic::{AtomicU64, Ordering};

/// A rule whose values grow along edges, and how often it was asked what an edge offers.
#[derive(Drop)]
pub struct CountedWalk<'a, R: PushRule + Drop> {
    pub rule: R,
    pub calls: &'a AtomicU64,
}

impl<R: PushRule + Drop> PushRule for CountedWalk<'_, R> {
    ghost seen = { λ r. R.seen r.rule };

    fn landmark(&self) -> User {
        self.rule.landmark()
    }

    fn along(&self, kind: EdgeKind, value: u32) -> Option<u32> {
        self.calls.fetch_add(1, Ordering::SeqCst);
        self.rule.along(kind, value)
    }

    ghost laws = { λ r. R.laws r.rule };
}

/// Rank, and how often it was asked for a user's value in the layer above. Each value is computed of copies of the
/// inputs.
#[derive(Drop)]
pub struct CountedRank {
    pub calls: Arc<AtomicU64, Global>,
}

/// The same of exposure.
#[derive(Drop)]
pub struct CountedExposure {
    pub calls: Arc<AtomicU64, Global>,
}

impl PullRule for CountedRank {
    ghost use Rattle.kin_rules.specs.RankRule.{rank_rule};
    ghost use Rattle.kin_rules.specs.RankRuleLaws.{rank-laws};

    type Value = u64;

    const LAYERS: u32 = 8;

    ghost LAYERS = { 8 };

    ghost seen = { λ _. rank_rule };

    fn side(&self) -> Side {
        Rank.side()
    }

    fn first(&self, alloc: Global) -> Result<u64, Memory> {
        Rank.first(alloc)
    }

    fn copy(&self, alloc: Global, value: &u64) -> Result<u64, Memory> {
        Rank.copy(alloc, value)
    }

    fn next(&self, alloc: Global, own: &Facts, inputs: &[Input<u64>]) -> Result<u64, Memory> {
        self.calls.fetch_add(1, Ordering::SeqCst);
        Rank.next(alloc, own, inputs)
    }

    fn own_alike(&self, was: &Facts, now: &Facts) -> bool {
        Rank.own_alike(was, now)
    }

    fn input_alike(&self, was: &Facts, was_value: &u64, now: &Facts, now_value: &u64) -> bool {
        Rank.input_alike(was, was_value, now, now_value)
    }

    ghost laws = { λ _. rank-laws };
}

impl PullRule for CountedExposure {
    ghost use Rattle.kin_rules.specs.ExposureRule.{exposure_rule};
    ghost use Rattle.kin_rules.specs.ExposureRuleLaws.{exposure-laws};

    type Value = UseKs;

    const LAYERS: u32 = 1;

    ghost LAYERS = { 1 };

    ghost seen = { λ _. exposure_rule };

    fn side(&self) -> Side {
        Exposure.side()
    }

    fn first(&self, alloc: Global) -> Result<UseKs, Memory> {
        Exposure.first(alloc)
    }

    fn copy(&self, alloc: Global, value: &UseKs) -> Result<UseKs, Memory> {
        Exposure.copy(alloc, value)
    }

    fn next(&self, alloc: Global, own: &Facts, inputs: &[Input<UseKs>]) -> Result<UseKs, Memory> {
        self.calls.fetch_add(1, Ordering::SeqCst);
        Exposure.next(alloc, own, inputs)
    }

    fn own_alike(&self, was: &Facts, now: &Facts) -> bool {
        Exposure.own_alike(was, now)
    }

    fn input_alike(&self, was: &Facts, was_value: &UseKs, now: &Facts, now_value: &UseKs) -> bool {
        Exposure.input_alike(was, was_value, now, now_value)
    }

    ghost laws = { λ _. exposure-laws };
}
