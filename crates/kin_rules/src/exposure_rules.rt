//! Exposure as a rule of layers.

ghost use Rattle.std.specs.Prelude.{◌≡◌, IfOk, map};
ghost use Rattle.kin_rules.specs.Layers.{lent};
ghost use Rattle.kin_rules.specs.Top.{in_order};
ghost use Rattle.kin_ids.specs.Users as users;
ghost use Rattle.kin_rules.specs.ExposureRule as exposure;

use crate::pull_rules::{Facts, Input, Lent, PullRule, Side};
use kin_ids::{ListOf, Memory, Place, Tag, Use};
use std::alloc::Global;

/// How many of those whom a user follows used the tag before it. Entries are ordered by tag, then by number.
#[derive(Clone, Copy, Debug, PartialEq, Eq, PartialOrd, Ord)]
pub struct UseK {
    pub tag: Tag,
    pub k: u64,
}

/// The entries of a user, ascending by tag.
pub type UseKs = ListOf<UseK>;

/// For each tag that a user has used, how many of those whom it follows used it before. One layer over those whom a
/// user follows.
#[derive(Clone, Copy, Debug, PartialEq, Eq)]
pub struct Exposure;

fn is_before(a: &Place, b: &Place) -> bool
    ensures { result ≡ users.is_before a.now b.now }
{
    a.epoch.0 < b.epoch.0
        || (a.epoch.0 == b.epoch.0
            && (a.ingest.0 < b.ingest.0 || (a.ingest.0 == b.ingest.0 && a.number < b.number)))
}

fn same_tag(a: &Tag, b: &Tag) -> bool
    ensures { result ≡ users.same_tag a.now b.now }
{
    a.cmp(b).is_eq()
}

/// Whether one of these uses is of the same tag and before this one. O(n) for n uses: places are compared first.
pub(crate) fn is_earlier(item: &Use, uses: &[Use]) -> bool
    ensures { result ≡ exposure.is_earlier item.now uses.now }
{
    uses.iter().any(|other| is_before(&other.first, &item.first) && same_tag(&item.tag, &other.tag))
}

fn earlier(inputs: &[Input<UseKs>], item: &Use) -> u64
    ensures { result ≡ exposure.earlier inputs.now item.now }
{
    inputs
        .iter()
        .filter(|input| is_earlier(item, input.facts.uses.as_slice()))
        .count() as u64
}

fn earlier_lent(inputs: &[Lent<'_, UseKs>], item: &Use) -> u64
    ensures { result ≡ exposure.earlier (lent inputs.now) item.now }
{
    inputs
        .iter()
        .filter(|input| is_earlier(item, input.facts.uses.as_slice()))
        .count() as u64
}

// One entry a use, in the order of the uses.
fn entries(alloc: Global, own: &Facts, inputs: &[Input<UseKs>]) -> Result<Vec<UseK>, Memory>
    ensures { IfOk result (λ v. v.items ≡ map (exposure.use_k inputs.now) own.now.uses) }
{
    let mut entries = Vec::with_capacity(alloc, own.uses.as_slice().len())?;
    for item in own.uses.as_slice() {
        entries.push(UseK {
            tag: item.tag,
            k: earlier(inputs, item),
        })?;
    }
    Ok(entries)
}

// The same of inputs that are lent.
fn entries_lent(alloc: Global, own: &Facts, inputs: &[Lent<'_, UseKs>]) -> Result<Vec<UseK>, Memory>
    ensures { IfOk result (λ v. v.items ≡ map (exposure.use_k (lent inputs.now)) own.now.uses) }
{
    let mut entries = Vec::with_capacity(alloc, own.uses.as_slice().len())?;
    for item in own.uses.as_slice() {
        entries.push(UseK {
            tag: item.tag,
            k: earlier_lent(inputs, item),
        })?;
    }
    Ok(entries)
}

fn same_uses(was: &[Use], now: &[Use]) -> bool
    ensures { result ≡ exposure.same_uses was.now now.now }
{
    was == now
}

impl PullRule for Exposure {
    ghost use Rattle.kin_rules.specs.ExposureRule.{exposure_rule};
    ghost use Rattle.kin_rules.specs.ExposureRuleLaws.{exposure-laws};

    type Value = UseKs;

    const LAYERS: u32 = 1;

    ghost LAYERS = { 1 };

    ghost seen = { λ _. exposure_rule };

    fn side(&self) -> Side {
        Side::Out
    }

    fn first(&self, alloc: Global) -> Result<UseKs, Memory> {
        Ok(UseKs::new(alloc))
    }

    fn copy(&self, alloc: Global, value: &UseKs) -> Result<UseKs, Memory> {
        Ok(UseKs::of(Vec::from_slice(alloc, value.as_slice())?))
    }

    fn next(&self, alloc: Global, own: &Facts, inputs: &[Input<UseKs>]) -> Result<UseKs, Memory> {
        let mut entries = entries(alloc, own, inputs)?;
        entries.sort_unstable();
        Ok(UseKs::of(entries))
    }

    fn next_lent(
        &self,
        alloc: Global,
        own: &Facts,
        inputs: &[Lent<'_, UseKs>],
    ) -> Result<UseKs, Memory> {
        let mut entries = entries_lent(alloc, own, inputs)?;
        entries.sort_unstable();
        Ok(UseKs::of(entries))
    }

    fn own_alike(&self, was: &Facts, now: &Facts) -> bool {
        same_uses(was.uses.as_slice(), now.uses.as_slice())
    }

    fn input_alike(
        &self,
        was: &Facts,
        _was_value: &UseKs,
        now: &Facts,
        _now_value: &UseKs,
    ) -> bool {
        same_uses(was.uses.as_slice(), now.uses.as_slice())
    }

    ghost laws = { λ _. exposure-laws };
}
