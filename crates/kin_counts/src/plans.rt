//! What a change of counts needs, made beforehand.

ghost use Rattle.std.specs.Prelude.{◌≡◌, None, IfOk, IfSome};
ghost use Rattle.kin_rules.specs.Results.{ResultView};
ghost use Rattle.kin_counts.specs.Plans.{IsPlanOf, IsTaggedWhereNew, IsWideWhereNew, planned_tags, planned_users};

use crate::tag_numbers::tag_numbers;
use kin_changes::{next_tags, next_users};
use kin_graph::Delta;
use kin_ids::{Memory, Tag, User};
use kin_rules::EpochResult;
use std::alloc::Global;

/// All memory that the change of a result's counts by the deltas of an epoch takes: user columns over more users where
/// some are new, and tag columns over more tags where some are new.
#[derive(Drop)]
pub struct CountPlan {
    pub(crate) wide: Option<EpochResult>,
    pub(crate) tagged: Option<EpochResult>,
}

impl CountPlan {
    /// The users of the next epoch, ascending. None where the result's own stay. O(1).
    pub fn users(&self) -> Option<&[User]>
        ensures none { result ≡ None → (r : ResultView) → planned_users self.now r ≡ r.users }
        ensures some { IfSome result (λ us. (r : ResultView) → planned_users self.now r ≡ us.now) }
    {
        match &self.wide {
            Some(wide) => Some(wide.users()),
            None => None,
        }
    }

    /// The tags of the next epoch, ascending. None where the result's own stay. O(1).
    pub fn tags(&self) -> Option<&[Tag]>
        ensures none { result ≡ None → (r : ResultView) → planned_tags self.now r ≡ r.tags }
        ensures some { IfSome result (λ ts. (r : ResultView) → planned_tags self.now r ≡ ts.now) }
    {
        match &self.tagged {
            Some(tagged) => Some(tagged.tags()),
            None => None,
        }
    }
}

// User columns over more users, where some are new.
fn wide_where_new(
    alloc: Global,
    counted: &EpochResult,
    deltas: &[Delta],
) -> Result<Option<EpochResult>, Memory>
    ensures { IfOk result (λ o. IsWideWhereNew counted.now deltas.now o) }
{
    match next_users(alloc, counted.users(), deltas)? {
        Some(users) => Ok(Some(counted.wider(users)?)),
        None => Ok(None),
    }
}

// Tag columns over more tags, where some are new.
fn tagged_where_new(
    alloc: Global,
    counted: &EpochResult,
    deltas: &[Delta],
) -> Result<Option<EpochResult>, Memory>
    ensures { IfOk result (λ o. IsTaggedWhereNew counted.now deltas.now o) }
{
    match next_tags(alloc, counted.tags(), deltas)? {
        Some(tags) => {
            let numbers = tag_numbers(alloc, counted, tags.as_slice(), deltas)?;
            Ok(Some(counted.tagged(tags, numbers)?))
        }
        None => Ok(None),
    }
}

/// What `enter` needs to change the counts of this result by these deltas. It changes nothing. It costs a look-up for
/// each item that the deltas tell, O(n) for each column of the users where some are new, and a copy of the exposures
/// where some tags are new.
pub fn plan(alloc: Global, counted: &EpochResult, deltas: &[Delta]) -> Result<CountPlan, Memory>
    ensures { IfOk result (IsPlanOf counted.now deltas.now) }
{
    Ok(CountPlan {
        wide: wide_where_new(alloc, counted, deltas)?,
        tagged: tagged_where_new(alloc, counted, deltas)?,
    })
}
