//! Counts are changed to those of the next epoch.

ghost use Rattle.std.specs.Prelude.{◌≡◌, ℕ, [], Option, MatchOption};
ghost use Rattle.kin_rules.specs.Results.{no_column};
ghost use Rattle.std.specs.Prelude.{slice_index_or};
ghost use Rattle.std.specs.List.Sorted.{IsStrictlySortedBy};
ghost use Rattle.kin_ids.specs.Users.{tag_cmp};
ghost use Rattle.kin_changes.specs.Told.{tag_more};
ghost use Rattle.kin_counts.specs.Changes.{RaisesTags, with_tags_of, with_users_of};
ghost use Rattle.kin_counts.specs.Counts.{CountsOn, KeepsOthers};
ghost use Rattle.kin_counts.specs.Plans.{IsPlanOf, planned_users};

use crate::changes::{lower_all, raise_all, raise_all_tags};
use crate::plans::CountPlan;
use kin_graph::Delta;
use kin_rules::EpochResult;

// Takes the wider user columns, where there are such.
fn take_users(counted: &mut EpochResult, wide: Option<EpochResult>)
    ensures { counted.new ≡ with_users_of wide counted.old }
{
    if let Some(wide) = wide {
        counted.widen(wide);
    }
}

// Takes the tag columns with their numbers, or where there are none adds the new users of tags.
fn take_tags(counted: &mut EpochResult, tagged: Option<EpochResult>, deltas: &[Delta])
    ensures tags { MatchOption tagged (RaisesTags counted.old (tag_more deltas.now) counted.new)
        (λ t. counted.new ≡ with_tags_of t counted.old) }
    ensures ascend { IsStrictlySortedBy tag_cmp counted.new.tags }
{
    match tagged {
        Some(tagged) => counted.retag(tagged),
        None => raise_all_tags(counted, deltas),
    }
    let _ = counted.tags();
}

/// Changes the counts of a result by the deltas of an epoch, which its plan was made of. A result that has the counts
/// of one view has then those of the next. It takes no memory, and costs a look-up for each item that the deltas tell.
pub fn enter(counted: &mut EpochResult, plan: CountPlan, deltas: &[Delta])
    requires { IsPlanOf counted.old deltas.now plan }
    ensures counts { CountsOn deltas.now counted.old counted.new }
    ensures keeps { KeepsOthers counted.old counted.new }
    ensures users { counted.new.users ≡ planned_users plan counted.old }
    ensures alone_hops { (i : ℕ) → (slice_index_or counted.old.hops i no_column).others ≡ []
        → (slice_index_or counted.new.hops i no_column).others ≡ [] }
    ensures alone_close { (i : ℕ) → (slice_index_or counted.old.close i no_column).others ≡ []
        → (slice_index_or counted.new.close i no_column).others ≡ [] }
{
    take_users(counted, plan.wide);
    lower_all(counted, deltas);
    raise_all(counted, deltas);
    take_tags(counted, plan.tagged, deltas);
}
