//! How many users tags have once deltas are counted.

ghost use Rattle.std.specs.Prelude.{◌≡◌, ◌<◌, ◌||◌, ℕ, true, List, All, IfOk, count_by, length, map, if◌then◌else◌};
ghost use Rattle.std.specs.List.{list_any};
ghost use Rattle.std.specs.List.Sorted.{IsStrictlySortedBy};
ghost use Rattle.kin_ids.specs.Users.{same_tag, tag_cmp};
ghost use Rattle.kin_changes.specs.Told.{tag_more, tells_tag};
ghost use Rattle.kin_rules.specs.Results.{has_tag, tag_users_in};
ghost use Rattle.kin_rules.specs.Spots.{IsSpot};
ghost use Rattle.kin_counts.specs.Changes.{raised};

use kin_graph::{Delta, TagUser};
use kin_ids::{Memory, Tag};
use kin_rules::EpochResult;
use std::alloc::Global;

// A tag's spot among these. O(log n).
fn spot_of(tags: &[Tag], t: Tag) -> Result<usize, usize>
    requires { IsStrictlySortedBy tag_cmp tags.now }
    ensures { IsSpot tag_cmp tags.now t result }
{
    tags.binary_search(&t)
}

// The numbers of users that a result has of these tags.
fn numbers_before(alloc: Global, counted: &EpochResult, tags: &[Tag]) -> Result<Vec<u64>, Memory>
    ensures { IfOk result (λ v. v.items ≡ map (tag_users_in counted.now) tags.now) }
{
    let mut numbers = Vec::with_capacity(alloc, tags.len())?;
    for tag in tags {
        numbers.push(counted.users_of(*tag))?;
    }
    Ok(numbers)
}

// A tag has one user more, where it is one of these.
fn add_one(tags: &[Tag], numbers: &mut [u64], t: Tag)
    requires ascend { IsStrictlySortedBy tag_cmp tags.now }
    requires long { length numbers.old ≡ length tags.now }
    ensures { (f : List ℕ → ℕ) → numbers.old ≡ map f tags.now
        → numbers.new ≡ map (λ s. raised (if same_tag s t then 1 else 0) (f s)) tags.now }
{
    if let Ok(at) = spot_of(tags, t) {
        numbers[at] = numbers[at].saturating_add(1);
    }
}

// These tags have one user more for each row.
fn add_rows(tags: &[Tag], numbers: &mut [u64], rows: &[TagUser])
    requires ascend { IsStrictlySortedBy tag_cmp tags.now }
    requires long { length numbers.old ≡ length tags.now }
    ensures { (f : List ℕ → ℕ) → numbers.old ≡ map f tags.now
        → numbers.new ≡ map (λ s. raised (count_by (λ x. same_tag s x.tag) rows.now) (f s)) tags.now }
{
    for row in rows {
        add_one(tags, numbers, row.tag);
    }
}

/// How many users each of these tags has once the deltas are counted. It costs a look-up for each tag and each new
/// user.
pub(crate) fn tag_numbers(
    alloc: Global,
    counted: &EpochResult,
    tags: &[Tag],
    deltas: &[Delta],
) -> Result<Vec<u64>, Memory>
    requires { IsStrictlySortedBy tag_cmp tags.now }
    ensures { IfOk result (λ v. v.items ≡ map (λ t. raised (tag_more deltas.now t) (tag_users_in counted.now t)) tags.now) }
{
    let mut numbers = numbers_before(alloc, counted, tags)?;
    for delta in deltas {
        add_rows(tags, numbers.as_mut_slice(), delta.tag_users());
    }
    Ok(numbers)
}
