//! How many users of each tag have which exposure.

ghost use Rattle.std.specs.Prelude.{◌≡◌, ◌<◌, ◌+◌, ◌==◌, ◌++◌, ◌∷◌, ℕ, List, [], IfOk, OnOk, if◌then◌else◌};
ghost use Rattle.std.specs.Prelude.{All, count_by, length, map, nat_lt, replicate, slice_index, slice_set};
ghost use Rattle.kin_rules.specs.declared.exposure_rules.UseK.{UseK};
ghost use Rattle.std.specs.List.Sorted.{IsStrictlySortedBy};
ghost use Rattle.kin_ids.specs.Users.{tag_cmp};
ghost use Rattle.kin_rules.specs.ExposureLists.{AreTallies, IsTally, counted, counted_one, ks_of, listed};
ghost use Rattle.kin_rules.specs.Scratches.{AreLists};

use crate::exposure_rules::UseK;
use crate::numbers::KCount;
use crate::results::spot_of_tag;
use kin_ids::{ListOf, Memory, Tag};
use std::alloc::Global;

// So many empty rows.
fn empty_rows(alloc: Global, n: usize) -> Result<Vec<Vec<u64>>, Memory>
    ensures { IfOk result (λ rows. map (λ r. r.items) rows.items ≡ replicate n []) }
{
    let mut rows = Vec::with_capacity(alloc, n)?;
    for _row in 0..n {
        rows.push(Vec::new(alloc))?;
    }
    Ok(rows)
}

// One entry more: its number stands in the row of its tag.
fn put_entry(rows: &mut [Vec<u64>], tags: &[Tag], entry: &UseK) -> Result<(), Memory>
    requires ascend { IsStrictlySortedBy tag_cmp tags.now }
    requires long { length rows.old ≡ length tags.now }
    ensures put { OnOk result ((es : List UseK) → map (λ r. r.items) rows.old ≡ map (ks_of es) tags.now
        → map (λ r. r.items) rows.new ≡ map (ks_of (es ++ entry.now ∷ [])) tags.now) }
{
    match spot_of_tag(tags, entry.tag) {
        Ok(at) => {
            rows[at].push(entry.k)?;
            Ok(())
        }
        Err(_) => Ok(()),
    }
}

// Of each tag the numbers of its entries, in their order. O(log t) an entry for t tags.
fn rows_of_tags(alloc: Global, tags: &[Tag], entries: &[UseK]) -> Result<Vec<Vec<u64>>, Memory>
    requires { IsStrictlySortedBy tag_cmp tags.now }
    ensures { IfOk result (λ rows. map (λ r. r.items) rows.items ≡ map (ks_of entries.now) tags.now) }
{
    let mut rows = empty_rows(alloc, tags.len())?;
    for entry in entries {
        put_entry(rows.as_mut_slice(), tags, entry)?;
    }
    Ok(rows)
}

// One more at a place, where there is such a place.
fn count_one(counts: &mut Vec<u64>, k: u64)
    requires { slice_index counts.old.items k < u64.MAX }
    ensures { counts.new.items ≡ counted_one counts.old.items k }
{
    if k < counts.len() as u64 {
        counts[k as usize] += 1;
    }
}

// How many of these are which number below n. O(n) and O(1) a number.
fn counts_below(alloc: Global, ks: &[u64], n: u64) -> Result<Vec<u64>, Memory>
    ensures { IfOk result (λ counts. (length counts.items ≡ n)
        × ((j : ℕ) → j < n → slice_index counts.items j ≡ count_by (λ x. x == j) ks.now)) }
{
    let mut counts = vec![in alloc; 0; n as usize]?;
    for k in ks {
        count_one(&mut counts, *k);
    }
    Ok(counts)
}

// Those that are not 0, with their numbers.
fn list_of(alloc: Global, counts: &[u64]) -> Result<Vec<KCount>, Memory>
    ensures { IfOk result (λ list. list.items ≡ listed counts.now) }
{
    let mut list = Vec::new(alloc);
    for (k, users) in counts.iter().enumerate() {
        if *users > 0 {
            list.push(KCount {
                k: k as u64,
                users: *users,
            })?;
        }
    }
    Ok(list)
}

/// Of each tag how many of its entries have which number, below its number of users. O(log t) an entry for t tags.
pub(crate) fn exposure_lists(
    alloc: Global,
    tags: &[Tag],
    tag_users: &[u64],
    entries: &[UseK],
) -> Result<Vec<ListOf<KCount>>, Memory>
    requires ascend { IsStrictlySortedBy tag_cmp tags.now }
    requires long { length tag_users.now ≡ length tags.now }
    ensures { IfOk result (λ lists. (f : List ℕ → ℕ) → tag_users.now ≡ map f tags.now
        → lists.items ≡ map (λ t. counted (ks_of entries.now t) (f t)) tags.now) }
{
    let rows = rows_of_tags(alloc, tags, entries)?;
    let mut lists = Vec::with_capacity(alloc, tags.len())?;
    for (i, row) in rows.iter().enumerate() {
        let counts = counts_below(alloc, row, tag_users[i])?;
        lists.push(ListOf::of(list_of(alloc, &counts)?))?;
    }
    Ok(lists)
}

// A number past all of these.
fn past_all(ks: &[u64]) -> Result<u64, Memory>
    ensures { IfOk result (λ n. All (λ k. k < n) ks.now) }
{
    let mut n: u64 = 0;
    for k in ks {
        let past = k.checked_add(1).ok_or(Memory)?;
        n = n.max(past);
    }
    Ok(n)
}

// Which of these numbers there are, and how often. It takes room for the greatest.
fn tally_of(alloc: Global, ks: &[u64]) -> Result<ListOf<KCount>, Memory>
    ensures { IfOk result (λ list. IsTally ks.now list) }
{
    let counts = counts_below(alloc, ks, past_all(ks)?)?;
    Ok(ListOf::of(list_of(alloc, &counts)?))
}

/// Of each tag which numbers its entries have, ascending, and how many have each. O(log t) an entry for t tags, and room
/// for the greatest number of each tag.
pub fn tally(alloc: Global, tags: &[Tag], entries: &[UseK]) -> Result<Vec<ListOf<KCount>>, Memory>
    requires { IsStrictlySortedBy tag_cmp tags.now }
    ensures lists { IfOk result (λ lists. AreLists tags.now lists.items) }
    ensures tallies { IfOk result (λ lists. AreTallies entries.now tags.now lists.items) }
{
    let rows = rows_of_tags(alloc, tags, entries)?;
    let mut lists = Vec::with_capacity(alloc, tags.len())?;
    for row in &rows {
        lists.push(tally_of(alloc, row.as_slice())?)?;
    }
    Ok(lists)
}
