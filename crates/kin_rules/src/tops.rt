//! Lists cut to their entries with the greatest numbers.

ghost use Rattle.std.specs.Prelude.{◌≡◌, take, IfOk};
ghost use Rattle.std.specs.declared.cmp.Ordering.TheVariants.{Equal};
ghost use Rattle.kin_rules.specs.Top as tops;

use crate::numbers::{TagNumber, UserNumber};
use kin_ids::Memory;
use std::alloc::Global;

fn positive_users(alloc: Global, list: &[UserNumber]) -> Result<Vec<UserNumber>, Memory>
    ensures { IfOk result (λ entries. entries.items ≡ tops.positive_users list.now) }
{
    Ok(
        list.iter()
            .copied()
            .filter(|entry| entry.number > 0)
            .collect(alloc)?,
    )
}

fn positive_tags(alloc: Global, list: &[TagNumber]) -> Result<Vec<TagNumber>, Memory>
    ensures { IfOk result (λ entries. entries.items ≡ tops.positive_tags list.now) }
{
    Ok(
        list.iter()
            .copied()
            .filter(|entry| entry.number > 0)
            .collect(alloc)?,
    )
}

// The first t entries by their order, in any order, and all where there are fewer. It takes no memory.
fn first_of<T: Ord>(entries: &mut [T], t: u64) -> &mut [T]
    requires { (x y : _) → T.cmp x y ≡ Equal → x ≡ y }
    ensures { tops.in_order T.cmp result.now ≡ take t (tops.in_order T.cmp entries.old) }
{
    if t < entries.len() as u64 {
        entries.select_nth_unstable(t as usize).0
    } else {
        entries
    }
}

// The first t entries by their order, in order.
fn take_first<T: Ord + Copy>(alloc: Global, entries: &mut [T], t: u64) -> Result<Vec<T>, Memory>
    requires { (x y : _) → T.cmp x y ≡ Equal → x ≡ y }
    ensures { IfOk result (λ first. first.items ≡ take t (tops.in_order T.cmp entries.old)) }
{
    let first = first_of(entries, t);
    first.sort_unstable();
    Ok(Vec::from_slice(alloc, first)?)
}

/// The t entries with the greatest numbers, none of them 0, greater numbers first and ties by the lesser user. It
/// selects in time linear in the list on average, O(n log n) at worst, and puts only the t in order.
pub fn top_users(alloc: Global, list: &[UserNumber], t: u64) -> Result<Vec<UserNumber>, Memory>
    ensures { IfOk result (λ top. top.items ≡ tops.top_users list.now t) }
{
    let mut entries = positive_users(alloc, list)?;
    take_first(alloc, entries.as_mut_slice(), t)
}

/// The t entries with the greatest numbers, none of them 0, greater numbers first and ties by the lesser tag. It
/// selects in time linear in the list on average, O(n log n) at worst, and puts only the t in order.
pub fn top_tags(alloc: Global, list: &[TagNumber], t: u64) -> Result<Vec<TagNumber>, Memory>
    ensures { IfOk result (λ top. top.items ≡ tops.top_tags list.now t) }
{
    let mut entries = positive_tags(alloc, list)?;
    take_first(alloc, entries.as_mut_slice(), t)
}
