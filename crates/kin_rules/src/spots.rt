//! Where keys stand in slices that ascend.

ghost use Rattle.std.specs.Prelude.{◌≡◌, ◌<◌, ◌≤◌, vec_capacity, vec_len};
ghost use Rattle.std.specs.List.{insert};
ghost use Rattle.std.specs.List.Sorted.{IsStrictlySortedBy};
ghost use Rattle.std.specs.declared.cmp.Ordering.TheVariants.{Equal};
ghost use Rattle.kin_rules.specs.Spots.{IsSpot};

/// The place of a key, or else the place where it would stand. O(log n).
pub(crate) fn spot_of<K: Ord>(keys: &[K], key: &K) -> Result<usize, usize>
    requires ascend { IsStrictlySortedBy K.cmp keys.now }
    requires ties { (x y : _) → K.cmp x y ≡ Equal → x ≡ y }
    ensures { IsSpot K.cmp keys.now key.now result }
{
    keys.binary_search(key)
}

/// Puts an item at a place of a list that has room. O(n), without memory.
pub(crate) fn put_at<T: Drop>(items: &mut Vec<T>, at: usize, item: T)
    requires room { vec_len items.old < vec_capacity items.old }
    requires within { at ≤ vec_len items.old }
    ensures { items.new.items ≡ insert items.old.items at item }
{
    let Ok(()) = items.insert(at, item) else {
        unreachable!();
    };
}
