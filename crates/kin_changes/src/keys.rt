//! Keys that ascend: whether one is among them, and more of them.

ghost use Rattle.std.specs.Prelude.{◌≡◌, ◌∷◌, ◌++◌, ◌||◌, [], IfOk, OnOk, if◌then◌else◌};
ghost use Rattle.std.specs.List.{list_any};
ghost use Rattle.std.specs.List.Sorted.{IsStrictlySortedBy};
ghost use Rattle.std.specs.BTreeMap.{is_at};
ghost use Rattle.std.specs.declared.cmp.Ordering.TheVariants.{Equal};

use kin_ids::Memory;

/// Whether a key is among these. O(log n).
pub fn is_among<K: Ord>(keys: &[K], key: &K) -> bool
    requires { IsStrictlySortedBy K.cmp keys.now }
    ensures { result ≡ list_any (is_at (K.cmp key.now)) keys.now }
{
    keys.binary_search(key).is_ok()
}

/// Appends a key where it isn't among the known ones. O(log n) in these.
pub(crate) fn push_fresh<K: Copy + Ord>(
    known: &[K],
    key: K,
    fresh: &mut Vec<K>,
) -> Result<(), Memory>
    requires { IsStrictlySortedBy K.cmp known.now }
    ensures { OnOk result (fresh.new.items
        ≡ (if list_any (is_at (K.cmp key)) known.now then fresh.old.items else fresh.old.items ++ key ∷ [])) }
{
    if !is_among(known, &key) {
        fresh.push(key)?;
    }
    Ok(())
}

/// The known keys and the fresh ones, ascending, each once. It costs O(n) in the former and O(d log d) in the latter.
pub(crate) fn joined<K: Copy + Ord>(known: &[K], fresh: Vec<K>) -> Result<Vec<K>, Memory>
    requires { (x y : _) → K.cmp x y ≡ Equal → x ≡ y }
    ensures ascend { IfOk result (λ ks. IsStrictlySortedBy K.cmp ks.items) }
    ensures all { IfOk result (λ ks. (k : _) → list_any (is_at (K.cmp k)) ks.items
        ≡ (list_any (is_at (K.cmp k)) known.now || list_any (is_at (K.cmp k)) fresh.items)) }
{
    let mut all = fresh;
    all.sort_unstable();
    all.extend_from_slice(known)?;
    all.sort()?;
    all.dedup();
    Ok(all)
}
