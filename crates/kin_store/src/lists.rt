//! Lists in the order of first adding, in which an item is found by a scan of the first few items or by a hint.

ghost use Rattle.std.specs.Prelude.{◌≡◌, true, OnOk, OnErr};
ghost use Rattle.kin_ids.specs.declared.stamps.Place.{Place};
ghost use Rattle.kin_ids.specs.Users.{has_user, tag_cmp, user_cmp};
ghost use Rattle.kin_ids.specs.Parts.{with_half, without_half, with_member, with_first};
ghost use Rattle.kin_store.specs.Lists.{half_key, use_key, user_key, half_to, use_of};
ghost use Rattle.kin_store.specs.Lists.{half_place, place_of, use_place, user_place};
ghost use Rattle.kin_store.specs.Turns.{turned};
ghost use Rattle.kin_store.specs.Hints.{IsHint};

use crate::keyed::Keyed;
use kin_ids::{Half, Memory, Place, Tag, Use, User};
use kin_share::SharedList;

/// Follow halves by their other end, in the order of first adding.
pub type Halves = SharedList<Half>;

/// Users, each once.
pub type Users = SharedList<User>;

/// First uses, each tag once.
pub type UseList = SharedList<Use>;

// So many items are scanned; the others are found by a hint.
const FEW: usize = 16;

// Where the item of this key stands.
fn scanned<K: Ord + Copy + Drop, T: Keyed<K> + Copy + Drop>(items: &[T], key: K) -> Option<usize>
    ensures { result ≡ place_of K.cmp T.key key items.now }
{
    items.iter().position(|x| key.cmp(&x.key()).is_eq())
}

/// Where the item of this key stands. The hint is right wherever that is past the first few items. O(1).
pub(crate) fn place_in<K: Ord + Copy + Drop, T: Keyed<K> + Copy + Drop>(
    items: &SharedList<T>,
    key: K,
    hint: Option<usize>,
) -> Option<usize>
    requires { IsHint K.cmp T.key key items.now hint }
    ensures { result ≡ place_of K.cmp T.key key items.now }
{
    if let Some(at) = scanned(items.head(FEW), key) {
        return Some(at);
    }
    let Some(at) = hint else {
        return None;
    };
    if at >= items.len() {
        return None;
    }
    if key.cmp(&items.at(at).key()).is_eq() {
        return Some(at);
    }
    None
}

// The half at a place is present or absent from here on.
fn turn(halves: &mut Halves, other: User, present: bool, at: Option<usize>) -> Result<(), Memory>
    requires { at ≡ half_place halves.old other }
    ensures ok { OnOk result (halves.new ≡ turned other present halves.old) }
    ensures err { OnErr result (halves.new ≡ halves.old) }
{
    let Some(at) = at else {
        return Ok(());
    };
    let half = halves.at(at);
    if half.present == present {
        return Ok(());
    }
    halves.set(at, Half { present, ..half })?;
    Ok(())
}

/// The half is present from here on. Where it was never added, its place is this one.
pub(crate) fn add_half(
    halves: &mut Halves,
    other: User,
    added: Place,
    at: Option<usize>,
) -> Result<(), Memory>
    requires { at ≡ half_place halves.old other }
    ensures ok { OnOk result (halves.new ≡ with_half other added halves.old) }
    ensures err { OnErr result (halves.new ≡ halves.old) }
{
    if at.is_some() {
        return turn(halves, other, true, at);
    }
    halves.push(Half {
        other,
        present: true,
        added,
    })?;
    Ok(())
}

/// Whether the half is there and present.
pub(crate) fn is_added(halves: &Halves, other: User, at: Option<usize>) -> bool
    requires { at ≡ half_place halves.now other }
    ensures { result ≡ true → (added : Place) → with_half other added halves.now ≡ halves.now }
{
    let Some(at) = at else {
        return false;
    };
    halves.at(at).present
}

/// Whether the half is absent, or was never added.
pub(crate) fn is_dropped(halves: &Halves, other: User, at: Option<usize>) -> bool
    requires { at ≡ half_place halves.now other }
    ensures { result ≡ true → without_half other halves.now ≡ halves.now }
{
    let Some(at) = at else {
        return true;
    };
    !halves.at(at).present
}

/// The half is absent from here on, where it was ever added.
pub(crate) fn drop_half(halves: &mut Halves, other: User, at: Option<usize>) -> Result<(), Memory>
    requires { at ≡ half_place halves.old other }
    ensures ok { OnOk result (halves.new ≡ without_half other halves.old) }
    ensures err { OnErr result (halves.new ≡ halves.old) }
{
    turn(halves, other, false, at)
}

//// One more user, where it isn't there yet.
pub(crate) fn put_user(users: &mut Users, user: User, at: Option<usize>) -> Result<(), Memory>
    requires { at ≡ user_place users.old user }
    ensures ok { OnOk result (users.new ≡ with_member user users.old) }
    ensures err { OnErr result (users.new ≡ users.old) }
{
    if at.is_none() {
        users.push(user)?;
    }
    Ok(())
}

/// One more use, where the tag isn't there yet.
pub(crate) fn put_use(
    uses: &mut UseList,
    tag: Tag,
    first: Place,
    at: Option<usize>,
) -> Result<(), Memory>
    requires { at ≡ use_place uses.old tag }
    ensures ok { OnOk result (uses.new ≡ with_first tag first uses.old) }
    ensures err { OnErr result (uses.new ≡ uses.old) }
{
    if at.is_none() {
        uses.push(Use { tag, first })?;
    }
    Ok(())
}

/// Whether the user is there already.
pub(crate) fn is_member(users: &Users, user: User, at: Option<usize>) -> bool
    requires { at ≡ user_place users.now user }
    ensures { result ≡ true → with_member user users.now ≡ users.now }
{
    at.is_some()
}

/// Whether the tag is there already.
pub(crate) fn is_used(uses: &UseList, tag: Tag, at: Option<usize>) -> bool
    requires { at ≡ use_place uses.now tag }
    ensures { result ≡ true → (first : Place) → with_first tag first uses.now ≡ uses.now }
{
    at.is_some()
}

/// The half with this other end, where it was ever added. O(1).
pub(crate) fn half_of(halves: &Halves, other: User, hint: Option<usize>) -> Option<Half>
    requires { IsHint user_cmp half_key other halves.now hint }
    ensures { result ≡ half_to halves.now other }
{
    let Some(at) = place_in(halves, other, hint) else {
        return None;
    };
    Some(halves.at(at))
}

/// The use of a tag, where there is one. O(1).
pub(crate) fn use_in(uses: &UseList, tag: Tag, hint: Option<usize>) -> Option<Use>
    requires { IsHint tag_cmp use_key tag uses.now hint }
    ensures { result ≡ use_of uses.now tag }
{
    let Some(at) = place_in(uses, tag, hint) else {
        return None;
    };
    Some(uses.at(at))
}

/// Whether a user is among these. O(1).
pub(crate) fn is_among(users: &Users, user: User, hint: Option<usize>) -> bool
    requires { IsHint user_cmp user_key user users.now hint }
    ensures { result ≡ has_user users.now user }
{
    place_in(users, user, hint).is_some()
}
