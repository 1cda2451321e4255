//! How a partition's store is looked into.

ghost use Rattle.std.specs.Prelude.{◌≡◌, IfOk, List, ℕ, false, not};
ghost use Rattle.std.specs.List.{list_any};
ghost use Rattle.std.specs.List.Sorted.{IsStrictlySortedBy};
ghost use Rattle.kin_ids.specs.declared.ids.User.{User};
ghost use Rattle.kin_ids.specs.Users.{has_user, same_tag, tag_cmp, user_cmp};
ghost use Rattle.kin_store.specs.Lists.{half_to, use_of};
ghost use Rattle.kin_store.specs.Rows.{is_apart, is_none, no_row};
ghost use Rattle.kin_store.specs.State.{row_of, users_of};
ghost use Rattle.kin_store.specs.Changes.{kept};
ghost use Rattle.kin_store.specs.Hints.{IsIndexed};

use crate::indexes::Index;
use crate::lists::{half_of, is_among, use_in};
use crate::pairs::Pair;
use crate::part_snaps::PartSnap;
use kin_ids::{Half, Memory, Tag, Use, User};

impl PartSnap {
    /// The users that aren't apart: in a follow edge ever added, in a mention edge or in a use. Ascending. O(n log n).
    pub fn vertices(&self) -> Result<Vec<User>, Memory>
        ensures ascend { IfOk result (λ us. IsStrictlySortedBy user_cmp us.items) }
        ensures all { IfOk result (λ us. (u : User) → has_user us.items u ≡ not (is_apart (row_of self.now u))) }
    {
        self.store().vertices()
    }

    /// The users of whom something is kept, in no stated order: of each other one nothing is. O(n).
    pub fn owners(&self) -> Result<Vec<User>, Memory>
        ensures { IfOk result (λ us. (u : User) → has_user us.items u ≡ false → row_of self.now u ≡ no_row) }
    {
        self.store().owners()
    }

    /// The tags that somebody has used, ascending. O(n log n).
    pub fn tags(&self) -> Result<Vec<Tag>, Memory>
        ensures ascend { IfOk result (λ ts. IsStrictlySortedBy tag_cmp ts.items) }
        ensures in_use { IfOk result (λ ts. (t : List ℕ)
            → list_any (same_tag t) ts.items ≡ not (is_none (users_of self.now t))) }
    {
        self.store().tags()
    }

    /// The follow half out of a user to another one, where it was ever added. O(log n).
    pub fn out_half(&self, index: &Index, pair: Pair) -> Option<Half>
        requires indexed { IsIndexed (kept self.now) index.now }
        ensures { result ≡ half_to (row_of self.now pair.user).out pair.other }
    {
        half_of(self.row(pair.user).out(), pair.other, index.out(pair))
    }

    /// The follow half into a user from another one, where it was ever added. O(log n).
    pub fn in_half(&self, index: &Index, pair: Pair) -> Option<Half>
        requires indexed { IsIndexed (kept self.now) index.now }
        ensures { result ≡ half_to (row_of self.now pair.user).inn pair.other }
    {
        half_of(self.row(pair.user).inn(), pair.other, index.inn(pair))
    }

    /// Whether a user mentions another one. O(log n).
    pub fn mentions_user(&self, index: &Index, pair: Pair) -> bool
        requires indexed { IsIndexed (kept self.now) index.now }
        ensures { result ≡ has_user (row_of self.now pair.user).mentions pair.other }
    {
        is_among(
            self.row(pair.user).mentions(),
            pair.other,
            index.mentions(pair),
        )
    }

    /// Whether a user is mentioned by another one. O(log n).
    pub fn mentioned_by(&self, index: &Index, pair: Pair) -> bool
        requires indexed { IsIndexed (kept self.now) index.now }
        ensures { result ≡ has_user (row_of self.now pair.user).mentioners pair.other }
    {
        is_among(
            self.row(pair.user).mentioners(),
            pair.other,
            index.mentioners(pair),
        )
    }

    /// A user's first use of a tag, where there is one. O(log n).
    pub fn first_use(&self, index: &Index, user: User, tag: Tag) -> Option<Use>
        requires indexed { IsIndexed (kept self.now) index.now }
        ensures { result ≡ use_of (row_of self.now user).uses tag }
    {
        use_in(self.row(user).uses(), tag, index.uses(tag, user))
    }

    /// Whether a tag is used by a user. O(log n).
    pub fn has_tag_user(&self, index: &Index, tag: Tag, user: User) -> bool
        requires indexed { IsIndexed (kept self.now) index.now }
        ensures { result ≡ has_user (users_of self.now tag) user }
    {
        is_among(self.users_of(tag), user, index.users(tag, user))
    }
}
