//! How a graph is read.

ghost use Rattle.std.specs.Prelude.{◌≡◌};

use crate::Steps;
use kin_ids::{Memory, Tag, User};
use kin_store::{Halves, UseList, Users};
use std::sync::ledger::Ledger;

/// A graph, or a part of one, that is read user by user and tag by tag. Its edges are read only by the four calls that
/// take a counter: each ticks 1 plus the number of items that it hands out.
pub trait View {
    ghost use Rattle.std.specs.Prelude.{◌≡◌, ◌+◌, IfOk, List, ℕ, length};
    ghost use Rattle.std.specs.List.{list_any};
    ghost use Rattle.std.specs.List.Sorted.{IsStrictlySortedBy};
    ghost use Rattle.kin_ids.specs.declared.ids.User.{User};
    ghost use Rattle.kin_ids.specs.Users.{has_user, same_tag, tag_cmp, user_cmp};
    ghost use Rattle.kin_ids.specs.Parts.{PartView};
    ghost use Rattle.kin_graph.specs.Views.{is_in_use, is_vertex};

    ghost seen: { Self → PartView };

    /// The vertices, ascending.
    fn users(&self) -> Result<Vec<User>, Memory>
        ensures ascend { IfOk result (λ us. IsStrictlySortedBy user_cmp us.items) }
        ensures vertices { IfOk result (λ us. (u : User) → has_user us.items u ≡ is_vertex (seen self.now) u) };

    /// The tags in use, ascending.
    fn tags(&self) -> Result<Vec<Tag>, Memory>
        ensures ascend { IfOk result (λ ts. IsStrictlySortedBy tag_cmp ts.items) }
        ensures in_use { IfOk result (λ ts. (t : List ℕ)
            → list_any (same_tag t) ts.items ≡ is_in_use (seen self.now) t) };

    /// Whether the user stands in a follow edge ever added, in a mention edge or in a use.
    fn is_vertex(&self, u: User) -> bool
        ensures { result ≡ is_vertex (seen self.now) u };

    /// How many items of tweets mention the user, repeats included.
    fn said(&self, u: User) -> u64
        ensures { result ≡ (seen self.now).said u };

    /// The user's first uses of tags.
    fn uses(&self, u: User) -> &UseList
        ensures { result.now ≡ (seen self.now).uses u };

    /// How many users have used the tag.
    fn tag_users(&self, t: Tag) -> u64
        ensures { result ≡ length ((seen self.now).tag_users t) };

    /// The follow halves out of the user that were ever added, in the order of first adding.
    fn out<'a, L: Ledger>(&'a self, u: User, steps: &mut Steps<L>) -> &'a Halves
        ensures halves { result.now ≡ (seen self.now).out u }
        ensures ticks { steps.new ≡ steps.old + 1 + length ((seen self.now).out u) };

    /// The follow halves into the user that were ever added, in the order of first adding.
    fn inn<'a, L: Ledger>(&'a self, u: User, steps: &mut Steps<L>) -> &'a Halves
        ensures halves { result.now ≡ (seen self.now).inn u }
        ensures ticks { steps.new ≡ steps.old + 1 + length ((seen self.now).inn u) };

    /// The users whom the user mentions.
    fn mentions<'a, L: Ledger>(&'a self, u: User, steps: &mut Steps<L>) -> &'a Users
        ensures users { result.now ≡ (seen self.now).mentions u }
        ensures ticks { steps.new ≡ steps.old + 1 + length ((seen self.now).mentions u) };

    /// The users who mention the user.
    fn mentioners<'a, L: Ledger>(&'a self, u: User, steps: &mut Steps<L>) -> &'a Users
        ensures users { result.now ≡ (seen self.now).mentioners u }
        ensures ticks { steps.new ≡ steps.old + 1 + length ((seen self.now).mentioners u) };
}
