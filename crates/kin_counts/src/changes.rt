//! Numbers of a result that fall and rise by what deltas tell.

ghost use Rattle.std.specs.Prelude.{◌≡◌, ℕ, List, count_by, if◌then◌else◌};
ghost use Rattle.std.specs.List.{sum_by};
ghost use Rattle.kin_ids.specs.declared.ids.User.{User};
ghost use Rattle.kin_ids.specs.Users.{same_tag, same_user};
ghost use Rattle.kin_rules.specs.declared.numbers.Num.TheVariants as num;
ghost use Rattle.kin_rules.specs.Results.{number_in};
ghost use Rattle.kin_changes.specs.Told.{is_of, tag_more};
ghost use Rattle.kin_counts.specs.Changes.{Lowers, Raises, RaisesTags, came, of_one, of_rule, went};

use kin_changes::is_among;
use kin_graph::{Delta, Pair, SaidRow, TagUser};
use kin_ids::{Tag, User};
use kin_rules::{EpochResult, Num};

// The number of a user under a rule.
fn number_of(counted: &EpochResult, which: Num, u: User) -> u64
    ensures { result ≡ number_in counted.now which u }
{
    match which {
        Num::In => counted.in_of(u),
        Num::Out => counted.out_of(u),
        Num::Said => counted.said_of(u),
        Num::Rank => counted.rank_of(u),
    }
}

// A number of a user is one less, where it is one of the users.
fn lower_one(counted: &mut EpochResult, which: Num, u: User)
    ensures { Lowers counted.old (of_one which u 1) counted.new }
{
    if is_among(counted.users(), &u) {
        let n = number_of(counted, which, u);
        counted.put_number(which, u, n.saturating_sub(1));
    }
}

// A number of a user is so much more, where it is one of the users.
fn raise_one(counted: &mut EpochResult, which: Num, u: User, by: u64)
    ensures { Raises counted.old (of_one which u by) counted.new }
{
    if is_among(counted.users(), &u) {
        let n = number_of(counted, which, u);
        counted.put_number(which, u, n.saturating_add(by));
    }
}

// A tag has one user more, where it is in use.
fn raise_tag(counted: &mut EpochResult, t: Tag)
    ensures { RaisesTags counted.old (λ s. if same_tag s t then 1 else 0) counted.new }
{
    if is_among(counted.tags(), &t) {
        let n = counted.users_of(t);
        counted.put_tag(t, n.saturating_add(1));
    }
}

// The numbers of the users of pairs are one less for each.
fn lower_pairs(counted: &mut EpochResult, which: Num, pairs: &[Pair])
    ensures { Lowers counted.old (of_rule which (λ x. count_by (is_of x) pairs.now)) counted.new }
{
    for pair in pairs {
        lower_one(counted, which, pair.user);
    }
}

// The numbers of the users of pairs are one more for each.
fn raise_pairs(counted: &mut EpochResult, which: Num, pairs: &[Pair])
    ensures { Raises counted.old (of_rule which (λ x. count_by (is_of x) pairs.now)) counted.new }
{
    for pair in pairs {
        raise_one(counted, which, pair.user, 1);
    }
}

// More items mention these users.
fn raise_said(counted: &mut EpochResult, rows: &[SaidRow])
    ensures { Raises counted.old (of_rule num.Said (λ x. sum_by (λ r. if same_user x r.user then r.number else 0) rows.now)) counted.new }
{
    for row in rows {
        raise_one(counted, Num::Said, row.user, row.number);
    }
}

// These tags have one user more for each.
fn raise_tags(counted: &mut EpochResult, rows: &[TagUser])
    ensures { RaisesTags counted.old (λ t. count_by (λ x. same_tag t x.tag) rows.now) counted.new }
{
    for row in rows {
        raise_tag(counted, row.tag);
    }
}

/// Takes off what went. A look-up for each half that went. It takes no memory.
pub(crate) fn lower_all(counted: &mut EpochResult, deltas: &[Delta])
    ensures { Lowers counted.old (went deltas.now) counted.new }
{
    for delta in deltas {
        lower_pairs(counted, Num::In, delta.gone_in());
        lower_pairs(counted, Num::Out, delta.gone_out());
    }
}

/// Adds what came. A look-up for each half that came and each user mentioned more. It takes no memory.
pub(crate) fn raise_all(counted: &mut EpochResult, deltas: &[Delta])
    ensures { Raises counted.old (came deltas.now) counted.new }
{
    for delta in deltas {
        raise_pairs(counted, Num::In, delta.now_in());
        raise_pairs(counted, Num::Out, delta.now_out());
        raise_said(counted, delta.said());
    }
}

/// Adds the new users of tags in use. A look-up for each. It takes no memory.
pub(crate) fn raise_all_tags(counted: &mut EpochResult, deltas: &[Delta])
    ensures { RaisesTags counted.old (tag_more deltas.now) counted.new }
{
    for delta in deltas {
        raise_tags(counted, delta.tag_users());
    }
}
