//! Laws of the definitions, each the contract of a function that does nothing.

ghost use Rattle.kin_rules.specs.Costs.{CostIsLeast, LeastIsOne};
ghost use Rattle.kin_rules.specs.Counts.{FollowersArePresent};
ghost use Rattle.kin_rules.specs.Edges.{FewIsSmall};
ghost use Rattle.kin_rules.specs.Exposure.{ExposuresAddUp, ExposuresAreFew};
ghost use Rattle.kin_rules.specs.ExposureRule.{ExposuresAreLayers};
ghost use Rattle.kin_rules.specs.Kept.{RestIsLeast};
ghost use Rattle.kin_rules.specs.Nets.{CloseAddsUp, CloseIsLeast, EdgesAreSeen};
ghost use Rattle.kin_rules.specs.Nets.{HopsAreLeast, HopsCountEdges, NetsAreWhole};
ghost use Rattle.kin_rules.specs.Ranks.{FollowersFollow, RanksAreCapped};
ghost use Rattle.kin_rules.specs.RankRule.{RanksAreLayers};
ghost use Rattle.kin_rules.specs.Spreads.{OfferSpreads, QuietIsLeast, RestSpreads};
ghost use Rattle.kin_rules.specs.Support.{SupportIsLeast};
ghost use Rattle.kin_rules.specs.Top.{TagsAreOrdered, TagsInAnyOrder, UsersAreOrdered, UsersInAnyOrder};

/// At most one value is the least cost, and the search finds it. Values at rest are the least costs, be they kept by
/// walks or by edges.
pub fn cost_laws()
    ensures one { LeastIsOne }
    ensures least { CostIsLeast }
    ensures rest { RestIsLeast }
    ensures support { SupportIsLeast }
{}

/// Hops and closeness on a graph: what they see of it, what a walk costs, and that they are the least of all walks.
pub fn walk_laws()
    ensures edges { EdgesAreSeen }
    ensures whole { NetsAreWhole }
    ensures hops_cost { HopsCountEdges }
    ensures close_cost { CloseAddsUp }
    ensures hops { HopsAreLeast }
    ensures close { CloseIsLeast }
{}

/// A view of a graph with at most 2^27 vertices is small.
pub fn view_laws()
    ensures { FewIsSmall }
{}

/// Values that are kept while some users have yet to offer theirs: offers and turns keep them so, and where nobody is
/// left they are the least costs.
pub fn spread_laws()
    ensures quiet { QuietIsLeast }
    ensures offer { OfferSpreads }
    ensures rest { RestSpreads }
{}

/// Followers are those whose edge is present. No rank passes 10^15, and no share is among nobody. Rank is a rule of
/// layers.
pub fn rank_laws()
    ensures followers { FollowersArePresent }
    ensures capped { RanksAreCapped }
    ensures shared { FollowersFollow }
    ensures layers { RanksAreLayers }
{}

/// Each user of a tag counts under one exposure, below the number of the tag's users. Exposure is a rule of layers.
pub fn exposure_laws()
    ensures few { ExposuresAreFew }
    ensures all { ExposuresAddUp }
    ensures layers { ExposuresAreLayers }
{}

/// Top lists are cut from the entries in order, and there is one such order. It is the same in whatever order users or
/// tags come.
pub fn top_laws()
    ensures users { UsersAreOrdered }
    ensures tags { TagsAreOrdered }
    ensures any_order { UsersInAnyOrder }
    ensures tags_in_any_order { TagsInAnyOrder }
{}
