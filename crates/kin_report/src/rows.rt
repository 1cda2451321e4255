//! Worked rows, each the contract of a function that does nothing: what whole runs print.

ghost use Rattle.kin_report.specs.Rows.Epochs.{IsFirstRun, IsFirstIns, IsNeverReported, IsHalfDelivered, IsHalfReported, IsAgreedLater, IsRemovedLater};
ghost use Rattle.kin_report.specs.Rows.Restarts.{IsRestartedInside, IsSealed, IsSealedSwapped, IsNothingLeft};
ghost use Rattle.kin_report.specs.Rows.Messages.{IsRepeated, IsReordered};
ghost use Rattle.kin_report.specs.Rows.Orders.{IsNodeOrder, IsNodeOrderSwapped, IsCutFairly};
ghost use Rattle.kin_report.specs.Rows.Rules.{IsAtTheLimits, IsBadAlone, IsBadAmong, IsExposed, IsRanked};
ghost use Rattle.kin_report.specs.Rows.Walks.{IsShorterWalks, IsMentioned};
ghost use Rattle.kin_report.specs.Rows.Whole.{IsRealistic};
ghost use Rattle.kin_report.specs.Rows.Refusals.{IsRefused};
ghost use Rattle.kin_report.specs.Rows.Tops.{IsTopOfNone, IsTopOfOne, IsTopOfTwo, IsTopTagTwice};
ghost use Rattle.kin_report.specs.Rows.Nodes.{IsDownAtTheEnd, IsEarlyInLater, IsOneRaised, IsStaleLater, IsUnlikeNodes};
ghost use Rattle.kin_report.specs.Rows.Waits.{IsNotReportedByOne, IsOneByOne};

/// Rows on what stands in an epoch.
pub fn rows_on_epochs()
    ensures first_run { IsFirstRun }
    ensures first_ins { IsFirstIns }
    ensures never_reported { IsNeverReported }
    ensures half_delivered { IsHalfDelivered }
    ensures half_reported { IsHalfReported }
    ensures agreed_later { IsAgreedLater }
    ensures removed_later { IsRemovedLater }
{}

/// Rows on nodes that crash and come back.
pub fn rows_on_restarts()
    ensures restarted_inside { IsRestartedInside }
    ensures sealed { IsSealed }
    ensures sealed_swapped { IsSealedSwapped }
    ensures nothing_left { IsNothingLeft }
{}

/// Rows on pieces that come often or in the wrong order.
pub fn rows_on_messages()
    ensures repeated { IsRepeated }
    ensures reordered { IsReordered }
{}

/// Rows on the agreed order and cuts with a number.
pub fn rows_on_orders()
    ensures node_order { IsNodeOrder }
    ensures node_order_swapped { IsNodeOrderSwapped }
    ensures cut_fairly { IsCutFairly }
{}

/// Rows on values at their limits.
pub fn rows_on_rules()
    ensures at_the_limits { IsAtTheLimits }
    ensures exposed { IsExposed }
    ensures ranked { IsRanked }
    ensures bad_among { IsBadAmong }
    ensures bad_alone { IsBadAlone }
{}

/// Rows on hops and closeness.
pub fn rows_on_walks()
    ensures shorter_walks { IsShorterWalks }
    ensures mentioned { IsMentioned }
{}

/// Rows on a whole small network.
pub fn rows_on_whole()
    ensures realistic { IsRealistic }
{}

/// Rows on events that do not apply.
pub fn rows_on_refusals()
    ensures refused { IsRefused }
{}

/// Rows on top lists that are shorter than what there is, and on ties.
pub fn rows_on_tops()
    ensures none { IsTopOfNone }
    ensures one { IsTopOfOne }
    ensures two { IsTopOfTwo }
    ensures tag_twice { IsTopTagTwice }
{}

/// Rows on nodes that stand at different places.
pub fn rows_on_nodes()
    ensures unlike { IsUnlikeNodes }
    ensures one_raised { IsOneRaised }
    ensures early_in_later { IsEarlyInLater }
    ensures stale_later { IsStaleLater }
    ensures down_at_the_end { IsDownAtTheEnd }
{}

/// Rows on cuts, commits and mines that wait.
pub fn rows_on_waits()
    ensures not_reported_by_one { IsNotReportedByOne }
    ensures one_by_one { IsOneByOne }
{}
