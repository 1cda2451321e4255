//! A settle by both rules.

ghost use Rattle.std.specs.Prelude.{◌≡◌, ◌+◌, true, false, List, [], Option, Some, None, IfOk, OnErr, OnOk, Ok, length};
ghost use Rattle.std.specs.List.{flat_map};
ghost use Rattle.std.specs.List.Sorted.{IsStrictlySortedBy};
ghost use Rattle.kin_ids.specs.Users.{tag_cmp};
ghost use Rattle.kin_rules.specs.declared.exposure_rules.UseK.{UseK};
ghost use Rattle.kin_rules.specs.ExposureLists.{AreTallies};
ghost use Rattle.kin_rules.specs.ExposureRule.{exposure_rule};
ghost use Rattle.kin_rules.specs.RankRule.{rank_rule};
ghost use Rattle.kin_rules.specs.Scratches.{AreLists};
ghost use Rattle.kin_pull.specs.Settles.{settle_reads};
ghost use Rattle.kin_pull.specs.States.{IsKept, IsQuiet, On, keeping, net_in, row_in};
ghost use Rattle.kin_scores.specs.Planned.{AreMadeBy, IsDrafted, IsExposureDrafted, IsRowAfter};
ghost use Rattle.kin_scores.specs.Scores.{AreKept, AreQuiet, AreShown, StandOn};
ghost use Rattle.kin_scores.specs.Turns.{AreSettled, IsSettledBy, KeepsRest, scores_reads};

use crate::scores::Scores;
use kin_graph::{Steps, View};
use kin_ids::{ListOf, Memory, Tag, User};
use kin_pull::{Kept, SettlePlan, enter_settle, plan_settle};
use kin_rules::exposure_rules::Exposure;
use kin_rules::rank_rules::Rank;
use kin_rules::{EpochResult, KCount, UseK, UseKs, tally};
use std::alloc::Global;
use std::sync::ledger::Ledger;

/// A planned settle by exposure, and the exposures of all tags after it.
#[derive(Drop)]
pub(crate) struct ExposureSettle {
    plan: SettlePlan<UseKs>,
    lists: Vec<ListOf<KCount>>,
}

// The entries of so many users after a planned settle.
fn entries_after(
    alloc: Global,
    expos: &Kept<UseKs>,
    plan: &SettlePlan<UseKs>,
    users: &[User],
) -> Result<Vec<UseK>, Memory>
    ensures { IfOk result (λ entries. (next : List (List UseK)) → IsRowAfter users.now plan.now expos.now next
        → entries.items ≡ flat_map (λ row. row) next) }
{
    let none = UseKs::new(alloc);
    let mut entries = Vec::new(alloc);
    for i in 0..users.len() {
        entries.extend_from_slice(plan.value_of(expos, &none, 1, i).as_slice())?;
    }
    Ok(entries)
}

// Plans a settle by rank.
fn plan_ranks<V: View, L: Ledger>(
    alloc: Global,
    ranks: &Kept<u64>,
    users: &[User],
    view: &V,
    steps: &mut Steps<L>,
) -> Result<Option<SettlePlan<u64>>, Memory>
    requires kept { IsKept 8 users.now ranks.now }
    requires on { On rank_rule 8 (V.seen view.now) users.now ranks.now }
    ensures planned { IfOk result (IsDrafted rank_rule 8 (V.seen view.now) users.now ranks.now) }
    ensures reads { OnOk result (steps.new ≡ steps.old + settle_reads rank_rule
        (net_in rank_rule.side (V.seen view.now) users.now ranks.now) (V.seen view.now)
        (keeping rank_rule.first users.now ranks.now) users.now 8) }
    ensures idle { IsQuiet users.now ranks.now → (steps.new ≡ steps.old) × (result ≡ Ok None) }
{
    plan_settle(alloc, &Rank, users, ranks, view, steps)
}

// Plans a settle by exposure.
fn plan_exposures<V: View, L: Ledger>(
    alloc: Global,
    expos: &Kept<UseKs>,
    users: &[User],
    tags: &[Tag],
    view: &V,
    steps: &mut Steps<L>,
) -> Result<Option<ExposureSettle>, Memory>
    requires kept { IsKept 1 users.now expos.now }
    requires on { On exposure_rule 1 (V.seen view.now) users.now expos.now }
    requires tags { IsStrictlySortedBy tag_cmp tags.now }
    ensures planned { IfOk result (IsExposureDrafted (V.seen view.now) users.now tags.now expos.now) }
    ensures reads { OnOk result (steps.new ≡ steps.old + settle_reads exposure_rule
        (net_in exposure_rule.side (V.seen view.now) users.now expos.now) (V.seen view.now)
        (keeping exposure_rule.first users.now expos.now) users.now 1) }
    ensures idle { IsQuiet users.now expos.now → (steps.new ≡ steps.old) × (result ≡ Ok None) }
{
    let Some(plan) = plan_settle(alloc, &Exposure, users, expos, view, steps)? else {
        return Ok(None);
    };
    let entries = entries_after(alloc, expos, &plan, users)?;
    let lists = tally(alloc, tags, entries.as_slice())?;
    Ok(Some(ExposureSettle { plan, lists }))
}

// Settles by rank, where it is planned. It takes no memory.
fn settle_ranks<V: View>(
    ranks: &mut Kept<u64>,
    columns: &mut EpochResult,
    view: &V,
    plan: Option<SettlePlan<u64>>,
)
    requires kept { IsKept 8 columns.old.users ranks.old }
    requires on { On rank_rule 8 (V.seen view.now) columns.old.users ranks.old }
    requires shown { columns.old.ranks ≡ row_in ranks.old 8 }
    requires planned { IsDrafted rank_rule 8 (V.seen view.now) columns.old.users ranks.old plan }
    ensures kept { IsKept 8 columns.old.users ranks.new }
    ensures on { On rank_rule 8 (V.seen view.now) columns.old.users ranks.new }
    ensures settled { IsSettledBy rank_rule 8 (V.seen view.now) columns.old.users ranks.old ranks.new }
    ensures columns { columns.new ≡ record columns.old { ranks = row_in ranks.new 8 } }
    ensures idle { plan ≡ None → (ranks.new ≡ ranks.old) × (columns.new ≡ columns.old) }
{
    let Some(plan) = plan else {
        return;
    };
    enter_settle(&Rank, columns.users(), ranks, view, plan);
    columns.put_ranks(ranks.row(8));
}

// Settles by exposure, where it is planned. It takes no memory.
fn settle_exposures<V: View>(
    expos: &mut Kept<UseKs>,
    columns: &mut EpochResult,
    view: &V,
    planned: Option<ExposureSettle>,
)
    requires kept { IsKept 1 columns.old.users expos.old }
    requires on { On exposure_rule 1 (V.seen view.now) columns.old.users expos.old }
    requires shown { AreTallies (flat_map (λ row. row) (row_in expos.old 1)) columns.old.tags columns.old.expos }
    requires planned { IsExposureDrafted (V.seen view.now) columns.old.users columns.old.tags expos.old planned }
    ensures kept { IsKept 1 columns.old.users expos.new }
    ensures on { On exposure_rule 1 (V.seen view.now) columns.old.users expos.new }
    ensures settled { IsSettledBy exposure_rule 1 (V.seen view.now) columns.old.users expos.old expos.new }
    ensures shown { AreTallies (flat_map (λ row. row) (row_in expos.new 1)) columns.old.tags columns.new.expos }
    ensures rest { columns.new ≡ record columns.old { expos = columns.new.expos } }
    ensures idle { planned ≡ None → (expos.new ≡ expos.old) × (columns.new ≡ columns.old) }
{
    let Some(planned) = planned else {
        return;
    };
    enter_settle(&Exposure, columns.users(), expos, view, planned.plan);
    columns.put_exposures(planned.lists);
}

impl Scores {
    /// Computes the layers again, by both rules, of all who are active and of those to whom a change shows. Then nobody
    /// is active, and every layer is the rule's; the result shows it. After Memory all is as before. Where somebody is
    /// active it costs O(n) in the users for each layer, what it reads, and a look at all entries.
    pub fn settle<V: View, L: Ledger>(
        &mut self,
        columns: &mut EpochResult,
        view: &V,
        steps: &mut Steps<L>,
    ) -> Result<(), Memory>
        requires kept { AreKept columns.old.users self.old }
        requires on { StandOn (V.seen view.now) columns.old.users self.old }
        requires shown { AreShown self.old columns.old }
        ensures kept { AreKept columns.old.users self.new }
        ensures on { StandOn (V.seen view.now) columns.old.users self.new }
        ensures shown { AreShown self.new columns.new }
        ensures settles { OnOk result (AreSettled (V.seen view.now) columns.old.users self.old self.new) }
        ensures quiet { OnOk result (AreQuiet columns.old.users self.new) }
        ensures reads { OnOk result (steps.new
            ≡ steps.old + scores_reads (V.seen view.now) columns.old.users self.old) }
        ensures rest { KeepsRest columns.old columns.new }
        ensures idle { AreQuiet columns.old.users self.old → (steps.new ≡ steps.old) × (self.new ≡ self.old)
            × (columns.new ≡ columns.old) }
        ensures err { OnErr result ((self.new ≡ self.old) × (columns.new ≡ columns.old)) }
    {
        let (users, tags) = (columns.users(), columns.tags());
        let ranks = plan_ranks(self.alloc, &self.ranks, users, view, steps)?;
        let expos = plan_exposures(self.alloc, &self.expos, users, tags, view, steps)?;
        settle_ranks(&mut self.ranks, columns, view, ranks);
        settle_exposures(&mut self.expos, columns, view, expos);
        Ok(())
    }
}
