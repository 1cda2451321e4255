//! A turn of a user by both rules.

ghost use Rattle.std.specs.Prelude.{◌≡◌, ◌+◌, ◌≤◌, true, false, List, [], Option, Some, None, IfOk, OnErr, OnOk, Ok};
ghost use Rattle.std.specs.Prelude.{length, unwrap_or, if◌then◌else◌};
ghost use Rattle.std.specs.List.{flat_map};
ghost use Rattle.std.specs.List.Sorted.{IsStrictlySortedBy};
ghost use Rattle.kin_ids.specs.Users.{tag_cmp, user_cmp};
ghost use Rattle.kin_rules.specs.declared.exposure_rules.UseK.{UseK};
ghost use Rattle.kin_rules.specs.declared.turns.Turn.TheVariants as turn;
ghost use Rattle.kin_rules.specs.ExposureLists.{AreTallies};
ghost use Rattle.kin_rules.specs.ExposureRule.{exposure_rule};
ghost use Rattle.kin_rules.specs.RankRule.{rank_rule};
ghost use Rattle.kin_rules.specs.Scratches.{AreLists};
ghost use Rattle.kin_pull.specs.States.{IsKept, On, row_in};
ghost use Rattle.kin_pull.specs.States as kept;
ghost use Rattle.kin_pull.specs.TurnPlans.{planned_value};
ghost use Rattle.kin_pull.specs.Turns.{turn_reads};
ghost use Rattle.kin_scores.specs.Planned.{AreMadeBy, IsExposurePlanned, IsPlanned, IsRowWith};
ghost use Rattle.kin_scores.specs.Scores.{AreKept, AreShown, StandOn, entries_in, is_active};
ghost use Rattle.kin_scores.specs.Turns.{AreTurned, IsTurnedBy, KeepsRest, most_reads, turn_of};

use crate::scores::Scores;
use kin_graph::{Steps, View};
use kin_ids::{ListOf, Memory, Tag, User};
use kin_pull::{Kept, TurnPlan, enter_turn, plan_turn};
use kin_rules::exposure_rules::Exposure;
use kin_rules::rank_rules::Rank;
use kin_rules::{EpochResult, KCount, Turn, UseK, UseKs, tally};
use std::alloc::Global;
use std::sync::ledger::Ledger;

// The entries of all users, where u has other ones.
fn entries_with(
    alloc: Global,
    users: &[User],
    rows: &[UseKs],
    u: User,
    own: &[UseK],
) -> Result<Vec<UseK>, Memory>
    requires ascend { IsStrictlySortedBy user_cmp users.now }
    requires long { length rows.now ≡ length users.now }
    ensures { IfOk result (λ entries. (next : List (List UseK)) → IsRowWith users.now u own.now rows.now next
        → entries.items ≡ flat_map (λ row. row) next) }
{
    let mut entries = Vec::new(alloc);
    for i in 0..users.len() {
        if users[i].0 == u.0 {
            entries.extend_from_slice(own)?;
        } else {
            entries.extend_from_slice(rows[i].as_slice())?;
        }
    }
    Ok(entries)
}

// The entries that a plan has for its user.
fn planned_entries(plan: &TurnPlan<UseKs>) -> &[UseK]
    ensures { result.now ≡ unwrap_or (planned_value plan.now 1) [] }
{
    match plan.value(1) {
        Some(entries) => entries.as_slice(),
        None => &[],
    }
}

/// A planned turn by exposure, and the exposures of all tags after it.
#[derive(Drop)]
pub(crate) struct ExposureTurn {
    plan: TurnPlan<UseKs>,
    lists: Vec<ListOf<KCount>>,
}

// The exposures of all tags after a planned turn of u.
fn lists_after(
    alloc: Global,
    expos: &Kept<UseKs>,
    users: &[User],
    tags: &[Tag],
    u: User,
    plan: &TurnPlan<UseKs>,
) -> Result<Vec<ListOf<KCount>>, Memory>
    requires ascend { IsStrictlySortedBy user_cmp users.now }
    requires long { length (row_in expos.now 1) ≡ length users.now }
    requires tags { IsStrictlySortedBy tag_cmp tags.now }
    ensures lists { IfOk result (λ lists. AreLists tags.now lists.items) }
    ensures made { IfOk result (λ lists. AreMadeBy (IsRowWith users.now u (unwrap_or (planned_value plan.now 1) [])
        (row_in expos.now 1)) tags.now lists.items) }
{
    let own = planned_entries(plan);
    let entries = entries_with(alloc, users, expos.row(1), u, own)?;
    tally(alloc, tags, entries.as_slice())
}

// Plans the turn of a user by exposure.
fn plan_exposures<V: View, L: Ledger>(
    alloc: Global,
    expos: &Kept<UseKs>,
    users: &[User],
    tags: &[Tag],
    view: &V,
    u: User,
    steps: &mut Steps<L>,
) -> Result<Option<ExposureTurn>, Memory>
    requires kept { IsKept 1 users.now expos.now }
    requires on { On exposure_rule 1 (V.seen view.now) users.now expos.now }
    requires tags { IsStrictlySortedBy tag_cmp tags.now }
    ensures planned { IfOk result (IsExposurePlanned (V.seen view.now) users.now tags.now expos.now u) }
    ensures idle { kept.is_active users.now expos.now u ≡ false → (steps.new ≡ steps.old) × (result ≡ Ok None) }
    ensures reads { steps.new ≤ steps.old + turn_reads exposure_rule (V.seen view.now) users.now expos.now u }
{
    let Some(plan) = plan_turn(alloc, &Exposure, users, expos, view, u, steps)? else {
        return Ok(None);
    };
    let lists = lists_after(alloc, expos, users, tags, u, &plan)?;
    Ok(Some(ExposureTurn { plan, lists }))
}

// Makes a turn by rank, where one is planned. It takes no memory.
fn turn_ranks<V: View>(
    ranks: &mut Kept<u64>,
    columns: &mut EpochResult,
    view: &V,
    u: User,
    plan: Option<TurnPlan<u64>>,
)
    requires kept { IsKept 8 columns.old.users ranks.old }
    requires on { On rank_rule 8 (V.seen view.now) columns.old.users ranks.old }
    requires shown { columns.old.ranks ≡ row_in ranks.old 8 }
    requires planned { IsPlanned rank_rule 8 (V.seen view.now) columns.old.users ranks.old u plan }
    ensures kept { IsKept 8 columns.old.users ranks.new }
    ensures on { On rank_rule 8 (V.seen view.now) columns.old.users ranks.new }
    ensures turned { IsTurnedBy rank_rule 8 (V.seen view.now) columns.old.users u ranks.old ranks.new }
    ensures columns { columns.new ≡ record columns.old { ranks = row_in ranks.new 8 } }
    ensures idle { plan ≡ None → (ranks.new ≡ ranks.old) × (columns.new ≡ columns.old) }
{
    let Some(plan) = plan else {
        return;
    };
    enter_turn(&Rank, columns.users(), ranks, view, u, plan);
    columns.put_ranks(ranks.row(8));
}

// Makes a turn by exposure, where one is planned. It takes no memory.
fn turn_exposures<V: View>(
    expos: &mut Kept<UseKs>,
    columns: &mut EpochResult,
    view: &V,
    u: User,
    planned: Option<ExposureTurn>,
)
    requires kept { IsKept 1 columns.old.users expos.old }
    requires on { On exposure_rule 1 (V.seen view.now) columns.old.users expos.old }
    requires shown { AreTallies (flat_map (λ row. row) (row_in expos.old 1)) columns.old.tags columns.old.expos }
    requires planned { IsExposurePlanned (V.seen view.now) columns.old.users columns.old.tags expos.old u planned }
    ensures kept { IsKept 1 columns.old.users expos.new }
    ensures on { On exposure_rule 1 (V.seen view.now) columns.old.users expos.new }
    ensures turned { IsTurnedBy exposure_rule 1 (V.seen view.now) columns.old.users u expos.old expos.new }
    ensures shown { AreTallies (flat_map (λ row. row) (row_in expos.new 1)) columns.old.tags columns.new.expos }
    ensures rest { columns.new ≡ record columns.old { expos = columns.new.expos } }
    ensures idle { planned ≡ None → (expos.new ≡ expos.old) × (columns.new ≡ columns.old) }
{
    let Some(planned) = planned else {
        return;
    };
    enter_turn(&Exposure, columns.users(), expos, view, u, planned.plan);
    columns.put_exposures(planned.lists);
}

// What a turn answers that was planned of some rule or of none.
fn answer(planned: bool) -> Turn
    ensures { result ≡ (if planned then turn.Turned else turn.Idle) }
{
    if planned { Turn::Turned } else { Turn::Idle }
}

impl Scores {
    /// A turn of a user by both rules: each of its layers is computed again, and those of its readers become active to
    /// whom a change shows. The result shows what is kept. After Memory all is as before. It costs O(log n) for each edge
    /// into and out of the user, a copy of the ranks, and where the user is active by exposure a look at all entries.
    pub fn turn<V: View, L: Ledger>(
        &mut self,
        columns: &mut EpochResult,
        view: &V,
        u: User,
        steps: &mut Steps<L>,
    ) -> Result<Turn, Memory>
        requires kept { AreKept columns.old.users self.old }
        requires on { StandOn (V.seen view.now) columns.old.users self.old }
        requires shown { AreShown self.old columns.old }
        ensures kept { AreKept columns.old.users self.new }
        ensures on { StandOn (V.seen view.now) columns.old.users self.new }
        ensures shown { AreShown self.new columns.new }
        ensures which { IfOk result (λ t. t ≡ turn_of columns.old.users self.old u) }
        ensures turns { OnOk result (AreTurned (V.seen view.now) columns.old.users u self.old self.new) }
        ensures reads { steps.new ≤ steps.old + most_reads (V.seen view.now) columns.old.users self.old u }
        ensures rest { KeepsRest columns.old columns.new }
        ensures idle { is_active columns.old.users self.old u ≡ false → (steps.new ≡ steps.old) × (self.new ≡ self.old)
            × (columns.new ≡ columns.old) }
        ensures err { OnErr result ((self.new ≡ self.old) × (columns.new ≡ columns.old)) }
    {
        let (users, tags) = (columns.users(), columns.tags());
        let ranks = plan_turn(self.alloc, &Rank, users, &self.ranks, view, u, steps)?;
        let expos = plan_exposures(self.alloc, &self.expos, users, tags, view, u, steps)?;
        let answer = answer(ranks.is_some() || expos.is_some());
        turn_ranks(&mut self.ranks, columns, view, u, ranks);
        turn_exposures(&mut self.expos, columns, view, u, expos);
        Ok(answer)
    }
}
