//! One rule's engine: a rule and its state.

ghost use Rattle.std.specs.Prelude.{◌≡◌, ◌<◌, ◌≤◌, ◌+◌, ◌||◌, ℕ, true, false, [], Option, None, Ok, IfOk, IfSome};
ghost use Rattle.std.specs.Prelude.{IsOk, OnErr, OnOk, if◌then◌else◌};
ghost use Rattle.std.specs.List.Sorted.{IsStrictlySortedBy};
ghost use Rattle.std.specs.Option.{option_map};
ghost use Rattle.kin_ids.specs.declared.ids.User.{User};
ghost use Rattle.kin_ids.specs.Parts.{PartView};
ghost use Rattle.kin_ids.specs.Users.{has_user, user_cmp};
ghost use Rattle.kin_graph.specs.Views.{AreVertices, IsSmall};
ghost use Rattle.kin_changes.specs.Told.{are_told};
ghost use Rattle.kin_changes.specs.Views.{AreLed};
ghost use Rattle.kin_rules.specs.declared.turns.Turn.TheVariants as turn;
ghost use Rattle.kin_rules.specs.Costs.{least_cost};
ghost use Rattle.kin_push.specs.Begins.{Begins, IsEntered};
ghost use Rattle.kin_push.specs.Engines.{IsFit, IsLeastActive, IsPlan, IsSettled, IsTurnOf, IsWide, columns_of};
ghost use Rattle.kin_push.specs.Engines.{widened};
ghost use Rattle.kin_push.specs.Facts.{On, to_read, to_turn};
ghost use Rattle.kin_push.specs.States.{IsPushState, IsQuiet, is_active, net_in, state, value_in};
ghost use Rattle.kin_push.specs.Turns.{IsRun, Moved, Rested};

use crate::{ActiveSet, Waves, begins, places, turns};
use kin_changes::next_users;
use kin_graph::{Delta, Steps, View};
use kin_ids::{Memory, User};
use kin_rules::{PushRule, Turn};
use std::alloc::Global;
use std::marker::Model;
use std::sync::ledger::Ledger;

/// Of each user, ascending, a value or none, and whether it is active; and room for the waves of turns.
#[derive(Drop)]
pub(crate) struct Columns {
    pub(crate) users: Vec<User>,
    pub(crate) values: Vec<Option<u32>>,
    pub(crate) active: ActiveSet,
    pub(crate) waves: Waves,
}

/// A rule and its state. Its users are the vertices of the view to which the last `begin` led, nobody at first.
#[derive(Drop)]
pub struct PushEngine<R: PushRule + Drop> {
    alloc: Global,
    rule: R,
    columns: Columns,
}

impl<R: PushRule + Drop> Model for PushEngine<R> {
    ghost use Rattle.kin_push.specs.Engines.{Engine, columns_of};
    ghost use Rattle.kin_push.specs.States.{IsPushState};

    ghost Value = { Engine R };

    ghost view = { λ a. record { rule = a.rule; state = columns_of a.columns } };

    ghost invariant = { λ a. IsPushState (columns_of a.columns) };
}

/// What an engine begins its next epoch with: wider columns, where somebody is new, and who starts.
#[derive(Drop)]
pub struct Plan {
    wide: Option<Columns>,
    starts: Vec<User>,
}

impl Model for Plan {
    ghost use Rattle.std.specs.Option.{option_map};
    ghost use Rattle.kin_push.specs.Engines.{Planned, columns_of};

    ghost Value = { Planned };

    ghost view = { λ a. record { wide = option_map columns_of a.wide; starts = a.starts.items } };
}

// A turn of a user.
fn turn_in<R: PushRule, V: View, L: Ledger>(
    rule: &R,
    columns: &mut Columns,
    view: &V,
    u: User,
    steps: &mut Steps<L>,
) -> Turn
    requires is_state { IsPushState (columns_of columns.old) }
    requires on { On (R.seen rule.now) (V.seen view.now) (columns_of columns.old) }
    ensures is_state { IsPushState (columns_of columns.new) }
    ensures which { result ≡ (if is_active (columns_of columns.old) u then turn.Turned else turn.Idle) }
    ensures idle { is_active (columns_of columns.old) u ≡ false →
        (columns_of columns.new ≡ columns_of columns.old) × (steps.new ≡ steps.old) }
    ensures of { IsTurnOf (R.seen rule.now) (V.seen view.now) u steps.old steps.new (columns_of columns.old) (columns_of columns.new) }
{
    turns::make_turn(
        rule,
        columns.users.as_slice(),
        columns.values.as_mut_slice(),
        &mut columns.active,
        view,
        u,
        steps,
    )
}

// Turns until nobody is active.
fn settle_in<R: PushRule, V: View, L: Ledger>(
    rule: &R,
    columns: &mut Columns,
    view: &V,
    steps: &mut Steps<L>,
)
    requires is_state { IsPushState (columns_of columns.old) }
    requires on { On (R.seen rule.now) (V.seen view.now) (columns_of columns.old) }
    ensures is_state { IsPushState (columns_of columns.new) }
    ensures settled { IsSettled (R.seen rule.now) (V.seen view.now) steps.old steps.new (columns_of columns.old) (columns_of columns.new) }
{
    turns::settle(
        rule,
        columns.users.as_slice(),
        columns.values.as_mut_slice(),
        &mut columns.active,
        view,
        &mut columns.waves,
        steps,
    );
}

// The columns of more users, of whom nobody is active.
fn wider(alloc: Global, columns: &Columns, users: Vec<User>) -> Result<Columns, Memory>
    requires is_state { IsPushState (columns_of columns.now) }
    requires ascend { IsStrictlySortedBy user_cmp users.items }
    requires all { (u : User) → has_user columns.now.users.items u ≡ true → has_user users.items u ≡ true }
    ensures is_state { IfOk result (λ w. IsPushState (columns_of w)) }
    ensures users { IfOk result (λ w. w.users.items ≡ users.items) }
    ensures quiet { IfOk result (λ w. IsQuiet (columns_of w)) }
    ensures values { IfOk result (λ w. (u : User) → value_in (columns_of w) u ≡ value_in (columns_of columns.now) u) }
{
    let values = begins::widened(
        alloc,
        columns.users.as_slice(),
        columns.values.as_slice(),
        users.as_slice(),
    )?;
    let active = ActiveSet::none(alloc, users.len())?;
    let waves = Waves::with_room(alloc, users.len())?;
    Ok(Columns {
        users,
        values,
        active,
        waves,
    })
}

// The columns of the next epoch's users, where somebody is new.
fn wide_of(alloc: Global, columns: &Columns, deltas: &[Delta]) -> Result<Option<Columns>, Memory>
    requires { IsPushState (columns_of columns.now) }
    ensures { IfOk result (λ w. IsWide deltas.now (columns_of columns.now) (widened (columns_of columns.now) (option_map columns_of w))) }
{
    match next_users(alloc, columns.users.as_slice(), deltas)? {
        Some(users) => Ok(Some(wider(alloc, columns, users)?)),
        None => Ok(None),
    }
}

// The wider columns take the place of these, where there are some.
fn take_wide(columns: &mut Columns, wide: Option<Columns>)
    ensures { columns_of columns.new ≡ widened (columns_of columns.old) (option_map columns_of wide) }
{
    if let Some(wide) = wide {
        *columns = wide;
    }
}

// Who starts is active, and so is the landmark where it is new.
fn enter_in<R: PushRule>(rule: &R, columns: &mut Columns, starts: &[User])
    requires is_state { IsPushState (columns_of columns.old) }
    requires quiet { IsQuiet (columns_of columns.old) }
    requires within { (u : User) → has_user starts.now u ≡ true → has_user columns.old.users.items u ≡ true }
    ensures is_state { IsPushState (columns_of columns.new) }
    ensures entered { IsEntered (R.seen rule.now) starts.now (columns_of columns.old) (columns_of columns.new) }
{
    begins::enter(
        rule,
        columns.users.as_slice(),
        columns.values.as_mut_slice(),
        &mut columns.active,
        starts,
    );
}

// An engine without users.
fn no_columns(alloc: Global) -> Result<Columns, Memory>
    ensures { IfOk result (λ c. columns_of c ≡ state [] [] []) }
{
    let active = ActiveSet::none(alloc, 0)?;
    let waves = Waves::with_room(alloc, 0)?;
    Ok(Columns {
        users: Vec::new(alloc),
        values: Vec::new(alloc),
        active,
        waves,
    })
}

// The value of a user.
fn value_in_columns(columns: &Columns, u: User) -> Option<u32>
    requires { IsPushState (columns_of columns.now) }
    ensures { result ≡ value_in (columns_of columns.now) u }
{
    places::value_of(columns.users.as_slice(), columns.values.as_slice(), u)
}

// Whether a user is active.
fn is_active_in_columns(columns: &Columns, u: User) -> bool
    requires { IsPushState (columns_of columns.now) }
    ensures { result ≡ is_active (columns_of columns.now) u }
{
    places::is_active(columns.users.as_slice(), &columns.active, u)
}

// The least of the active users.
fn least_in_columns(columns: &Columns) -> Option<User>
    requires { IsPushState (columns_of columns.now) }
    ensures some { IfSome result (IsLeastActive (columns_of columns.now)) }
    ensures none { result ≡ None → IsQuiet (columns_of columns.now) }
{
    let first = columns.active.first()?;
    Some(columns.users[first])
}

impl<R: PushRule + Drop> PushEngine<R> {
    /// An engine without users.
    pub fn new(alloc: Global, rule: R) -> Result<PushEngine<R>, Memory>
        ensures { IfOk result (λ e. (e.rule ≡ rule) × (e.state ≡ state [] [] [])) }
    {
        let columns = no_columns(alloc)?;
        Ok(PushEngine {
            alloc,
            rule,
            columns,
        })
    }

    /// Its rule.
    pub fn rule(&self) -> &R
        ensures { result.now ≡ self.now.rule }
    {
        &self.rule
    }

    /// The value of a user. O(log n).
    pub fn value_of(&self, u: User) -> Option<u32>
        ensures { result ≡ value_in self.now.state u }
    {
        value_in_columns(&self.columns, u)
    }

    /// Whether a user is active. O(log n).
    pub fn is_active(&self, u: User) -> bool
        ensures { result ≡ is_active self.now.state u }
    {
        is_active_in_columns(&self.columns, u)
    }

    /// The least of the active users, where there are some. It looks at each block of 256 users, and at the users of
    /// one.
    pub fn least_active(&self) -> Option<User>
        ensures some { IfSome result (IsLeastActive self.now.state) }
        ensures none { result ≡ None → IsQuiet self.now.state }
    {
        least_in_columns(&self.columns)
    }

    /// What deltas that lead to the next epoch make of the engine. It takes all memory that the epoch's beginning
    /// wants, and changes nothing. O(d log d) in what the deltas tell, and O(n) in the users where some are new.
    pub fn plan(&self, deltas: &[Delta]) -> Result<Plan, Memory>
        ensures { IfOk result (IsPlan (R.seen self.now.rule) deltas.now self.now.state) }
    {
        let starts = begins::starts(self.alloc, &self.rule, deltas)?;
        let wide = wide_of(self.alloc, &self.columns, deltas)?;
        Ok(Plan { wide, starts })
    }

    /// Begins the epoch that was planned. It takes no memory. O(log n) for each start.
    pub fn enter(&mut self, plan: Plan)
        requires { IsFit self.old.state plan }
        ensures rule { self.new.rule ≡ self.old.rule }
        ensures entered { IsEntered (R.seen self.old.rule) plan.starts (widened self.old.state plan.wide) self.new.state }
    {
        let Plan { wide, starts } = plan;
        take_wide(&mut self.columns, wide);
        enter_in(&self.rule, &mut self.columns, starts.as_slice());
    }

    /// Begins the epoch to which the deltas lead, on the vertices of its view. It costs as `plan` and `enter`.
    pub fn begin(&mut self, deltas: &[Delta]) -> Result<(), Memory>
        requires { IsQuiet self.old.state }
        ensures rule { self.new.rule ≡ self.old.rule }
        ensures err { OnErr result (self.new ≡ self.old) }
        ensures begins { OnOk result ((was is : PartView) → AreLed was is deltas.now → AreVertices was self.old.state.users
            → IsSmall is → On (R.seen self.old.rule) was self.old.state
            → Begins (R.seen self.old.rule) is deltas.now self.old.state self.new.state × AreVertices is self.new.state.users) }
    {
        let plan = self.plan(deltas)?;
        self.enter(plan);
        Ok(())
    }

    /// A turn of a user: see `make_turn`. It takes no memory.
    pub fn turn<V: View, L: Ledger>(
        &mut self,
        view: &V,
        u: User,
        steps: &mut Steps<L>,
    ) -> Result<Turn, Memory>
        requires { On (R.seen self.old.rule) (V.seen view.now) self.old.state }
        ensures rule { self.new.rule ≡ self.old.rule }
        ensures which { result ≡ Ok (if is_active self.old.state u then turn.Turned else turn.Idle) }
        ensures idle { is_active self.old.state u ≡ false → (self.new ≡ self.old) × (steps.new ≡ steps.old) }
        ensures of { IsTurnOf (R.seen self.old.rule) (V.seen view.now) u steps.old steps.new self.old.state self.new.state }
    {
        Ok(turn_in(&self.rule, &mut self.columns, view, u, steps))
    }

    /// Turns of active users until there are none: see `settle`. It takes no memory.
    pub fn settle<V: View, L: Ledger>(
        &mut self,
        view: &V,
        steps: &mut Steps<L>,
    ) -> Result<(), Memory>
        requires { On (R.seen self.old.rule) (V.seen view.now) self.old.state }
        ensures ok { IsOk result }
        ensures rule { self.new.rule ≡ self.old.rule }
        ensures settled { IsSettled (R.seen self.old.rule) (V.seen view.now) steps.old steps.new self.old.state self.new.state }
    {
        settle_in(&self.rule, &mut self.columns, view, steps);
        Ok(())
    }
}
