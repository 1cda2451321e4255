//! The columns of a rule of walks, one of each landmark, with the marks of those who are active: what calls of an
//! engine do to each of them.

ghost use Rattle.std.specs.Prelude.{◌≡◌, ◌<◌, ◌≤◌, ◌+◌, ◌||◌, ℕ, true, false, IfOk, IfSome, None, length, replicate};
ghost use Rattle.kin_ids.specs.declared.ids.User.{User};
ghost use Rattle.kin_ids.specs.Users.{has_user};
ghost use Rattle.kin_push.specs.Begins.{IsEntered};
ghost use Rattle.kin_push.specs.Facts.{On, to_read};
ghost use Rattle.kin_push.specs.States.{IsPushState, IsQuiet, is_active, state};
ghost use Rattle.kin_rules.specs.Columns.{column_of, columns_of};
ghost use Rattle.kin_mine.specs.Lanes.{AreAllDone, IsSettled, IsTurned, lane, lanes, owed_in};
ghost use Rattle.kin_mine.specs.Marks.{AreOn, AreStates, IsFirstPlace, are_quiet, is_marked, lesser_of, rule_of};

use crate::walk_rules::{Distance, WalkRule};
use kin_graph::{Steps, View};
use kin_ids::{Memory, User};
use kin_push::{ActiveSet, Waves, enter, make_turn, settle};
use kin_rules::Turn;
use kin_rules::columns::Column;
use std::alloc::Global;
use std::sync::ledger::Ledger;

// A turn of u in the column of a landmark. Whether u was active in it.
fn turn_lane<V: View, L: Ledger>(
    distance: Distance,
    landmark: User,
    users: &[User],
    column: &mut Column,
    marks: &mut ActiveSet,
    view: &V,
    u: User,
    steps: &mut Steps<L>,
) -> bool
    requires state { IsPushState (state users.now (column_of column.old).values marks.old) }
    requires on { On (rule_of distance landmark) (V.seen view.now) (state users.now
        (column_of column.old).values marks.old) }
    ensures state { IsPushState (state users.now (column_of column.new).values marks.new) }
    ensures on { On (rule_of distance landmark) (V.seen view.now) (state users.now
        (column_of column.new).values marks.new) }
    ensures turned { IsTurned (rule_of distance landmark) (V.seen view.now) u
        (state users.now (column_of column.old).values marks.old) (state users.now
        (column_of column.new).values marks.new) }
    ensures others { (column_of column.new).others ≡ (column_of column.old).others }
    ensures active { result ≡ is_active (state users.now (column_of column.old).values marks.old) u }
    ensures idle { is_active (state users.now (column_of column.old).values marks.old) u ≡ false →
        (column_of column.new ≡ column_of column.old) × (marks.new ≡ marks.old) × (steps.new ≡ steps.old) }
    ensures reads { steps.new + to_read (rule_of distance landmark) (V.seen view.now) (state users.now
        (column_of column.new).values marks.new)
        ≤ steps.old + to_read (rule_of distance landmark) (V.seen view.now) (state users.now
        (column_of column.old).values marks.old) }
{
    let rule = WalkRule { distance, landmark };
    let values = column.values.as_mut_slice();
    make_turn(&rule, users, values, marks, view, u, steps) == Turn::Turned
}

/// Whether one of them is true.
pub(crate) fn either(a: bool, b: bool) -> bool
    ensures { result ≡ (a || b) }
{
    a || b
}

// A turn of u in each column. Whether u was active in some of them. It takes no memory.
fn turn_slices<V: View, L: Ledger>(
    distance: Distance,
    landmarks: &[User],
    users: &[User],
    columns: &mut [Column],
    marks: &mut [ActiveSet],
    view: &V,
    u: User,
    steps: &mut Steps<L>,
) -> bool
    requires on { AreOn distance (V.seen view.now) landmarks.now users.now (columns_of columns.old) marks.old }
    ensures on { AreOn distance (V.seen view.now) landmarks.now users.now (columns_of columns.new) marks.new }
    ensures each { AreAllDone (λ l. IsTurned (rule_of distance l) (V.seen view.now) u) landmarks.now users.now
        (lanes (columns_of columns.old) marks.old) (lanes (columns_of columns.new) marks.new) }
    ensures active { result ≡ is_marked users.now marks.old u }
    ensures idle { is_marked users.now marks.old u ≡ false →
        (columns_of columns.new ≡ columns_of columns.old) × (marks.new ≡ marks.old) × (steps.new ≡ steps.old) }
    ensures reads { steps.new + owed_in distance (V.seen view.now) landmarks.now users.now (lanes
        (columns_of columns.new) marks.new) (length landmarks.now)
        ≤ steps.old + owed_in distance (V.seen view.now) landmarks.now users.now (lanes
        (columns_of columns.old) marks.old) (length landmarks.now) }
{
    let mut turned = false;
    for i in 0..landmarks.len() {
        let one = turn_lane(
            distance,
            landmarks[i],
            users,
            &mut columns[i],
            &mut marks[i],
            view,
            u,
            steps,
        );
        turned = either(turned, one);
    }
    turned
}

/// A turn of u in each column. Whether u was active in some of them. It takes no memory.
pub(crate) fn turn_lanes<V: View, L: Ledger>(
    distance: Distance,
    landmarks: &[User],
    users: &[User],
    columns: &mut Vec<Column>,
    marks: &mut Vec<ActiveSet>,
    view: &V,
    u: User,
    steps: &mut Steps<L>,
) -> bool
    requires on { AreOn distance (V.seen view.now) landmarks.now users.now
        (columns_of columns.old.items) marks.old.items }
    ensures on { AreOn distance (V.seen view.now) landmarks.now users.now
        (columns_of columns.new.items) marks.new.items }
    ensures each { AreAllDone (λ l. IsTurned (rule_of distance l) (V.seen view.now) u) landmarks.now users.now
        (lanes (columns_of columns.old.items) marks.old.items) (lanes (columns_of columns.new.items) marks.new.items) }
    ensures active { result ≡ is_marked users.now marks.old.items u }
    ensures idle { is_marked users.now marks.old.items u ≡ false →
        (columns_of columns.new.items ≡ columns_of columns.old.items) × (marks.new.items ≡ marks.old.items)
        × (steps.new ≡ steps.old) }
    ensures reads { steps.new + owed_in distance (V.seen view.now) landmarks.now users.now (lanes
        (columns_of columns.new.items) marks.new.items) (length landmarks.now)
        ≤ steps.old + owed_in distance (V.seen view.now) landmarks.now users.now (lanes
        (columns_of columns.old.items) marks.old.items) (length landmarks.now) }
{
    let columns = columns.as_mut_slice();
    let marks = marks.as_mut_slice();
    turn_slices(distance, landmarks, users, columns, marks, view, u, steps)
}

// Settles the column of a landmark.
fn settle_lane<V: View, L: Ledger>(
    distance: Distance,
    landmark: User,
    users: &[User],
    column: &mut Column,
    marks: &mut ActiveSet,
    view: &V,
    waves: &mut Waves,
    steps: &mut Steps<L>,
)
    requires state { IsPushState (state users.now (column_of column.old).values marks.old) }
    requires on { On (rule_of distance landmark) (V.seen view.now) (state users.now
        (column_of column.old).values marks.old) }
    ensures state { IsPushState (state users.now (column_of column.new).values marks.new) }
    ensures on { On (rule_of distance landmark) (V.seen view.now) (state users.now
        (column_of column.new).values marks.new) }
    ensures settled { IsSettled (rule_of distance landmark) (V.seen view.now)
        (state users.now (column_of column.old).values marks.old) (state users.now
        (column_of column.new).values marks.new) }
    ensures others { (column_of column.new).others ≡ (column_of column.old).others }
    ensures idle { IsQuiet (state users.now (column_of column.old).values marks.old) →
        (column_of column.new ≡ column_of column.old) × (marks.new ≡ marks.old) × (steps.new ≡ steps.old) }
    ensures reads { steps.new + to_read (rule_of distance landmark) (V.seen view.now) (state users.now
        (column_of column.new).values marks.new)
        ≤ steps.old + to_read (rule_of distance landmark) (V.seen view.now) (state users.now
        (column_of column.old).values marks.old) }
{
    let rule = WalkRule { distance, landmark };
    let values = column.values.as_mut_slice();
    settle(&rule, users, values, marks, view, waves, steps);
}

// Settles each column. It takes no memory.
fn settle_slices<V: View, L: Ledger>(
    distance: Distance,
    landmarks: &[User],
    users: &[User],
    columns: &mut [Column],
    marks: &mut [ActiveSet],
    view: &V,
    waves: &mut Waves,
    steps: &mut Steps<L>,
)
    requires on { AreOn distance (V.seen view.now) landmarks.now users.now (columns_of columns.old) marks.old }
    ensures on { AreOn distance (V.seen view.now) landmarks.now users.now (columns_of columns.new) marks.new }
    ensures each { AreAllDone (λ l. IsSettled (rule_of distance l) (V.seen view.now)) landmarks.now users.now
        (lanes (columns_of columns.old) marks.old) (lanes (columns_of columns.new) marks.new) }
    ensures quiet { are_quiet marks.new }
    ensures idle { are_quiet marks.old →
        (columns_of columns.new ≡ columns_of columns.old) × (marks.new ≡ marks.old) × (steps.new ≡ steps.old) }
    ensures reads { steps.new + owed_in distance (V.seen view.now) landmarks.now users.now (lanes
        (columns_of columns.new) marks.new) (length landmarks.now)
        ≤ steps.old + owed_in distance (V.seen view.now) landmarks.now users.now (lanes
        (columns_of columns.old) marks.old) (length landmarks.now) }
{
    for i in 0..landmarks.len() {
        settle_lane(
            distance,
            landmarks[i],
            users,
            &mut columns[i],
            &mut marks[i],
            view,
            waves,
            steps,
        );
    }
}

/// Settles each column. It takes no memory.
pub(crate) fn settle_lanes<V: View, L: Ledger>(
    distance: Distance,
    landmarks: &[User],
    users: &[User],
    columns: &mut Vec<Column>,
    marks: &mut Vec<ActiveSet>,
    view: &V,
    waves: &mut Waves,
    steps: &mut Steps<L>,
)
    requires on { AreOn distance (V.seen view.now) landmarks.now users.now
        (columns_of columns.old.items) marks.old.items }
    ensures on { AreOn distance (V.seen view.now) landmarks.now users.now
        (columns_of columns.new.items) marks.new.items }
    ensures each { AreAllDone (λ l. IsSettled (rule_of distance l) (V.seen view.now)) landmarks.now users.now
        (lanes (columns_of columns.old.items) marks.old.items) (lanes (columns_of columns.new.items) marks.new.items) }
    ensures quiet { are_quiet marks.new.items }
    ensures idle { are_quiet marks.old.items →
        (columns_of columns.new.items ≡ columns_of columns.old.items) × (marks.new.items ≡ marks.old.items)
        × (steps.new ≡ steps.old) }
    ensures reads { steps.new + owed_in distance (V.seen view.now) landmarks.now users.now (lanes
        (columns_of columns.new.items) marks.new.items) (length landmarks.now)
        ≤ steps.old + owed_in distance (V.seen view.now) landmarks.now users.now (lanes
        (columns_of columns.old.items) marks.old.items) (length landmarks.now) }
{
    let columns = columns.as_mut_slice();
    let marks = marks.as_mut_slice();
    settle_slices(
        distance, landmarks, users, columns, marks, view, waves, steps,
    );
}

// Begins an epoch in the column of a landmark.
fn enter_lane(
    distance: Distance,
    landmark: User,
    users: &[User],
    column: &mut Column,
    marks: &mut ActiveSet,
    starts: &[User],
)
    requires state { IsPushState (state users.now (column_of column.old).values marks.old) }
    requires quiet { IsQuiet (state users.now (column_of column.old).values marks.old) }
    requires within { (u : User) → has_user starts.now u ≡ true → has_user users.now u ≡ true }
    ensures state { IsPushState (state users.now (column_of column.new).values marks.new) }
    ensures entered { IsEntered (rule_of distance landmark) starts.now
        (state users.now (column_of column.old).values marks.old) (state users.now
        (column_of column.new).values marks.new) }
    ensures others { (column_of column.new).others ≡ (column_of column.old).others }
{
    let rule = WalkRule { distance, landmark };
    let values = column.values.as_mut_slice();
    enter(&rule, users, values, marks, starts);
}

// Begins an epoch in each column. It takes no memory.
fn enter_slices(
    distance: Distance,
    landmarks: &[User],
    users: &[User],
    columns: &mut [Column],
    marks: &mut [ActiveSet],
    starts: &[User],
)
    requires states { AreStates landmarks.now users.now (columns_of columns.old) marks.old }
    requires quiet { are_quiet marks.old }
    requires within { (u : User) → has_user starts.now u ≡ true → has_user users.now u ≡ true }
    ensures states { AreStates landmarks.now users.now (columns_of columns.new) marks.new }
    ensures each { AreAllDone (λ l. IsEntered (rule_of distance l) starts.now) landmarks.now users.now
        (lanes (columns_of columns.old) marks.old) (lanes (columns_of columns.new) marks.new) }
{
    for i in 0..landmarks.len() {
        enter_lane(
            distance,
            landmarks[i],
            users,
            &mut columns[i],
            &mut marks[i],
            starts,
        );
    }
}

/// Begins an epoch in each column. It takes no memory.
pub(crate) fn enter_lanes(
    distance: Distance,
    landmarks: &[User],
    users: &[User],
    columns: &mut Vec<Column>,
    marks: &mut Vec<ActiveSet>,
    starts: &[User],
)
    requires states { AreStates landmarks.now users.now (columns_of columns.old.items) marks.old.items }
    requires quiet { are_quiet marks.old.items }
    requires within { (u : User) → has_user starts.now u ≡ true → has_user users.now u ≡ true }
    ensures states { AreStates landmarks.now users.now (columns_of columns.new.items) marks.new.items }
    ensures each { AreAllDone (λ l. IsEntered (rule_of distance l) starts.now) landmarks.now users.now
        (lanes (columns_of columns.old.items) marks.old.items) (lanes (columns_of columns.new.items) marks.new.items) }
{
    let columns = columns.as_mut_slice();
    let marks = marks.as_mut_slice();
    enter_slices(distance, landmarks, users, columns, marks, starts);
}

/// The lesser of two places that may be there.
pub(crate) fn lesser(a: Option<usize>, b: Option<usize>) -> Option<usize>
    ensures { result ≡ lesser_of a b }
{
    match (a, b) {
        (Some(i), Some(j)) => Some(if i < j { i } else { j }),
        (Some(i), None) => Some(i),
        (None, _) => b,
    }
}

/// The first place that is marked in some column.
pub(crate) fn first_of(marks: &[ActiveSet]) -> Option<usize>
    ensures none { result ≡ None → are_quiet marks.now }
    ensures some { IfSome result (λ i. IsFirstPlace marks.now i) }
{
    let mut first = None;
    for on in marks {
        first = lesser(first, on.first());
    }
    first
}

/// So many columns' marks of so many users, of whom nobody is active.
pub(crate) fn no_marks(
    alloc: Global,
    columns: usize,
    users: usize,
) -> Result<Vec<ActiveSet>, Memory>
    ensures { IfOk result (λ v. v.items ≡ replicate columns (replicate users false)) }
{
    let mut marks = Vec::with_capacity(alloc, columns)?;
    for _column in 0..columns {
        marks.push(ActiveSet::none(alloc, users)?)?;
    }
    Ok(marks)
}
