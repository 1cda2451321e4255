//! Turns of users.

ghost use Rattle.std.specs.Prelude.{◌≡◌, ◌+◌, ◌<◌, ◌≤◌, ◌^◌, ◌∷◌, ℕ, Bool, true, false, List, [], Option, Some, None};
ghost use Rattle.std.specs.Prelude.{IfSome, length, map, if◌then◌else◌};
ghost use Rattle.std.specs.List.Sorted.{IsStrictlySortedBy};
ghost use Rattle.kin_ids.specs.declared.ids.User.{User};
ghost use Rattle.kin_ids.specs.Users.{has_user, user_cmp};
ghost use Rattle.kin_store.specs.Lists.{half_key};
ghost use Rattle.kin_rules.specs.declared.turns.Turn.TheVariants as turn;
ghost use Rattle.kin_rules.specs.Costs.{least_cost};
ghost use Rattle.kin_rules.specs.Walks.{AtMost};
ghost use Rattle.kin_push.specs.Facts.{On, exceeds, to_read, to_turn};
ghost use Rattle.kin_push.specs.Offers.{IsTaken, Pushed, RestedBy, Turning};
ghost use Rattle.kin_push.specs.States.{IsPushState, IsQuiet, is_active, net_in, reads_by, reads_of, state, value_in};
ghost use Rattle.kin_push.specs.Turns.{IsRun, Moved, Rested};

use crate::places::{is_active, place_of, value_of};
use crate::waves::{NoNotes, Notes};
use crate::{ActiveSet, Waves};
use kin_graph::{Halves, Steps, Users, View};
use kin_ids::User;
use kin_rules::{EdgeKind, PushRule, Turn};
use std::sync::ledger::Ledger;

// Whether an offer is below a value.
fn exceeds(had: Option<u32>, offer: u32) -> bool
    ensures { result ≡ exceeds had offer }
{
    match had {
        Some(value) => offer < value,
        None => true,
    }
}

// Notes the user at a place, where it isn't active.
fn note_new<N: Notes>(active: &ActiveSet, place: usize, notes: &mut N, user: User, value: u32)
    requires { place < length active.now }
{
    if !active.is_on(place) {
        notes.note(user, Some(value));
    }
}

// The user takes the offer where it is below its value.
fn offer<N: Notes>(
    users: &[User],
    values: &mut [Option<u32>],
    active: &mut ActiveSet,
    notes: &mut N,
    user: User,
    value: u32,
)
    requires state { IsPushState (state users.now values.old active.old) }
    requires there { has_user users.now user ≡ true }
    ensures state { IsPushState (state users.now values.new active.new) }
    ensures pushed { Pushed (user ∷ []) value (state users.now values.old active.old) (state users.now values.new active.new) }
    ensures taken { AtMost (value_in (state users.now values.new active.new) user) value }
{
    let place = place_of(users, user);
    if !exceeds(values[place], value) {
        return;
    }
    note_new(active, place, notes, user, value);
    values[place] = Some(value);
    active.mark(place);
}

// Offers a value along follow halves.
fn push_follows<N: Notes>(
    users: &[User],
    values: &mut [Option<u32>],
    active: &mut ActiveSet,
    notes: &mut N,
    halves: &Halves,
    value: u32,
)
    requires state { IsPushState (state users.now values.old active.old) }
    requires there { (x : User) → has_user (map half_key halves.now) x ≡ true → has_user users.now x ≡ true }
    ensures state { IsPushState (state users.now values.new active.new) }
    ensures pushed { Pushed (map half_key halves.now) value (state users.now values.old active.old)
        (state users.now values.new active.new) }
    ensures taken { IsTaken (map half_key halves.now) value (value_in (state users.now values.new active.new)) }
{
    for half in halves.iter() {
        offer(users, values, active, notes, half.other, value);
    }
}

// Offers a value to users that were mentioned.
fn push_mentions<N: Notes>(
    users: &[User],
    values: &mut [Option<u32>],
    active: &mut ActiveSet,
    notes: &mut N,
    ends: &Users,
    value: u32,
)
    requires state { IsPushState (state users.now values.old active.old) }
    requires there { (x : User) → has_user ends.now x ≡ true → has_user users.now x ≡ true }
    ensures state { IsPushState (state users.now values.new active.new) }
    ensures pushed { Pushed ends.now value (state users.now values.old active.old) (state users.now values.new active.new) }
    ensures taken { IsTaken ends.now value (value_in (state users.now values.new active.new)) }
{
    for end in ends.iter() {
        offer(users, values, active, notes, *end, value);
    }
}

// Offers a user's value along its edges of one kind.
fn push_kind<R: PushRule, N: Notes, V: View, L: Ledger>(
    rule: &R,
    users: &[User],
    values: &mut [Option<u32>],
    active: &mut ActiveSet,
    notes: &mut N,
    view: &V,
    u: User,
    kind: EdgeKind,
    value: u32,
    steps: &mut Steps<L>,
)
    requires state { IsPushState (state users.now values.old active.old) }
    requires on { On (R.seen rule.now) (V.seen view.now) (state users.now values.old active.old) }
    requires active { is_active (state users.now values.old active.old) u ≡ true }
    requires value { value_in (state users.now values.old active.old) u ≡ Some value }
    requires small { value ≤ 2 ^ 30 }
    ensures state { IsPushState (state users.now values.new active.new) }
    ensures turning { Turning (R.seen rule.now) (V.seen view.now) u (state users.now values.old active.old)
        (state users.now values.new active.new) }
    ensures rested { RestedBy (R.seen rule.now) (V.seen view.now) (state users.now values.new active.new) kind u }
    ensures reads { steps.new ≡ steps.old + reads_by (R.seen rule.now) (V.seen view.now) kind u }
{
    let Some(offer) = rule.along(kind, value) else {
        return;
    };
    match kind {
        EdgeKind::Follow => push_follows(users, values, active, notes, view.out(u, steps), offer),
        EdgeKind::Mention => push_mentions(
            users,
            values,
            active,
            notes,
            view.mentions(u, steps),
            offer,
        ),
    }
}

// Offers a user's value along all edges out of it.
fn push<R: PushRule, N: Notes, V: View, L: Ledger>(
    rule: &R,
    users: &[User],
    values: &mut [Option<u32>],
    active: &mut ActiveSet,
    notes: &mut N,
    view: &V,
    u: User,
    steps: &mut Steps<L>,
)
    requires state { IsPushState (state users.now values.old active.old) }
    requires on { On (R.seen rule.now) (V.seen view.now) (state users.now values.old active.old) }
    requires active { is_active (state users.now values.old active.old) u ≡ true }
    ensures state { IsPushState (state users.now values.new active.new) }
    ensures turning { Turning (R.seen rule.now) (V.seen view.now) u (state users.now values.old active.old)
        (state users.now values.new active.new) }
    ensures rested { Rested (R.seen rule.now) (V.seen view.now) (state users.now values.new active.new) u }
    ensures reads { steps.new ≤ steps.old + reads_of (R.seen rule.now) (V.seen view.now) u }
{
    let Some(value) = value_of(users, values, u) else {
        return;
    };
    push_kind(
        rule,
        users,
        values,
        active,
        notes,
        view,
        u,
        EdgeKind::Follow,
        value,
        steps,
    );
    push_kind(
        rule,
        users,
        values,
        active,
        notes,
        view,
        u,
        EdgeKind::Mention,
        value,
        steps,
    );
}

// The turn of a user who is active.
fn turn_active<R: PushRule, N: Notes, V: View, L: Ledger>(
    rule: &R,
    users: &[User],
    values: &mut [Option<u32>],
    active: &mut ActiveSet,
    notes: &mut N,
    view: &V,
    u: User,
    steps: &mut Steps<L>,
)
    requires state { IsPushState (state users.now values.old active.old) }
    requires on { On (R.seen rule.now) (V.seen view.now) (state users.now values.old active.old) }
    requires active { is_active (state users.now values.old active.old) u ≡ true }
    ensures state { IsPushState (state users.now values.new active.new) }
    ensures on { On (R.seen rule.now) (V.seen view.now) (state users.now values.new active.new) }
    ensures moved { Moved (R.seen rule.now) (V.seen view.now) u (state users.now values.old active.old)
        (state users.now values.new active.new) }
    ensures rested { Rested (R.seen rule.now) (V.seen view.now) (state users.now values.new active.new) u }
    ensures reads { steps.new + to_read (R.seen rule.now) (V.seen view.now) (state users.now values.new active.new)
        ≤ steps.old + to_read (R.seen rule.now) (V.seen view.now) (state users.now values.old active.old) }
    ensures nearer { to_turn (R.seen rule.now) (V.seen view.now) (state users.now values.new active.new)
        < to_turn (R.seen rule.now) (V.seen view.now) (state users.now values.old active.old) }
{
    push(rule, users, values, active, notes, view, u, steps);
    active.unmark(place_of(users, u));
}

/// The user offers its value to the ends of the edges out of it, and those whose value falls become active. Then it
/// isn't active, and is at rest. It takes no memory. It costs O(log n) for each edge out of the user.
pub fn make_turn<R: PushRule, V: View, L: Ledger>(
    rule: &R,
    users: &[User],
    values: &mut [Option<u32>],
    active: &mut ActiveSet,
    view: &V,
    u: User,
    steps: &mut Steps<L>,
) -> Turn
    requires state { IsPushState (state users.now values.old active.old) }
    requires on { On (R.seen rule.now) (V.seen view.now) (state users.now values.old active.old) }
    ensures state { IsPushState (state users.now values.new active.new) }
    ensures on { On (R.seen rule.now) (V.seen view.now) (state users.now values.new active.new) }
    ensures which { result ≡ (if is_active (state users.now values.old active.old) u then turn.Turned else turn.Idle) }
    ensures idle { is_active (state users.now values.old active.old) u ≡ false →
        (values.new ≡ values.old) × (active.new ≡ active.old) × (steps.new ≡ steps.old) }
    ensures moved { Moved (R.seen rule.now) (V.seen view.now) u (state users.now values.old active.old)
        (state users.now values.new active.new) }
    ensures rested { is_active (state users.now values.old active.old) u ≡ true →
        Rested (R.seen rule.now) (V.seen view.now) (state users.now values.new active.new) u }
    ensures reads { steps.new + to_read (R.seen rule.now) (V.seen view.now) (state users.now values.new active.new)
        ≤ steps.old + to_read (R.seen rule.now) (V.seen view.now) (state users.now values.old active.old) }
    ensures nearer { is_active (state users.now values.old active.old) u ≡ true →
        to_turn (R.seen rule.now) (V.seen view.now) (state users.now values.new active.new)
        < to_turn (R.seen rule.now) (V.seen view.now) (state users.now values.old active.old) }
{
    if !is_active(users, active, u) {
        return Turn::Idle;
    }
    turn_active(rule, users, values, active, &mut NoNotes, view, u, steps);
    Turn::Turned
}

// Notes the active users.
fn list_active(users: &[User], values: &[Option<u32>], active: &ActiveSet, waves: &mut Waves)
    requires valued { length values.now ≡ length users.now }
    requires marked { length active.now ≡ length users.now }
{
    waves.clear();
    let Some(first) = active.first() else {
        return;
    };
    for i in first..users.len() {
        if active.is_on(i) {
            waves.note(users[i], values[i]);
        }
    }
}

// The first of the noted users who is active, or else the least user who is.
fn next_active(users: &[User], active: &ActiveSet, waves: &mut Waves) -> Option<User>
    requires ascend { IsStrictlySortedBy user_cmp users.now }
    requires marked { length active.now ≡ length users.now }
    ensures some { IfSome result (λ u. (values : List (Option ℕ)) → is_active (state users.now values active.now) u ≡ true) }
    ensures none { result ≡ None → (values : List (Option ℕ)) → IsQuiet (state users.now values active.now) }
{
    while let Some(u) = waves.take() {
        if is_active(users, active, u) {
            return Some(u);
        }
    }
    let first = active.first()?;
    Some(users[first])
}

/// Makes turns of active users until there are none. It takes no memory. It costs as the turns that it makes, which
/// are those of the waves of offers, and O(n) in the users where some are active.
pub fn settle<R: PushRule, V: View, L: Ledger>(
    rule: &R,
    users: &[User],
    values: &mut [Option<u32>],
    active: &mut ActiveSet,
    view: &V,
    waves: &mut Waves,
    steps: &mut Steps<L>,
)
    requires state { IsPushState (state users.now values.old active.old) }
    requires on { On (R.seen rule.now) (V.seen view.now) (state users.now values.old active.old) }
    ensures state { IsPushState (state users.now values.new active.new) }
    ensures on { On (R.seen rule.now) (V.seen view.now) (state users.now values.new active.new) }
    ensures quiet { IsQuiet (state users.now values.new active.new) }
    ensures values { (u : User) → value_in (state users.now values.new active.new) u
        ≡ least_cost (net_in (R.seen rule.now) (V.seen view.now) users.now) u }
    ensures turns { IsRun (R.seen rule.now) (V.seen view.now) (state users.now values.old active.old)
        (state users.now values.new active.new) }
    ensures idle { IsQuiet (state users.now values.old active.old) →
        (values.new ≡ values.old) × (active.new ≡ active.old) × (steps.new ≡ steps.old) }
    ensures reads { steps.new + to_read (R.seen rule.now) (V.seen view.now) (state users.now values.new active.new)
        ≤ steps.old + to_read (R.seen rule.now) (V.seen view.now) (state users.now values.old active.old) }
{
    list_active(users, values, active, waves);
    while let Some(u) = next_active(users, active, waves) {
        turn_active(rule, users, values, active, waves, view, u, steps);
    }
}
