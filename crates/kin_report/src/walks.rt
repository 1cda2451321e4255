//! The lines of hops and closeness.

ghost use Rattle.std.specs.Prelude.{◌≡◌, ◌++◌, ◌∷◌, [], IfOk, OnOk, codes};
ghost use Rattle.std.specs.Fmt.{decimal};
ghost use Rattle.kin_rules.specs.Top as tops;
ghost use Rattle.kin_report.specs.Text.{text_of};
ghost use Rattle.kin_report.specs.Block.{chosen, user_lines, valued_users};
ghost use Rattle.kin_report.specs.Written.{entry_name, head_of, result_walk, result_walks, value_in};

use crate::words::{Word, push_line};
use kin_ids::{Memory, User};
use kin_rules::{EpochResult, UserNumber, top_users};
use std::alloc::Global;

/// A rule of walks from a landmark.
#[derive(Clone, Copy, Debug)]
pub(crate) enum Walk {
    Hops,
    Close,
}

fn head_name(kind: Walk) -> &'static [u8]
    ensures { result.now ≡ head_of kind }
{
    match kind {
        Walk::Hops => b"hops",
        Walk::Close => b"close",
    }
}

fn line_name(kind: Walk) -> &'static [u8]
    ensures { result.now ≡ entry_name kind }
{
    match kind {
        Walk::Hops => b"hop",
        Walk::Close => b"cost",
    }
}

fn value_of(values: &EpochResult, kind: Walk, number: usize, user: User) -> Option<u32>
    ensures { result ≡ value_in values.now kind number user }
{
    match kind {
        Walk::Hops => values.hops_of(number, user),
        Walk::Close => values.close_of(number, user),
    }
}

// The users that have a value from the landmark of this number, each with it.
fn valued(
    alloc: Global,
    values: &EpochResult,
    kind: Walk,
    number: usize,
) -> Result<Vec<UserNumber>, Memory>
    ensures { IfOk result (λ list. list.items ≡ valued_users (value_in values.now kind number) values.now.users) }
{
    let users = values.users();
    let mut list = Vec::new(alloc);
    for user in users {
        if let Some(value) = value_of(values, kind, number, *user) {
            list.push(UserNumber {
                user: *user,
                number: u64::from(value),
            })?;
        }
    }
    Ok(list)
}

fn push_entries(
    text: &mut Vec<u8>,
    name: &[u8],
    landmark: User,
    entries: &[UserNumber],
) -> Result<(), Memory>
    ensures { OnOk result (text.new.items ≡ text.old.items ++ text_of (user_lines (name.now ∷ decimal landmark.0 ∷ []) entries.now)) }
{
    for entry in entries {
        let words = [
            Word::Number(u64::from(landmark.0)),
            Word::Number(u64::from(entry.user.0)),
            Word::Number(entry.number),
        ];
        push_line(text, name, words.as_slice())?;
    }
    Ok(())
}

// How many users have a value from the landmark of this number, and the top list of the values.
fn push_walk(
    alloc: Global,
    text: &mut Vec<u8>,
    values: &EpochResult,
    top: u64,
    kind: Walk,
    number: usize,
    landmark: User,
) -> Result<(), Memory>
    ensures { OnOk result (text.new.items ≡ text.old.items ++ text_of (result_walk values.now top kind number landmark)) }
{
    let all = valued(alloc, values, kind, number)?;
    let words = [
        Word::Number(u64::from(landmark.0)),
        Word::Number(all.len() as u64),
    ];
    push_line(text, head_name(kind), words.as_slice())?;
    let entries = top_users(alloc, all.as_slice(), top)?;
    push_entries(text, line_name(kind), landmark, entries.as_slice())
}

// Appends the lines of a rule of walks, landmark by landmark.
#[tactic(auto, using(crate::proofs::Results::walks_step))]
fn push_landmarks(
    alloc: Global,
    text: &mut Vec<u8>,
    values: &EpochResult,
    top: u64,
    kind: Walk,
    landmarks: &[User],
) -> Result<(), Memory>
    ensures { OnOk result (text.new.items ≡ text.old.items ++ text_of (result_walks values.now top kind 0 landmarks.now)) }
{
    for (number, landmark) in landmarks.iter().enumerate() {
        push_walk(alloc, text, values, top, kind, number, *landmark)?;
    }
    Ok(())
}

/// Appends the lines of a rule of walks, where they are wanted. It costs O(n log n) in the users for each landmark.
pub(crate) fn push_walks(
    alloc: Global,
    text: &mut Vec<u8>,
    values: &EpochResult,
    top: u64,
    wanted: bool,
    kind: Walk,
    landmarks: &[User],
) -> Result<(), Memory>
    ensures { OnOk result (text.new.items ≡ text.old.items ++ text_of (chosen wanted (result_walks values.now top kind 0 landmarks.now))) }
{
    if !wanted {
        return Ok(());
    }
    push_landmarks(alloc, text, values, top, kind, landmarks)
}
