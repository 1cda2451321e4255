//! The lines of the rules that give each user a number.

ghost use Rattle.std.specs.Prelude.{◌≡◌, ◌++◌, ◌∷◌, [], IfOk, OnOk};
ghost use Rattle.kin_rules.specs.Results.{number_in};
ghost use Rattle.kin_rules.specs.Top.{numbered_users};
ghost use Rattle.kin_report.specs.Text.{text_of};
ghost use Rattle.kin_report.specs.Block.{chosen, user_lines};
ghost use Rattle.kin_report.specs.Written.{result_numbers};

use crate::words::{Word, push_line};
use kin_ids::{Memory, User};
use kin_rules::{EpochResult, Num, UserNumber, top_users};
use std::alloc::Global;

fn number_of(values: &EpochResult, which: Num, user: User) -> u64
    ensures { result ≡ number_in values.now which user }
{
    match which {
        Num::In => values.in_of(user),
        Num::Out => values.out_of(user),
        Num::Said => values.said_of(user),
        Num::Rank => values.rank_of(user),
    }
}

fn numbered(alloc: Global, values: &EpochResult, which: Num) -> Result<Vec<UserNumber>, Memory>
    ensures { IfOk result (λ list. list.items ≡ numbered_users (number_in values.now which) values.now.users) }
{
    let users = values.users();
    let mut list = Vec::with_capacity(alloc, users.len())?;
    for user in users {
        let number = number_of(values, which, *user);
        list.push(UserNumber {
            user: *user,
            number,
        })?;
    }
    Ok(list)
}

fn push_entries(text: &mut Vec<u8>, name: &[u8], entries: &[UserNumber]) -> Result<(), Memory>
    ensures { OnOk result (text.new.items ≡ text.old.items ++ text_of (user_lines (name.now ∷ []) entries.now)) }
{
    for entry in entries {
        let words = [
            Word::Number(u64::from(entry.user.0)),
            Word::Number(entry.number),
        ];
        push_line(text, name, words.as_slice())?;
    }
    Ok(())
}

/// Appends the top list of a number of the users, where it is wanted. It costs O(n log n) in the users.
pub(crate) fn push_numbers(
    alloc: Global,
    text: &mut Vec<u8>,
    values: &EpochResult,
    top: u64,
    wanted: bool,
    name: &[u8],
    which: Num,
) -> Result<(), Memory>
    ensures { OnOk result (text.new.items ≡ text.old.items ++ text_of (chosen wanted (result_numbers values.now top name.now which))) }
{
    if !wanted {
        return Ok(());
    }
    let all = numbered(alloc, values, which)?;
    let entries = top_users(alloc, all.as_slice(), top)?;
    push_entries(text, name, entries.as_slice())
}
