//! Lines of records, written draw by draw.

ghost use Rattle.std.specs.Prelude.{◌≡◌, ◌++◌, ◌<◌, ◌≤◌, OnOk};
ghost use Rattle.kin_gen.specs.Draws.{past};
ghost use Rattle.kin_gen.specs.Feeds as feeds;

use crate::draws::next;
use kin_ids::Memory;
use kin_line::push_u64;
use rand_xoshiro::Xoshiro256PlusPlus;

// How many items a tweet has at most, and how many tags there are.
const ITEMS: u64 = 3;

const TAGS: u64 = 50;

// The other user of an edge, which isn't the user itself.
fn other(users: u64, user: u64, word: u64) -> u64
    requires { 2 ≤ users }
    ensures { result ≡ feeds.other users user word }
{
    let place = word % (users - 1);
    if place < user { place } else { place + 1 }
}

// Appends an edge after the letter of its kind and a comma.
fn push_edge(
    text: &mut Vec<u8>,
    kind: &[u8],
    users: u64,
    user: u64,
    word: u64,
) -> Result<(), Memory>
    requires { 2 ≤ users }
    ensures { OnOk result (text.new.items ≡ text.old.items ++ feeds.edge kind.now users user word) }
{
    text.extend_from_slice(kind)?;
    push_u64(text, user)?;
    text.extend_from_slice(b",")?;
    push_u64(text, other(users, user, word))
}

// Appends an item.
fn push_item(text: &mut Vec<u8>, users: u64, word: u64) -> Result<(), Memory>
    requires { 0 < users }
    ensures { OnOk result (text.new.items ≡ text.old.items ++ feeds.item users word) }
{
    if word % 2 == 0 {
        text.extend_from_slice(b"@")?;
        push_u64(text, word / 2 % users)
    } else {
        text.extend_from_slice(b"#t")?;
        push_u64(text, word / 2 % TAGS)
    }
}

// Appends so many items, each after a comma.
fn push_items(
    text: &mut Vec<u8>,
    draws: &mut Xoshiro256PlusPlus,
    users: u64,
    count: u64,
) -> Result<(), Memory>
    requires { 0 < users }
    ensures text { OnOk result (text.new.items ≡ text.old.items ++ feeds.items users count draws.old) }
    ensures draws { OnOk result (draws.new ≡ past count draws.old) }
{
    for _i in 0..count {
        let word = next(draws);
        text.extend_from_slice(b",")?;
        push_item(text, users, word)?;
    }
    Ok(())
}

// Appends a tweet.
fn push_tweet(
    text: &mut Vec<u8>,
    draws: &mut Xoshiro256PlusPlus,
    users: u64,
    user: u64,
    count: u64,
) -> Result<(), Memory>
    requires { 0 < users }
    ensures text { OnOk result (text.new.items ≡ text.old.items ++ feeds.tweet users user count draws.old) }
    ensures draws { OnOk result (draws.new ≡ past count draws.old) }
{
    text.extend_from_slice(b"t,")?;
    push_u64(text, user)?;
    push_items(text, draws, users, count)
}

// Appends a record, after its first two draws.
#[tactic(auto, unfolding(crate::specs::Feeds::record_text, crate::specs::Feeds::record_end))]
fn push_record(
    text: &mut Vec<u8>,
    draws: &mut Xoshiro256PlusPlus,
    users: u64,
    a: u64,
    b: u64,
) -> Result<(), Memory>
    requires { 2 ≤ users }
    ensures text { OnOk result (text.new.items ≡ text.old.items ++ feeds.record_text users a b draws.old) }
    ensures draws { OnOk result (draws.new ≡ feeds.record_end a b draws.old) }
{
    let user = a / 16 % users;
    match a % 16 {
        0..=8 => push_edge(text, b"f,", users, user, b),
        9 => push_edge(text, b"x,", users, user, b),
        10..=14 => push_tweet(text, draws, users, user, 1 + b % ITEMS),
        _ => {
            text.extend_from_slice(b"?")?;
            Ok(())
        }
    }
}

/// Appends the line of the next record, over so many users.
#[tactic(auto, unfolding(crate::specs::Feeds::line, crate::specs::Feeds::after_line))]
pub(crate) fn push_line(
    text: &mut Vec<u8>,
    draws: &mut Xoshiro256PlusPlus,
    users: u64,
) -> Result<(), Memory>
    requires { 2 ≤ users }
    ensures text { OnOk result (text.new.items ≡ text.old.items ++ feeds.line users draws.old) }
    ensures draws { OnOk result (draws.new ≡ feeds.after_line draws.old) }
{
    let a = next(draws);
    let b = next(draws);
    push_record(text, draws, users, a, b)?;
    text.push(b'\n')?;
    Ok(())
}
