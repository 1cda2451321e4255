//! What a row of fields says.

ghost use Rattle.std.specs.Prelude.{◌≡◌, ◌≤◌, drop, length, IfOk};
ghost use Rattle.csv.specs.Records.{fields_of};
ghost use Rattle.kin_feed.specs.Records.{record_of, edge_of, item_of, items_of, pair_of, unlike, tweet_of};
ghost use Rattle.kin_ids.specs.declared.ops.Record.TheVariants as record_kind;
ghost use Rattle.kin_ids.specs.Texts.{user_of};

use csv::ByteRecord;
use kin_ids::{Item, Items, MOST_ITEMS, Memory, Record, Tag, User};
use std::alloc::Global;

/// The record of a row. Its cost is the length of the row.
pub fn read_row(alloc: Global, row: &ByteRecord) -> Result<Record, Memory>
    ensures { IfOk result (λ r. r ≡ record_of (fields_of row.now)) }
{
    let Some(kind) = row.get(0) else {
        return Ok(Record::Bad);
    };
    if kind == b"f".as_slice() {
        return Ok(follow(read_pair(row)));
    }
    if kind == b"x".as_slice() {
        return Ok(unfollow(read_pair(row)));
    }
    if kind == b"t".as_slice() {
        return read_tweet(alloc, row);
    }
    Ok(Record::Bad)
}

fn follow(pair: Option<(User, User)>) -> Record
    ensures { result ≡ edge_of record_kind.Follow pair }
{
    match pair {
        Some((u, v)) => Record::Follow { u, v },
        None => Record::Bad,
    }
}

fn unfollow(pair: Option<(User, User)>) -> Record
    ensures { result ≡ edge_of record_kind.Unfollow pair }
{
    match pair {
        Some((u, v)) => Record::Unfollow { u, v },
        None => Record::Bad,
    }
}

// Two users who are not the same, where they are all that follows the first field.
#[tactic(auto, using(crate::proofs::Fields::pair_lemmas))]
fn read_pair(row: &ByteRecord) -> Option<(User, User)>
    ensures { result ≡ pair_of (drop 1 (fields_of row.now)) }
{
    if row.len() != 3 {
        return None;
    }
    read_unlike(row.get(1)?, row.get(2)?)
}

// Two users who are not the same.
fn read_unlike(u: &[u8], v: &[u8]) -> Option<(User, User)>
    ensures { result ≡ unlike (user_of u.now) (user_of v.now) }
{
    match (User::read(u), User::read(v)) {
        (Some(u), Some(v)) if u != v => Some((u, v)),
        _ => None,
    }
}

// The tweet that follows the first field.
fn read_tweet(alloc: Global, row: &ByteRecord) -> Result<Record, Memory>
    ensures { IfOk result (λ r. r ≡ tweet_of (drop 1 (fields_of row.now))) }
{
    let Some(user) = row.get(1) else {
        return Ok(Record::Bad);
    };
    let Some(u) = User::read(user) else {
        return Ok(Record::Bad);
    };
    if row.len() < 3 || 2 + MOST_ITEMS < row.len() {
        return Ok(Record::Bad);
    }
    match read_items(alloc, row)? {
        Some(items) => Ok(Record::Tweet { u, items }),
        None => Ok(Record::Bad),
    }
}

// The items that follow the first two fields, where each field is one.
fn read_items(alloc: Global, row: &ByteRecord) -> Result<Option<Items>, Memory>
    requires { 2 ≤ length (fields_of row.now) }
    ensures { IfOk result (λ items. items ≡ items_of (drop 2 (fields_of row.now))) }
{
    let mut items = Items::of(Vec::with_capacity(alloc, row.len() - 2)?);
    for i in 2..row.len() {
        let Some(field) = row.get(i) else {
            return Ok(None);
        };
        let Some(item) = read_item(field) else {
            return Ok(None);
        };
        items.push(item)?;
    }
    Ok(Some(items))
}

// An item of a tweet.
fn read_item(field: &[u8]) -> Option<Item>
    ensures { result ≡ item_of field.now }
{
    match field {
        [b'@', text @ ..] => User::read(text).map(Item::At),
        [b'#', text @ ..] => Tag::read(text).map(Item::Hash),
        _ => None,
    }
}
