//! Opens the world of a case.

ghost use Rattle.std.specs.Prelude.{◌≡◌, ◌*◌, ◌<◌, ◌≤◌, List, IfOk, IfSome, OnOk, length, sum_by};
ghost use Rattle.kin_ids.specs.declared.ops.Record.{Record};

use kin_feed::{Feed, FeedFault, read_feed};
use kin_ids::{Memory, User};
use kin_world::World;
use std::alloc::Global;

// The most records of one of 16 feeds, so that together they are no more than a world takes.
const RECORDS: u64 = 131072;

// The feed whose records are parted by `|`.
fn feed_of(alloc: Global, text: &str) -> Result<Feed, FeedFault>
    ensures { IfOk result (λ feed. length feed ≤ 131072) }
{
    let bytes: Vec<u8> = text
        .bytes()
        .map(|byte| if byte == b'|' { b'\n' } else { byte })
        .collect(alloc)
        .map_err(|_| FeedFault::Memory)?;
    read_feed(alloc, bytes.as_slice(), RECORDS)
}

fn feeds_of(alloc: Global, texts: &[&str]) -> Result<Vec<Feed>, FeedFault>
    requires { length texts.now ≤ 16 }
    ensures each { IfOk result (λ feeds. length feeds.items ≡ length texts.now) }
    ensures few { IfOk result (λ feeds. sum_by (λ (feed : List Record). length feed) feeds.items ≤ 2097152) }
{
    let mut feeds = Vec::new(alloc);
    for text in texts {
        let feed = feed_of(alloc, text)?;
        feeds.push(feed).map_err(|_| FeedFault::Memory)?;
    }
    Ok(feeds)
}

// The users of a text, which are parted by `,`. None where one is no user, stands twice, or is past the limit.
fn landmarks_of(alloc: Global, text: &str) -> Result<Option<Vec<User>>, Memory>
    ensures { IfOk result (λ users. IfSome users (λ found. length found.items ≤ 16)) }
{
    let mut users = Vec::new(alloc);
    for word in text.split(',') {
        let Some(user) = User::read(word.as_bytes()) else {
            return Ok(None);
        };
        if users.len() == 16 || users.contains(&user) {
            return Ok(None);
        }
        users.push(user)?;
    }
    Ok(Some(users))
}

/// A world of so many partitions over the feeds of a text, which are parted by `;`, with the landmarks of another. None where one of
/// these numbers or that of the records is past its limit, or the landmarks are none.
pub(crate) fn open(
    alloc: Global,
    parts: u64,
    text: &str,
    landmarks: Option<&str>,
) -> Result<Option<World>, Memory> {
    let texts: Vec<&str> = text.split(';').collect(alloc)?;
    if parts == 0 || parts > 64 || texts.is_empty() || texts.len() > 16 {
        return Ok(None);
    }
    let found = match landmarks {
        Some(text) => landmarks_of(alloc, text)?,
        None => Some(Vec::new(alloc)),
    };
    let Some(landmarks) = found else {
        return Ok(None);
    };
    match feeds_of(alloc, texts.as_slice()) {
        Ok(feeds) => Ok(Some(World::open(alloc, feeds, parts as u16, &landmarks)?)),
        Err(FeedFault::TooManyRecords) => Ok(None),
        Err(FeedFault::Memory) => Err(Memory),
    }
}
