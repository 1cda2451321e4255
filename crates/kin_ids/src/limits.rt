//! The most that the system takes of each thing.

ghost use Rattle.std.specs.Prelude.{◌≡◌};
ghost use Rattle.kin_ids.specs.Sizes as sizes;

/// The most records that all feeds have together.
pub const MOST_RECORDS: u64 = 2097152;

/// The most bytes of all feeds together, and of a schedule.
pub const MOST_BYTES: u64 = 33554432;

/// The most lines of a schedule.
pub const MOST_LINES: u64 = 1048576;

/// The most partitions.
pub const MOST_PARTS: u16 = 64;

/// The most feeds, one for each ingest node.
pub const MOST_FEEDS: u16 = 16;

/// The most landmarks.
pub const MOST_LANDMARKS: u16 = 16;

/// The most records of a transaction.
pub const MOST_BATCH: u64 = 16;

/// The most items of a tweet.
pub const MOST_ITEMS: usize = 16;

/// The constants are the limits of which definitions speak.
pub fn limits()
    ensures records { MOST_RECORDS ≡ sizes.most_records }
    ensures bytes { MOST_BYTES ≡ sizes.most_bytes }
    ensures lines { MOST_LINES ≡ sizes.most_lines }
    ensures parts { MOST_PARTS ≡ sizes.most_parts }
    ensures feeds { MOST_FEEDS ≡ sizes.most_feeds }
    ensures landmarks { MOST_LANDMARKS ≡ sizes.most_landmarks }
    ensures batch { MOST_BATCH ≡ sizes.most_batch }
    ensures items { MOST_ITEMS ≡ sizes.most_items }
{}
