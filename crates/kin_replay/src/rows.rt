//! Worked rows from the bytes of a feed, each the contract of a function that does nothing.

ghost use Rattle.kin_replay.specs.FeedRows.{IsAllBad, IsQuoted};

/// What whole runs print over feeds of these bytes.
pub fn rows_on_feeds()
    ensures all_bad { IsAllBad }
    ensures quoted { IsQuoted }
{}
