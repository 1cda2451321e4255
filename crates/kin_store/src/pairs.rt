//! Pairs of users, and of a tag and a user.

use kin_ids::{Tag, User};

/// A user with another one.
#[derive(Clone, Copy, Debug, PartialEq, Eq, PartialOrd, Ord)]
pub struct Pair {
    /// The user.
    pub user: User,
    /// The other one.
    pub other: User,
}

/// A tag with a user.
#[derive(Clone, Copy, Debug, PartialEq, Eq, PartialOrd, Ord)]
pub struct TagUser {
    /// The tag.
    pub tag: Tag,
    /// The user.
    pub user: User,
}
