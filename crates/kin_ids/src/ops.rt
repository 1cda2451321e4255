//! Records of a feed, the operations that they give, and the pieces that carry them.

ghost use Rattle.std.specs.Prelude.{◌≡◌};
ghost use Rattle.kin_ids.specs.Operations.{subject_of};

use crate::ids::{PartId, User};
use crate::lists::{Items, Ops};
use crate::stamps::{Place, Stamp};
use crate::tags::Tag;
use std::marker::Model;

/// An item of a tweet: a mention of a user, or a use of a tag.
#[derive(Clone, Copy, Debug, PartialEq, Eq)]
pub enum Item {
    /// `@`: a mention of the user.
    At(User),
    /// `#`: a use of the tag.
    Hash(Tag),
}

/// A record of a feed.
#[derive(Debug, Drop)]
pub enum Record {
    /// `u` follows `v`, which is another user.
    Follow { u: User, v: User },
    /// `u` follows `v` no longer.
    Unfollow { u: User, v: User },
    /// A tweet by `u` of 1 to 16 items.
    Tweet { u: User, items: Items },
    /// Any other record. It keeps its place, gives no operation and is counted.
    Bad,
}

/// What a record does to one partition. Each belongs to the partition of its first user, or of its tag where that comes first.
#[derive(Clone, Copy, Debug, PartialEq, Eq)]
pub enum Op {
    /// The first follows the second.
    AddOut(User, User),
    /// The first is followed by the second.
    AddIn(User, User),
    /// The first follows the second no longer.
    DropOut(User, User),
    /// The first is followed by the second no longer.
    DropIn(User, User),
    /// The first mentions the second.
    MentionOut(User, User),
    /// The first is mentioned by the second.
    MentionIn(User, User),
    /// The user is mentioned once more.
    Said(User),
    /// The user uses the tag.
    Use(User, Tag),
    /// The tag is used by the user.
    TagUse(Tag, User),
}

/// To whom an operation belongs.
#[derive(Clone, Copy, Debug, PartialEq, Eq)]
pub enum Subject {
    /// The user, on the partition where it lives.
    User(User),
    /// The tag, on the partition where it lives.
    Tag(Tag),
}

impl Op {
    /// To whom it belongs: the tag where that comes first, else the first user. It takes no memory.
    pub fn subject(&self) -> Subject
        ensures { result ≡ subject_of self.now }
    {
        match self {
            Op::AddOut(user, _) | Op::AddIn(user, _) => Subject::User(*user),
            Op::DropOut(user, _) | Op::DropIn(user, _) => Subject::User(*user),
            Op::MentionOut(user, _) | Op::MentionIn(user, _) => Subject::User(*user),
            Op::Said(user) | Op::Use(user, _) => Subject::User(*user),
            Op::TagUse(tag, _) => Subject::Tag(*tag),
        }
    }
}

/// An operation with the number of its record.
#[derive(Clone, Copy, Debug, PartialEq, Eq)]
pub struct Numbered {
    /// The record's number in its feed.
    pub number: u64,
    /// What it does.
    pub op: Op,
}

/// What one partition gets of a transaction: its operations, perhaps none. `base` is where the stamp's incarnation began.
#[derive(Debug, Drop)]
pub struct Piece {
    /// The transaction's stamp.
    pub stamp: Stamp,
    /// Where the stamp's incarnation began.
    pub base: u64,
    /// The partition that gets it.
    pub part: PartId,
    /// The partition's operations of the transaction, in record order.
    pub ops: Ops,
}

/// One half of a follow edge that was ever added: the other end, whether it is present, and where it was first added.
#[derive(Clone, Copy, Debug, PartialEq, Eq)]
pub struct Half {
    /// The user at the other end.
    pub other: User,
    /// Whether the edge is there now.
    pub present: bool,
    /// The place of the record that first added it.
    pub added: Place,
}

/// A use of a tag by a user, at the place of the first one.
#[derive(Clone, Copy, Debug, PartialEq, Eq)]
pub struct Use {
    /// The tag.
    pub tag: Tag,
    /// The place of the record that first used it.
    pub first: Place,
}

/// The name of a file, seen as its text.
#[derive(Debug, Drop)]
pub struct Name {
    text: String,
}

impl Model for Name {
    ghost use Rattle.std.specs.Prelude.{List, ℕ, string_bytes};

    ghost Value = { List ℕ };

    ghost view = { λ n. string_bytes n.text };
}

impl Name {
    ghost use Rattle.std.specs.Prelude.{string_bytes};

    /// The name of this text. It takes no memory.
    pub fn of(text: String) -> Name
        ensures { result ≡ string_bytes text }
    {
        Name { text }
    }

    /// Its text.
    pub fn as_str(&self) -> &str
        ensures { result.now ≡ self.now }
    {
        self.text.as_str()
    }
}
