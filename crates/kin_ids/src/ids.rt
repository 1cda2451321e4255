//! Plain numbers with names of their own.

ghost use Rattle.std.specs.Prelude.{◌≡◌};
ghost use Rattle.kin_ids.specs.Texts.{user_of};

use crate::decimals::read_decimal;

/// An ingest node. Nodes are numbered from 0; node i reads feed i.
#[derive(Clone, Copy, Debug, PartialEq, Eq, PartialOrd, Ord, Hash)]
pub struct IngestId(pub u16);

/// A partition. Partitions are numbered from 0.
#[derive(Clone, Copy, Debug, PartialEq, Eq, PartialOrd, Ord, Hash)]
pub struct PartId(pub u16);

/// A user of the social graph, 0 to 4294967295.
#[derive(Clone, Copy, Debug, PartialEq, Eq, PartialOrd, Ord, Hash)]
pub struct User(pub u32);

impl User {
    /// The user whose decimal text this is, 0 to 4294967295: no sign, no leading zero. None for every other text.
    pub fn read(bytes: &[u8]) -> Option<User>
        ensures { result ≡ user_of bytes.now }
    {
        let number = read_decimal(bytes)?;
        u32::try_from(number).ok().map(User)
    }
}

/// An epoch. Cut epochs are numbered from 1; epoch 0 is the empty graph.
#[derive(Clone, Copy, Debug, PartialEq, Eq, PartialOrd, Ord, Hash)]
pub struct Epoch(pub u32);

/// The incarnation of an ingest node: 0 at first, and one more with each restart.
#[derive(Clone, Copy, Debug, PartialEq, Eq, PartialOrd, Ord, Hash)]
pub struct Inc(pub u16);
