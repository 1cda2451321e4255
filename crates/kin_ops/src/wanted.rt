//! Which operations of a transaction are made.

ghost use Rattle.std.specs.Prelude.{◌≡◌, ◌<◌};
ghost use Rattle.kin_ids.specs.Operations.{op_part};
ghost use Rattle.kin_ops.specs.Wanted.{HasParts, is_wanted};

use kin_ids::{Op, PartId, Subject, part_of_tag, part_of_user};

/// Which operations are wanted.
#[derive(Clone, Copy)]
pub(crate) enum Wanted {
    /// All of them.
    All,
    /// Those of one partition among so many.
    Of { parts: u16, part: PartId },
}

impl Wanted {
    /// Whether an operation is wanted.
    pub fn has(self, op: &Op) -> bool
        requires { HasParts self }
        ensures { result ≡ is_wanted self op.now }
    {
        match self {
            Wanted::All => true,
            Wanted::Of { parts, part } => part_of(op, parts) == part,
        }
    }
}

/// The partition to which an operation belongs.
pub(crate) fn part_of(op: &Op, parts: u16) -> PartId
    requires { 0 < parts }
    ensures { result.0 ≡ op_part parts op.now }
{
    match op.subject() {
        Subject::User(user) => part_of_user(user, parts),
        Subject::Tag(tag) => part_of_tag(tag, parts),
    }
}
