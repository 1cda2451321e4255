//! On which partition users and tags live.

ghost use Rattle.std.specs.Prelude.{◌≡◌, ◌<◌};
ghost use Rattle.kin_ids.specs.Parting.{user_part, tag_hash, tag_part};

use crate::ids::{PartId, User};
use crate::tags::Tag;

/// The partition on which a user lives: the user's number modulo the number of partitions.
pub fn part_of_user(u: User, parts: u16) -> PartId
    requires { 0 < parts }
    ensures { result.0 ≡ user_part parts u }
{
    PartId((u.0 % u32::from(parts)) as u16)
}

// The number that the bytes of a tag fold to, by 31 modulo 2^32.
fn hash_of_tag(t: Tag) -> u32
    ensures { result ≡ tag_hash t }
{
    t.bytes().iter().fold(
        0,
        |h: u32, b| h.wrapping_mul(31).wrapping_add(u32::from(*b)),
    )
}

/// The partition on which a tag lives: the number that its bytes fold to, modulo the number of partitions.
pub fn part_of_tag(t: Tag, parts: u16) -> PartId
    requires { 0 < parts }
    ensures { result.0 ≡ tag_part parts t }
{
    PartId((hash_of_tag(t) % u32::from(parts)) as u16)
}
