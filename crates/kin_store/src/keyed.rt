//! Items that are found by a part of them.

ghost use Rattle.std.specs.Prelude.{◌≡◌};

use kin_ids::{Half, Tag, Use, User};

/// An item that is found by a part of it.
pub(crate) trait Keyed<K> {
    ghost key: { Self → K };

    fn key(&self) -> K
        ensures { result ≡ key self.now };
}

impl Keyed<User> for User {
    ghost key = { λ u. u };

    fn key(&self) -> User {
        *self
    }
}

impl Keyed<User> for Half {
    ghost key = { λ h. h.other };

    fn key(&self) -> User {
        self.other
    }
}

impl Keyed<Tag> for Use {
    ghost key = { λ x. x.tag };

    fn key(&self) -> Tag {
        self.tag
    }
}
