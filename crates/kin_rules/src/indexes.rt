//! Users numbered densely, so that what belongs to each stands in a vector.

ghost use Rattle.std.specs.Prelude.{◌≡◌, ◌++◌, ◌∷◌, [], IfOk, OnErr, OnOk, false, length};
ghost use Rattle.std.specs.List.Sorted.{IsStrictlySortedBy};
ghost use Rattle.kin_ids.specs.Users.{has_user, user_cmp};
ghost use Rattle.kin_rules.specs.Places.{found, place, with_user};

use indexmap::IndexSet;
use kin_ids::{Memory, User};
use std::alloc::Global;
use std::marker::Model;

/// Users in the order in which they were met, seen as the list. A user keeps its place.
#[derive(Drop)]
pub struct Index {
    users: Vec<User>,
    places: IndexSet<u32>,
}

impl Model for Index {
    ghost use Rattle.std.specs.Prelude.{◌≡◌, List, map};
    ghost use Rattle.kin_ids.specs.declared.ids.User.{User};

    ghost Value = { List User };

    ghost view = { λ a. a.users.items };

    ghost invariant = { λ a. a.places.keys ≡ map (λ u. u.0) a.users.items };
}

impl Index {
    /// Nobody yet. It takes no memory.
    pub fn new(alloc: Global) -> Index
        ensures { result ≡ [] }
    {
        Index {
            users: Vec::new(alloc),
            places: IndexSet::new(alloc),
        }
    }

    /// These users, each at its place. O(n) for n users.
    pub fn of(alloc: Global, users: &[User]) -> Result<Index, Memory>
        requires { IsStrictlySortedBy user_cmp users.now }
        ensures { IfOk result (λ index. index ≡ users.now) }
    {
        let mut index = Index::new(alloc);
        for user in users {
            index.add(*user)?;
        }
        Ok(index)
    }

    /// How many they are. O(1).
    pub fn len(&self) -> usize
        ensures { result ≡ length self.now }
    {
        self.users.len()
    }

    /// The users. O(1).
    pub fn as_slice(&self) -> &[User]
        ensures { result.now ≡ self.now }
    {
        self.users.as_slice()
    }

    /// The place of a user: one look-up by hash.
    pub fn find(&self, user: User) -> Option<usize>
        ensures { result ≡ found self.now user }
    {
        self.places.get_index_of(&user.0)
    }

    /// The place of a user, which is the next one where it wasn't met: one look-up by hash, or two.
    pub fn add(&mut self, user: User) -> Result<usize, Memory>
        ensures ok { IfOk result (λ i. i ≡ place self.new user) }
        ensures users { OnOk result (self.new ≡ with_user self.old user) }
        ensures err { OnErr result (self.new ≡ self.old) }
    {
        match self.find(user) {
            Some(place) => Ok(place),
            None => self.put(user),
        }
    }

    // Adds a user that wasn't met. Room is made first, so that nothing is taken back.
    fn put(&mut self, user: User) -> Result<usize, Memory>
        requires { has_user self.old user ≡ false }
        ensures ok { IfOk result (λ i. i ≡ place self.new user) }
        ensures users { OnOk result (self.new ≡ self.old ++ user ∷ []) }
        ensures err { OnErr result (self.new ≡ self.old) }
    {
        let place = self.users.len();
        self.users.reserve(1)?;
        self.places.insert_full(user.0)?;
        self.users.push_reserved(user);
        Ok(place)
    }
}
