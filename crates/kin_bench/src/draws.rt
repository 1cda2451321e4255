//! Random follows.

ghost use Rattle.std.specs.Prelude.{◌<◌};

use kin_ids::{Memory, User};
use rand_core::{Rng, SeedableRng};
use rand_xoshiro::Xoshiro256PlusPlus;
use std::alloc::Global;

/// A follow of `other` by `user`, or an unfollow, as the record after so many others.
#[derive(Clone, Copy)]
pub struct Edge {
    /// How many records come before it.
    pub from: u64,
    /// Who follows.
    pub user: User,
    /// Who is followed.
    pub other: User,
    /// Whether it is an unfollow.
    pub drops: bool,
}

/// Random follows between so many users, of whom each is followed as often, or the one of rank r about 1/r as often as
/// the first.
#[derive(Drop)]
pub struct Draws {
    words: Xoshiro256PlusPlus,
    users: u32,
    ranked: bool,
    drawn: u64,
}

// One of so many users.
fn below(word: u64, users: u32) -> u32
    requires { 0 < users }
    ensures { result < users }
{
    (word % u64::from(users)) as u32
}

// One of so many users who isn't this one.
fn another(user: u32, users: u32, word: u64) -> u32
    requires { 1 < users }
{
    let step = 1 + word % u64::from(users - 1);
    ((u64::from(user) + step) % u64::from(users)) as u32
}

impl Draws {
    /// None is drawn yet. Of fewer than two users there are two.
    pub fn new(users: u32, ranked: bool) -> Draws {
        Draws {
            words: Xoshiro256PlusPlus::seed_from_u64(1),
            users: users.max(2),
            ranked,
            drawn: 0,
        }
    }

    // Among how many users, the most popular ones, the next one is drawn.
    fn range(&mut self, users: u32) -> u32
        requires { 0 < users }
        ensures { 0 < result }
    {
        if self.ranked {
            (users >> (self.words.next_u64() % 17)).max(1)
        } else {
            users
        }
    }

    // Of ten records one is an unfollow.
    fn draw(&mut self) -> Edge {
        let users = self.users.max(2);
        let range = self.range(users);
        let other = below(self.words.next_u64(), range);
        let word = self.words.next_u64();
        let user = another(other, users, word / 16);
        let from = self.drawn;
        self.drawn = from.wrapping_add(1);
        Edge {
            from,
            user: User(user),
            other: User(other),
            drops: word % 10 == 0,
        }
    }

    /// The next ones.
    pub fn edges(&mut self, alloc: Global, count: u64) -> Result<Vec<Edge>, Memory> {
        let mut edges = Vec::new(alloc);
        for _ in 0..count {
            edges.push(self.draw())?;
        }
        Ok(edges)
    }
}
