//! Whom to turn next.

ghost use Rattle.std.specs.Prelude.{◌≡◌, ◌<◌, ◌≤◌, IfSome};

use kin_ids::{Memory, User};
use std::alloc::Global;
use std::marker::Model;
use std::mem;

/// Where users are noted that became active.
pub(crate) trait Notes {
    /// Puts a user with its value after the others, where there is room.
    fn note(&mut self, u: User, value: Option<u32>);
}

/// Nobody is noted.
#[derive(Clone, Copy)]
pub(crate) struct NoNotes;

impl Notes for NoNotes {
    fn note(&mut self, u: User, value: Option<u32>) {
        let _ = (u, value);
    }
}

/// Users in the order in which they became active, wave by wave: those noted while a wave is taken are the next one.
/// They stand in room that was made for them; whoever doesn't fit isn't noted. No result depends on it: it says in
/// which order turns are made, not which. It is seen as the number of those that are noted.
#[derive(Drop)]
pub struct Waves {
    // The wave that is taken, from a place on, lesser values first, and before all those who have none.
    wave: Vec<(u32, User)>,
    at: usize,
    // The one after it.
    later: Vec<(u32, User)>,
}

impl Model for Waves {
    ghost use Rattle.std.specs.Prelude.{ℕ, ◌+◌, ◌-◌, ◌≤◌, length};

    ghost Value = { ℕ };

    ghost view = { λ a. (length a.wave.items - a.at) + length a.later.items };

    ghost invariant = { λ a. a.at ≤ length a.wave.items };
}

// Whose value is less comes first. Who has none offers nothing, and comes before all others.
fn rank_of(value: Option<u32>) -> u32 {
    match value {
        Some(value) => value.saturating_add(1),
        None => 0,
    }
}

impl Waves {
    /// Room for so many users.
    pub fn with_room(alloc: Global, n: usize) -> Result<Waves, Memory> {
        Ok(Waves {
            wave: Vec::with_capacity(alloc, n)?,
            at: 0,
            later: Vec::with_capacity(alloc, n)?,
        })
    }

    /// Nobody is noted. It takes no memory.
    pub fn clear(&mut self) {
        self.wave.clear();
        self.later.clear();
        self.at = 0;
    }

    // The next wave, where one was taken.
    fn turn_over(&mut self)
        ensures { self.new ≤ self.old }
    {
        if self.at < self.wave.len() {
            return;
        }
        self.wave.clear();
        self.at = 0;
        mem::swap(&mut self.wave, &mut self.later);
        self.wave.sort_unstable();
    }

    /// Takes the first one. It takes no memory. O(log n) on the average.
    pub fn take(&mut self) -> Option<User>
        ensures { IfSome result (λ u. self.new < self.old) }
    {
        self.turn_over();
        if self.at >= self.wave.len() {
            return None;
        }
        let user = self.wave[self.at].1;
        self.at += 1;
        Some(user)
    }
}

impl Notes for Waves {
    fn note(&mut self, u: User, value: Option<u32>) {
        if self.later.len() < self.later.capacity() {
            self.later.push_reserved((rank_of(value), u));
        }
    }
}
