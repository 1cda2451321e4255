//! A list's items, one after the other.

ghost use Rattle.std.specs.Iterator.{YieldsFirstRef, item_count};
ghost use Rattle.std.specs.Prelude.{◌≡◌};
ghost use Rattle.kin_share.specs.Chunks.{joined, AreFull};

use crate::full::FullRef;
use std::marker::Model;

/// What is left of a list's items.
#[derive(Drop)]
pub struct Items<'a, T> {
    // What is left of the chunk that was taken last.
    run: &'a [T],
    full: FullRef<'a, T>,
    // The next full chunk. After the last one comes the rest, and then nothing.
    next: usize,
    rest: &'a [T],
}

impl<'a, T> Model for Items<'a, T> {
    ghost use Rattle.std.specs.Prelude.{List, ◌++◌, drop};
    ghost use Rattle.kin_share.specs.Chunks.{joined, AreFull};

    ghost Value = { List T };

    ghost view = { λ a. a.run.now ++ joined (drop a.next a.full) a.rest.now };

    ghost invariant = { λ a. AreFull a.full };
}

impl<'a, T: Copy + Drop> Items<'a, T> {
    /// The items of full chunks, and then a rest.
    pub(crate) fn of(full: FullRef<'a, T>, rest: &'a [T]) -> Items<'a, T>
        requires { AreFull full }
        ensures { result ≡ joined full.entry rest.now }
    {
        Items {
            run: &[],
            full,
            next: 0,
            rest,
        }
    }
}

impl<'a, T: Copy + Drop> Iterator for Items<'a, T> {
    type Item = &'a T;

    ghost next_gives = { YieldsFirstRef (λ s. s) };

    ghost remaining = { item_count (λ s. s) };

    fn next(&mut self) -> Option<&'a T> {
        if let Some((first, others)) = self.run.split_first() {
            self.run = others;
            return Some(first);
        }
        if self.next < self.full.len() {
            let (first, others) = self.full.chunk(self.next).split_first()?;
            self.run = others;
            self.next += 1;
            return Some(first);
        }
        let (first, others) = self.rest.split_first()?;
        self.run = others;
        self.rest = &[];
        Some(first)
    }
}
