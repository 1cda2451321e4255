//! A chain's pieces in memory. A chain grows at its back and lets go at its front, and readers want
//! its pieces as one slice. So the pieces lie in one `Vec`, the chain's from `start` on, and those
//! before `start` are dropped ones that it holds still. When they come to more than the pieces behind
//! them, `settle` drains them: it moves fewer pieces than were dropped since it last did, so over all
//! calls dropping costs what is dropped, and at most half of the pieces in memory are dropped ones.

ghost use Rattle.std.specs.Prelude.{◌≡◌, ◌+◌, ◌-◌, ◌≤◌, ◌<◌, ◌++◌, ◌∷◌, [], OnOk, length, take, drop, vec_len, vec_capacity};

use kin_ids::{Memory, Piece};
use std::alloc::Global;
use std::marker::Model;

/// The pieces of a chain in their order.
#[derive(Drop)]
pub(crate) struct Queue {
    all: Vec<Piece>,
    start: usize,
}

impl Model for Queue {
    ghost use Rattle.std.specs.Prelude.{◌+◌, ◌-◌, ◌≤◌, drop, vec_len, vec_capacity};
    ghost use Rattle.kin_held.specs.Queues.{QueueView};

    ghost Value = { QueueView };

    ghost view = { λ q. record { items = drop q.start q.all.items; room = vec_capacity q.all - vec_len q.all } };

    // At most half of the pieces in memory are dropped ones.
    ghost invariant = { λ q. q.start + q.start ≤ vec_len q.all };
}

impl Queue {
    /// No pieces. It takes no memory.
    pub fn new(alloc: Global) -> Queue
        ensures { result.items ≡ [] }
    {
        Queue {
            all: Vec::new(alloc),
            start: 0,
        }
    }

    /// The pieces, from the front on.
    pub fn as_slice(&self) -> &[Piece]
        ensures { result.now ≡ self.now.items }
    {
        &self.all[self.start..]
    }

    /// Makes room for more pieces at the back. It costs a move of what is in memory where there is too
    /// little room, and memory may run out then.
    pub fn reserve(&mut self, additional: usize) -> Result<(), Memory>
        ensures items { self.new.items ≡ self.old.items }
        ensures ok { OnOk result (additional ≤ self.new.room) }
    {
        self.all.reserve(additional)?;
        Ok(())
    }

    /// Adds a piece at the back, where there is room for it.
    pub fn push_reserved(&mut self, piece: Piece)
        requires { 0 < self.old.room }
        ensures items { self.new.items ≡ self.old.items ++ piece ∷ [] }
        ensures room { self.new.room + 1 ≡ self.old.room }
    {
        self.all.push_reserved(piece);
    }

    /// Keeps this many pieces from the front on. Over all calls it costs what is dropped.
    pub fn truncate(&mut self, count: usize)
        ensures items { self.new.items ≡ take count self.old.items }
        ensures room { self.old.room ≤ self.new.room }
    {
        self.all.truncate(self.start.saturating_add(count));
        self.start = settle(&mut self.all, self.start);
    }

    /// Drops this many pieces from the front on. Over all calls it costs what is dropped; the dropped
    /// pieces may stay in memory until they come to more than those that stay.
    pub fn drop_front(&mut self, count: usize)
        requires { count ≤ length self.old.items }
        ensures items { self.new.items ≡ drop count self.old.items }
        ensures room { self.old.room ≤ self.new.room }
    {
        self.start = settle(&mut self.all, self.start + count);
    }
}

// Lets go of the pieces before a position where they are more than those behind it, and answers where
// those behind it begin then.
fn settle(all: &mut Vec<Piece>, start: usize) -> usize
    requires { start ≤ vec_len all.old }
    ensures items { drop result all.new.items ≡ drop start all.old.items }
    ensures half { result + result ≤ vec_len all.new }
    ensures room { vec_capacity all.old - vec_len all.old ≤ vec_capacity all.new - vec_len all.new }
{
    if start <= all.len() - start {
        return start;
    }
    drop(all.drain(..start));
    0
}
